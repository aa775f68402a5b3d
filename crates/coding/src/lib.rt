// The coding layer: turning a byte, the framing test, Hamming bytes and character bytes, each for all of the 256 values.
// Bytes are those of document 01 after turning, except in `turned` itself and in `framing_passes`, which takes a framing code as it stands.
#![tactic(auto)]

ghost use Rattle.std.specs.Prelude.{◌≡◌, ◌%◌};
ghost use Rattle.std.specs.Int.Count.{ones};
ghost use Rattle.laws.specs.Digits.{weight};
ghost use Rattle.laws.specs.Paper.{one_or_none};
ghost use Rattle.coding.specs.Bits.{framing_passes, odd, turned_byte};
ghost use Rattle.coding.specs.Characters.{character, character_paper, sent_character};
ghost use Rattle.coding.specs.Hamming.{decoded, decoded_paper, message_bits, message_in, message_paper, sent_message, tests_of, wrong_bit};

// What a Hamming byte is: exact, with a message of 0 to 15; corrected, with its message and the position of its wrong bit, 1 to 8; or refused, since more bits are wrong.
// The paper tells these three apart, and so it is no Option: whoever wants the message alone has `message_in`.
#[derive(Drop)]
pub enum Decoded {
    Exact(u8),
    Corrected { message: u8, position: u8 },
    Refused,
}

// The four parity tests of a Hamming byte, each true where it holds.
#[derive(Drop)]
pub struct Tests {
    pub a: bool,
    pub b: bool,
    pub c: bool,
    pub d: bool,
}

// The framing code 11100100, the first bit sent the most significant.
pub const FRAMING_CODE: u8 = 0xE4;

// The bits over which the tests A, B and C are taken.
const A_BITS: u8 = 0xA3;

const B_BITS: u8 = 0x8E;

const C_BITS: u8 = 0x3A;

// b7, the one bit over which none of the three is taken.
const B7: u8 = 0x40;

// The byte end for end. Halves, pairs and bits change places, which a compiler does to many bytes at once; a table would be read a byte at a time.
// The library's `reverse_bits` was tried: it moves a bit at a time, and its definition cannot be unfolded here, so the proof did not close.
pub fn turned(byte: u8) -> u8
    ensures { result ≡ turned_byte byte }
{
    let halves = byte >> 4 | byte << 4;
    let pairs = (halves & 0x33) << 2 | halves >> 2 & 0x33;
    (pairs & 0x55) << 1 | pairs >> 1 & 0x55
}

// Whether a framing code as it stands has at most one wrong bit.
#[tactic(auto, unfolding(crate::specs::Bits::framing_passes, crate::specs::Bits::distance))]
pub fn framing_passes(byte: u8) -> bool
    ensures { result ≡ framing_passes byte }
{
    (byte ^ FRAMING_CODE).count_ones() <= 1
}

// Whether the count of ones is odd.
#[inline]
#[tactic(auto, unfolding(crate::specs::Bits::odd))]
fn is_odd(bits: u8) -> bool
    ensures { result ≡ odd (ones bits) }
{
    bits.count_ones() % 2 == 1
}

// The parity tests, each over the bits of its mask.
#[tactic(auto, unfolding(crate::specs::Hamming::tests_of, crate::specs::Hamming::holds, crate::specs::Hamming::over, laws::specs::Digits::weight))]
pub fn tests_of(byte: u8) -> Tests
    ensures { result ≡ tests_of byte }
{
    Tests {
        a: is_odd(byte & A_BITS),
        b: is_odd(byte & B_BITS),
        c: is_odd(byte & C_BITS),
        d: is_odd(byte & 0xFF),
    }
}

// The bit that is left by what A, B and C say: where a test fails the bits under it are kept, where it holds the others. If one bit is wrong, it is this one.
fn wrong_bit(a: bool, b: bool, c: bool) -> u8
    ensures { result ≡ weight (wrong_bit a b c) }
{
    (A_BITS ^ a as u8 * 0xFF) & (B_BITS ^ b as u8 * 0xFF) & (C_BITS ^ c as u8 * 0xFF)
}

// M1 to M4 of a byte. Four copies of it lie side by side, and of each one message bit is kept, so that these are ten places apart. A product brings the four together, from
// place 28 on.
fn message_bits(byte: u8) -> u8
    ensures { result ≡ message_bits byte }
{
    let copies = byte as u64 * 0x0101_0101;
    let apart = copies & 0x8020_0802;
    ((apart * 0x0804_0201 >> 28) % 16) as u8
}

// What a Hamming byte is, with one wrong bit mended.
pub fn message_of(byte: u8) -> Decoded
    ensures { decoded_paper result ≡ decoded_paper (decoded byte) }
{
    let Tests { a, b, c, d } = tests_of(byte);
    let wrong = wrong_bit(a, b, c);
    if d {
        // A, B and C all hold just where b7 is left.
        if wrong != B7 {
            return Decoded::Refused;
        }
        return Decoded::Exact(message_bits(byte));
    }
    let message = message_bits(byte ^ wrong);
    let position = wrong.trailing_zeros() as u8 + 1;
    Decoded::Corrected { message, position }
}

// The message alone, exact or corrected, for whoever does not ask which.
#[tactic(auto, unfolding(crate::specs::Hamming::message_in, crate::specs::Hamming::message_paper, laws::specs::Paper::one_or_none))]
pub fn message_in(decoded: Decoded) -> Option<u8>
    ensures { message_paper result ≡ one_or_none (message_in decoded) }
{
    match decoded {
        Decoded::Exact(message) => Some(message),
        Decoded::Corrected { message, .. } => Some(message),
        Decoded::Refused => None,
    }
}

// The character of a byte of odd parity, a code of 00 to 7F.
#[tactic(auto, unfolding(crate::specs::Characters::character, crate::specs::Hamming::message_paper, laws::specs::Paper::one_or_none))]
pub fn character_of(byte: u8) -> Option<u8>
    ensures { character_paper result ≡ one_or_none (character byte) }
{
    if is_odd(byte) { Some(byte % 128) } else { None }
}

// The Hamming byte of the message in a number's low four bits. Each bit that is set changes the byte of message 0 in the same places, whatever the others
// are, so that nothing is looked up.
pub fn sent_message(message: u8) -> u8
    ensures { result ≡ sent_message (message % 16) }
{
    let first = (message % 2) * 0x17;
    let second = (message / 2 % 2) * 0x5C;
    let third = (message / 4 % 2) * 0x71;
    let fourth = (message / 8 % 2) * 0xC5;
    0x15 ^ first ^ second ^ third ^ fourth
}

// The byte of odd parity of the character in a number's low seven bits.
#[tactic(auto, unfolding(crate::specs::Characters::sent_character, laws::specs::Digits::weight))]
pub fn sent_character(code: u8) -> u8
    ensures { result ≡ sent_character (code % 128) }
{
    let character = code % 128;
    if is_odd(character) {
        character
    } else {
        character + 128
    }
}
