// Texts: a number in decimal, and texts put into a room, one behind the other.
#![tactic(auto)]

ghost use Rattle.std.specs.Prelude.{[], ◌∷◌, ◌≡◌, ◌≤◌, length, take};
ghost use Rattle.laws.specs.Text.{refused_text};
ghost use Rattle.texts.specs.Decimal.{decimal, digit_text, digits_held, most_digits};
ghost use Rattle.texts.specs.Put.{PutsWhole};
ghost use Rattle.texts.specs.Held.{added, held};

// A word of 64 bits has no more digits.
pub const DIGITS: usize = 20;

// What is said of a refusal has so many.
pub const REFUSED: usize = 11;

// A text in a room of its own: the first `used` bytes, and zeros past them.
#[derive(Clone, Copy)]
pub struct Text<const ROOM: usize> {
    pub bytes: [u8; ROOM],
    pub used: usize,
}

impl<const ROOM: usize> Text<ROOM> {
    // None yet.
    #[tactic(auto, unfolding(crate::specs::Held::held))]
    pub fn new() -> Self
        ensures { result ≡ held ROOM [] }
    {
        Text {
            bytes: [0; ROOM],
            used: 0,
        }
    }

    // What is said. Where `used` is past the room, all of it.
    pub fn as_bytes(&self) -> &[u8]
        ensures { result.now ≡ take self.now.used self.now.bytes }
    {
        if self.used > ROOM {
            return &self.bytes;
        }
        &self.bytes[..self.used]
    }

    // Puts a text behind it, whole or not at all.
    #[tactic(auto, unfolding(crate::specs::Held::added))]
    pub fn put(&mut self, text: &[u8])
        ensures { self.new ≡ added self.old text.now }
    {
        self.used = put(&mut self.bytes, self.used, text);
    }

    // Puts a number behind it, in decimal.
    #[tactic(auto, using(crate::proofs::Held::held_text))]
    pub fn put_decimal(&mut self, number: u64)
        ensures { self.new ≡ added self.old (decimal number) }
    {
        self.put(digits_of(number).as_bytes());
    }
}

// A number in decimal. The digits in front first, so that each is written where it stays. The second promise is for callers, who lend the digits on.
pub fn digits_of(number: u64) -> Text<DIGITS>
    ensures value { result ≡ digits_held (decimal number) }
    ensures bytes_len { (length result.bytes ≡ most_digits) × (result.used ≤ most_digits) }
{
    let mut digits = if number < 10 {
        Text::new()
    } else {
        digits_of(number / 10)
    };
    digits.put(&[b'0' + (number % 10) as u8]);
    digits
}

// A digit of 0 to 15, "0" to "9" and "A" to "F".
#[tactic(auto, unfolding(crate::specs::Decimal::digit_text))]
pub fn digit_text(number: u8) -> u8
    ensures { result ≡ digit_text number }
{
    let low = number % 16;
    if low < 10 { 0x30 + low } else { 0x37 + low }
}

// Puts a text into the room at a place, and answers the place behind it. A text that does not fit whole is not put. No Option:
// that the place is then the same is promised (`PutsWhole`).
pub fn put(room: &mut [u8], at: usize, text: &[u8]) -> usize
    ensures { PutsWhole text.now room.old at room.new result }
{
    if at > room.len() || text.len() > room.len() - at {
        return at;
    }
    let end = at + text.len();
    room[at..end].copy_from_slice(text);
    end
}

// What a program says of a refusal: "refused ", a number of two digits and a line feed.
pub fn refused_text(number: u8) -> [u8; REFUSED]
    ensures { result ≡ refused_text number }
{
    let mut text = *b"refused 00\n";
    text[8] += number / 10;
    text[9] += number % 10;
    text
}
