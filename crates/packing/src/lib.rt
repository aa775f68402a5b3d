// Cells packed bit by bit: a mark in two bits and a character in seven, the most significant bit first. Eight cells fill nine whole bytes. They are worked
// on eight at once, in words of 64 bits, the first cell or byte the most significant.
#![tactic(auto)]

ghost use Rattle.std.specs.Prelude.{◌≡◌, ◌*◌, ◌<◌, ◌^◌, replicate};
ghost use mathlib.Core.List.{[], ◌∷◌, ◌++◌, map, zip_with};
ghost use Rattle.laws.specs.Digits.{binary};
ghost use Rattle.laws.specs.Fields.{bits_of, bytes_of, digits, fields_bits};
ghost use Rattle.packing.specs.Cells.{cell_bytes, cell_fields, eight_from, group_bytes, group_cells, nine_from};
ghost use Rattle.packing.specs.Private.{bits_in, bytes_in, first_bit, last_bits, twice};

// Eight cells, which fill nine bytes.
pub const GROUP_CELLS: usize = 8;

pub const GROUP_BYTES: usize = 9;

#[derive(Drop)]
pub struct EightCells {
    pub marks: [u8; GROUP_CELLS],
    pub characters: [u8; GROUP_CELLS],
}

// The first eight, which are one word, and the last.
#[derive(Drop)]
pub struct NineBytes {
    pub first: [u8; 8],
    pub last: u8,
}

// Eight bytes as one word.
pub fn word_of(bytes: [u8; 8]) -> u64
    ensures { result ≡ binary (bits_of bytes) }
{
    u64::from_be_bytes(bytes)
}

// The eight bytes of a word.
fn bytes_of(word: u64) -> [u8; 8]
    ensures { result ≡ bytes_of 8 (digits 64 word) }
{
    word.to_be_bytes()
}

// Each cell's last eight bits, which are its mark's lower bit and its character: a byte for each cell.
fn last_bits(marks: [u8; GROUP_CELLS], characters: [u8; GROUP_CELLS]) -> u64
    ensures { result ≡ binary (bits_of (zip_with last_bits marks characters)) }
{
    (word_of(characters) & 0x7F7F7F7F7F7F7F7F) + (word_of(marks) & 0x0101010101010101) * 128
}

// Each cell's first bit, which is its mark's upper bit: nine bits apart. A byte that is 255 or 0 by that bit has it at every place, and so at its own.
fn first_bits(marks: [u8; GROUP_CELLS]) -> u64
    ensures { result ≡ binary (fields_bits (replicate group_cells 9) (map first_bit marks)) }
{
    (word_of(marks) & 0x0202020202020202) / 2 * 255 & 0x8040201008040201
}

// Seven bytes moved nine bits apart, and one bit on: the first four by four bits, then the first two of each four by two, then every other by one.
fn apart(bytes: u64) -> u64
    requires { bytes < 2 ^ 56 }
    ensures { result ≡ binary (fields_bits (replicate 7 9) (bytes_of 7 (digits 56 bytes))) * 2 }
{
    let fours = bytes + bytes / 0x1000000 * 0xF000000;
    let twos = fours + (fours & 0x0FFFF00000FFFF00) * 3;
    twos + (twos & 0x3FC00FF003FC00FF)
}

// The nine bytes of eight cells.
pub fn packed(marks: [u8; GROUP_CELLS], characters: [u8; GROUP_CELLS]) -> NineBytes
    ensures { result ≡ nine_from (cell_bytes group_cells group_bytes marks characters) }
{
    let bytes = last_bits(marks, characters);
    NineBytes {
        first: bytes_of(apart(bytes / 256) + first_bits(marks)),
        last: (bytes % 256) as u8,
    }
}

// The bytes of a word that stand nine bits apart, moved together: the steps of `apart` back.
fn together(word: u64) -> u64
    ensures { (result ≡ binary (bits_of (bytes_in word))) × (result < 2 ^ 56) }
{
    let bytes = word - (word & 0x8040201008040201);
    let twos = bytes - (bytes & 0x7F801FE007F801FE) / 2;
    let fours = twos - (twos & 0x3FFFC00003FFFC00) / 4 * 3;
    fours - fours / 0x10000000 * 0xF000000
}

// The marks' upper bits, a byte for each mark. A byte that has no bit stays below 128 where 127 is added, and any other does not.
fn upper_bits(word: u64) -> u64
    ensures { result ≡ binary (bits_of (map twice (bits_in word))) }
{
    ((word & 0x8040201008040201) + 0x7F7F7F7F7F7F7F7F & 0x8080808080808080) / 64
}

// The eight cells of nine bytes.
pub fn unpacked(first: [u8; 8], last: u8) -> EightCells
    ensures { result ≡ eight_from (cell_fields group_cells (first ++ (last ∷ []))) }
{
    let word = word_of(first);
    let cells = together(word) * 256 + last as u64;
    EightCells {
        marks: bytes_of((cells & 0x8080808080808080) / 128 + upper_bits(word)),
        characters: bytes_of(cells & 0x7F7F7F7F7F7F7F7F),
    }
}
