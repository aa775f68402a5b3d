// The UTF-8 form of a letter.
ghost use Rattle.std.specs.Prelude.{◌≡◌};
ghost use Rattle.letters.specs.Utf8.{behind, form_held, is_letter, utf8};

use crate::MOST_BYTES;
use texts::Text;

const LAST_LETTER: u32 = 0x10FFFF;

const FIRST_SURROGATE: u32 = 0xD800;

const LAST_SURROGATE: u32 = 0xDFFF;

// The least letters of two, three and four bytes.
const LEAST_OF_TWO: u32 = 0x80;

const LEAST_OF_THREE: u32 = 0x800;

const LEAST_OF_FOUR: u32 = 0x10000;

#[tactic(auto, unfolding(crate::specs::Utf8::is_letter))]
fn is_letter(number: u32) -> bool
    ensures { result ≡ is_letter number }
{
    (number <= LAST_LETTER) & !((FIRST_SURROGATE <= number) & (number <= LAST_SURROGATE))
}

// A byte behind the first: 80, and six bits.
fn behind(bits: u32) -> u8
    ensures { result ≡ behind bits }
{
    0x80 + (bits % 64) as u8
}

// The form of a letter, in one to four bytes; none for a number that is no letter, a surrogate or one past 10FFFF. One byte is asked for first, since most have one.
#[tactic(auto, using(crate::proofs::Writing::at_most_last), unfolding(crate::specs::Utf8::utf8, crate::specs::Utf8::form_of, crate::specs::Utf8::is_letter, crate::specs::Utf8::is_surrogate, texts::specs::Held::held))]
pub fn utf8_of(letter: u32) -> Text<MOST_BYTES>
    ensures { result ≡ form_held (utf8 letter) }
{
    if letter < LEAST_OF_TWO {
        let bytes = [letter as u8, 0, 0, 0];
        return Text { bytes, used: 1 };
    }
    if !is_letter(letter) {
        let bytes = [0; MOST_BYTES];
        return Text { bytes, used: 0 };
    }
    if letter < LEAST_OF_THREE {
        let bytes = [0xC0 + (letter / 64) as u8, behind(letter), 0, 0];
        return Text { bytes, used: 2 };
    }
    if letter < LEAST_OF_FOUR {
        let first = 0xE0 + (letter / 4096) as u8;
        let bytes = [first, behind(letter / 64), behind(letter), 0];
        return Text { bytes, used: 3 };
    }
    let first = 0xF0 + (letter / 262144) as u8;
    let bytes = [
        first,
        behind(letter / 4096),
        behind(letter / 64),
        behind(letter),
    ];
    Text { bytes, used: 4 }
}
