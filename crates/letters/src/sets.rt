// Which set a page's control bits choose, and the letter of a code in it.
ghost use Rattle.std.specs.Prelude.{◌≡◌};
ghost use Rattle.letters.specs.Private.{row_of};
ghost use Rattle.letters.specs.Said.{stand_in_text};
ghost use Rattle.letters.specs.Sets.{letter_in, letter_of, national_codes, option_of, position_among, set_for, stands_in};

use crate::POSITIONS;
use crate::table::{LETTERS, SETS};

// The set that stands in for a value which has none.
const ENGLISH: usize = 0;

// The words that say so, and behind them the value's digit.
const STAND_IN_WORDS: usize = 33;

pub const STAND_IN: usize = STAND_IN_WORDS + 1;

// The value of C12 to C14, 0 to 7, of a page's control bits, in which C14 has weight 1.
#[tactic(auto, unfolding(crate::specs::Sets::option_of, crate::specs::Sets::c12, crate::specs::Sets::c13, crate::specs::Sets::c14))]
pub fn option_of(control: u16) -> u8
    ensures { result ≡ option_of control }
{
    let c12 = control / 4 % 2;
    let c13 = control / 2 % 2;
    let c14 = control % 2;
    (4 * c12 + 2 * c13 + c14) as u8
}

// Whether that value has no set, so that English stands in.
#[tactic(auto, unfolding(crate::specs::Sets::stands_in, crate::specs::Sets::sets))]
pub fn stands_in(control: u16) -> bool
    ensures { result ≡ stands_in control }
{
    option_of(control) as usize >= SETS
}

// The positions of 5B and 7B. With each a run of codes begins.
const POSITION_OF_5B: usize = 3;

const POSITION_OF_7B: usize = 9;

// The position of a code among the thirteen, 0 to 12; 13 for any other code. No Option: that number is promised (`position_among`), and whoever looks there finds nothing.
#[tactic(auto, unfolding(crate::specs::Sets::position_among, crate::specs::Sets::national_codes))]
pub fn position_of(code: u8) -> usize
    ensures { result ≡ position_among national_codes code }
{
    match code {
        0x23 => 0,
        0x24 => 1,
        0x40 => 2,
        0x5B..=0x60 => POSITION_OF_5B + (code - 0x5B) as usize,
        0x7B..=0x7E => POSITION_OF_7B + (code - 0x7B) as usize,
        _ => POSITIONS,
    }
}

// The set of a page's control bits: English, where their value has none.
#[tactic(auto, unfolding(crate::specs::Sets::set_for, crate::specs::Sets::sets))]
fn set_at(control: u16) -> &'static [u32; POSITIONS]
    ensures { result.now ≡ set_for (option_of control) }
{
    LETTERS
        .get(option_of(control) as usize)
        .unwrap_or(&LETTERS[ENGLISH])
}

// The row of the table for some control bits.
#[tactic(auto, unfolding(crate::specs::Private::row_of))]
fn row_of(control: u16) -> usize
    ensures { result ≡ row_of control }
{
    if stands_in(control) {
        ENGLISH
    } else {
        option_of(control) as usize
    }
}

// The letter of a code under a page's control bits: a code outside the thirteen is its own letter.
pub fn letter_of(control: u16, code: u8) -> u32
    ensures { result ≡ letter_of control code }
{
    let position = position_of(code);
    if position == POSITIONS {
        return code as u32;
    }
    let row = row_of(control);
    LETTERS[row][position]
}

// The letter of a code in a set that is lent, for whoever asks for many: `set_of` looks into the table once.
#[tactic(auto, unfolding(crate::specs::Sets::letter_in))]
pub fn letter_in(set: &[u32], code: u8) -> u32
    ensures { result ≡ letter_in set.now code }
{
    set.get(position_of(code)).copied().unwrap_or(code as u32)
}

// The set of some control bits.
pub fn set_of(control: u16) -> [u32; POSITIONS]
    ensures { result ≡ set_for (option_of control) }
{
    *set_at(control)
}

// "English stands in for letter set " and the value.
#[tactic(auto, using(crate::proofs::National::option_small), unfolding(crate::specs::Said::stand_in_text))]
pub fn stand_in_text(control: u16) -> [u8; STAND_IN]
    ensures { result ≡ stand_in_text control }
{
    let mut text = *b"English stands in for letter set 0";
    text[STAND_IN_WORDS] = b'0' + option_of(control);
    text
}
