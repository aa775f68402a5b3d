// National letters: the letter of a code under a page's control bits, and the UTF-8 form of a letter.
#![tactic(auto)]

mod forms;
mod sets;
mod table;

pub use forms::utf8_of;
pub use sets::{
    STAND_IN, letter_in, letter_of, option_of, position_of, set_of, stand_in_text, stands_in,
};
pub use table::POSITIONS;

// No form has more bytes.
pub const MOST_BYTES: usize = 4;

// No letter of a set has more.
pub const MOST_OF_LETTERS: usize = 3;
