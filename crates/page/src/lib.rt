// The page record: a page packed into the bytes of its form, and read back. The old form, of records from before row 24 was shown, is only read.
#![tactic(auto)]

ghost use Rattle.std.specs.Prelude.{◌≡◌};
ghost use Rattle.page.specs.Reading.{read_number};
ghost use Rattle.page.specs.Writing.{write_number};

mod lawful;
mod parts;
mod reading;
mod writing;

use grid::{CELLS, ROWS};
pub use lawful::{check_cells, header_fits};
use packet::{Header, ZERO_HEADER};
pub use reading::{page_or_zeros, read_record};
pub use writing::{write_parts, write_record};

// Bytes of a record: those before its cells, and those of its rows.
pub(crate) const HEAD_LENGTH: usize = 5;

pub(crate) const ROW_LENGTH: usize = 45;

pub const RECORD_LENGTH: usize = HEAD_LENGTH + ROWS * ROW_LENGTH;

// The old form had so many rows.
pub(crate) const OLD_ROWS: usize = 24;

pub(crate) const OLD_LENGTH: usize = HEAD_LENGTH + OLD_ROWS * ROW_LENGTH;

// The row codes: the old form's, and that of the form that is written.
pub(crate) const OLD_CODE: u8 = 0;

pub(crate) const ROW_CODE: u8 = 1;

// What a cell holds where nothing was received.
pub const SPACE: u8 = 32;

// Marks.
pub const NEVER: u8 = 0;

pub const OLDER: u8 = 1;

pub const FRESH: u8 = 2;

// The characters of a page, row by row, and their marks.
#[derive(Clone, Copy)]
pub struct Cells {
    pub characters: [u8; CELLS],
    pub marks: [u8; CELLS],
}

// The zero of cells.
pub const ZERO_CELLS: Cells = Cells {
    characters: [0u8; CELLS],
    marks: [0u8; CELLS],
};

// A page: magazine 1 to 8, its header, whether it was received without doubt, and its cells.
#[derive(Clone, Copy)]
pub struct Page {
    pub magazine: u8,
    pub header: Header,
    pub clean: bool,
    pub cells: Cells,
}

// The zero of pages, which stands beside a refusal.
pub const ZERO_PAGE: Page = Page {
    magazine: 0,
    header: ZERO_HEADER,
    clean: false,
    cells: ZERO_CELLS,
};

// Why cells are refused; document 01 calls a cell too large for its bits 24, and an unlawful one 23.
#[derive(Clone, Copy, PartialEq, Eq)]
pub enum CellsError {
    TooLarge,
    Unlawful,
}

// Why a page is not written.
#[derive(Clone, Copy, PartialEq, Eq)]
pub enum WriteError {
    ShortRecord = 12,
    TooLarge = 24,
    BadDigit = 22,
    UnlawfulCells = 23,
}

impl WriteError {
    // The number that document 01 gives the refusal.
    #[tactic(auto, unfolding(crate::specs::Writing::write_number))]
    pub fn number(self) -> u8
        ensures { result ≡ write_number self }
    {
        self as u8
    }
}

// Why a record is not read.
#[derive(Clone, Copy, PartialEq, Eq)]
pub enum ReadError {
    WrongLength = 20,
    WrongRowCode = 21,
    BadDigit = 22,
    UnlawfulCells = 23,
}

impl ReadError {
    // The number that document 01 gives the refusal.
    #[tactic(auto, unfolding(crate::specs::Reading::read_number))]
    pub fn number(self) -> u8
        ensures { result ≡ read_number self }
    {
        self as u8
    }
}
