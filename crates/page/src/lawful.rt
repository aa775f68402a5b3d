// What 24, 22 and 23 ask of a page, each part to be asked alone.
ghost use Rattle.std.specs.Prelude.{◌≡◌, cond, not, ◌≤◌, ltb, length, take};
ghost use Rattle.laws.specs.Every.{every};
ghost use Rattle.grid.specs.Grid.{cell_count};
ghost use Rattle.packet.specs.Texts.{header_column};
ghost use Rattle.page.specs.Lawful.{cells_checked, cells_paper, digits_lawful, header_fits, is_never};
ghost use Rattle.page.specs.Records.{cells_of};

use crate::{CellsError, FRESH, NEVER, SPACE};
use grid::CELLS;
use packet::{HEADER_COLUMN, Header};

// The highest lawful mark.
const HIGHEST_MARK: u8 = FRESH;

// The largest character and the largest mark that fit their bits.
const LARGEST_CHARACTER: u8 = 127;

const LARGEST_MARK: u8 = 3;

// Whether no part of a header is too large for its bits.
pub fn header_fits(header: Header) -> bool
    ensures { result ≡ header_fits header }
{
    (header.tens < 16)
        & (header.units < 16)
        & (header.hours_tens < 4)
        & (header.hours_units < 16)
        & (header.minutes_tens < 8)
        & (header.minutes_units < 16)
        & (header.control < 2048)
}

// Whether the page digits are 0 to 9.
pub(crate) fn digits_lawful(header: Header) -> bool
    ensures { result ≡ digits_lawful header }
{
    (header.tens <= 9) & (header.units <= 9)
}

// Whether row 0 has a mark in its columns 0 to 7.
fn header_columns_marked(marks: &[u8]) -> bool
    requires { header_column ≤ length marks.now }
    ensures { result ≡ not (every is_never (take header_column marks.now)) }
{
    marks[..HEADER_COLUMN].iter().any(|mark| *mark != NEVER)
}

// Whether cells are lawful: whether all fit their bits is asked before whether all are lawful. The cells are lent in two arrays, as a caller has them that holds
// them apart. The check has no branch for a cell, so that many are asked at once. The bits that any character has and the highest mark are gathered, and whether
// one is too large, or above the lawful marks, is asked of these at the end.
pub fn check_cells(characters: &[u8; CELLS], marks: &[u8; CELLS]) -> Result<(), CellsError>
    ensures { cells_paper result ≡ cells_paper (cells_checked (cells_of characters.now marks.now)) }
{
    let mut character_bits: u8 = 0;
    let mut highest: u8 = 0;
    let mut unlawful = header_columns_marked(marks);
    for at in 0..CELLS {
        let character = characters[at];
        let mark = marks[at];
        character_bits |= character;
        highest = highest.max(mark);
        unlawful |= (mark == NEVER) & (character != SPACE);
    }
    if (character_bits > LARGEST_CHARACTER) | (highest > LARGEST_MARK) {
        return Err(CellsError::TooLarge);
    }
    if unlawful | (highest > HIGHEST_MARK) {
        return Err(CellsError::Unlawful);
    }
    Ok(())
}
