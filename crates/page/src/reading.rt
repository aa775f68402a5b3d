// A record read as its page.
ghost use Rattle.std.specs.Prelude.{◌≡◌, ◌*◌, ◌<◌, ◌≤◌, length, drop};
ghost use Rattle.laws.specs.Fields.{digits, fields_of};
ghost use Rattle.grid.specs.Grid.{columns, rows};
ghost use Rattle.packing.specs.Cells.{cell_fields};
ghost use Rattle.page.specs.Private.{head_from, headed_read};
ghost use Rattle.page.specs.Reading.{filled, page_given, page_read, read_answer, read_paper, rows_in};
ghost use Rattle.page.specs.Records.{cells_from, head_length, head_widths, magazine_from, record_length_of, row_code};

use crate::{
    Cells, HEAD_LENGTH, NEVER, OLD_CODE, OLD_LENGTH, OLD_ROWS, Page, ROW_CODE, ROW_LENGTH,
    ReadError, SPACE, ZERO_PAGE, lawful, parts,
};
use grid::{CELLS, COLUMNS, ROWS};
use packet::Header;
use packing::{GROUP_BYTES, GROUP_CELLS};

// Eight cells are nine bytes; so many such groups are a row.
const ROW_GROUPS: usize = COLUMNS / GROUP_CELLS;

// What a record's first five bytes hold, before its cells.
#[derive(Drop)]
struct Head {
    magazine: u8,
    header: Header,
    clean: bool,
    code: u8,
}

// The magazine of a record's first three bits: 0 is 8.
fn magazine_in(value: u64) -> u8
    requires { value < 8 }
    ensures { result ≡ magazine_from value }
{
    if value == 0 { 8 } else { value as u8 }
}

// What the bytes before the cells hold, of a record's first eight bytes as one word: each field is so many of its bits, with so many below them.
fn head_in(word: u64) -> Head
    ensures { result ≡ head_from (fields_of head_widths (digits 64 word)) }
{
    let magazine = magazine_in((word >> 61) % 8);
    let header = Header {
        tens: ((word >> 57) % 16) as u8,
        units: ((word >> 53) % 16) as u8,
        hours_tens: ((word >> 51) % 4) as u8,
        hours_units: ((word >> 47) % 16) as u8,
        minutes_tens: ((word >> 44) % 8) as u8,
        minutes_units: ((word >> 40) % 16) as u8,
        control: ((word >> 29) % 2048) as u16,
    };
    Head {
        magazine,
        header,
        clean: (word >> 28) % 2 == 1,
        code: ((word >> 24) % 16) as u8,
    }
}

// The cells of a record of so many rows, lawful or not, nine bytes at a time. Where the grid has more rows, nothing was received in them.
fn cells_in(record: &[u8], count: usize) -> Cells
    requires { (length «record».now ≡ record_length_of count) × (count ≤ rows) }
    ensures { result ≡ filled (cells_from (cell_fields (count * columns) (drop head_length «record».now))) }
{
    let mut characters = [SPACE; CELLS];
    let mut marks = [NEVER; CELLS];
    for group in 0..count * ROW_GROUPS {
        let place = HEAD_LENGTH + group * GROUP_BYTES;
        let eight = packing::unpacked(parts::eight_at(record, place), record[place + GROUP_CELLS]);
        let at = group * GROUP_CELLS;
        characters[at..at + GROUP_CELLS].copy_from_slice(&eight.characters);
        marks[at..at + GROUP_CELLS].copy_from_slice(&eight.marks);
    }
    Cells { characters, marks }
}

// The page of a head that passed and of the cells after it, or 23: the cells of a record are never too large for their bits.
fn with_cells(head: Head, record: &[u8], count: usize) -> Result<Page, ReadError>
    requires { (length «record».now ≡ record_length_of count) × (count ≤ rows) }
    ensures { result ≡ headed_read head (filled (cells_from (cell_fields (count * columns) (drop head_length «record».now)))) }
{
    let cells = cells_in(record, count);
    lawful::check_cells(&cells.characters, &cells.marks).map_err(|_| ReadError::UnlawfulCells)?;
    Ok(Page {
        magazine: head.magazine,
        header: head.header,
        clean: head.clean,
        cells,
    })
}

// The rows of the form that a record's length shows.
fn rows_in(record: &[u8]) -> usize
    ensures { result ≡ rows_in «record».now }
{
    if record.len() == OLD_LENGTH {
        OLD_ROWS
    } else {
        ROWS
    }
}

// The row code of a record of so many rows.
fn row_code(count: usize) -> u8
    ensures { result ≡ row_code count }
{
    if count == OLD_ROWS {
        OLD_CODE
    } else {
        ROW_CODE
    }
}

// The page of a record of either form, or why it is refused.
pub fn read_record(record: &[u8]) -> Result<Page, ReadError>
    ensures answer { read_paper result ≡ read_paper (read_answer «record».now) }
    ensures beside { page_given result ≡ page_read «record».now }
{
    let count = rows_in(record);
    if record.len() != HEAD_LENGTH + count * ROW_LENGTH {
        return Err(ReadError::WrongLength);
    }
    let head = head_in(packing::word_of(parts::eight_at(record, 0)));
    if head.code != row_code(count) {
        return Err(ReadError::WrongRowCode);
    }
    if !lawful::digits_lawful(head.header) {
        return Err(ReadError::BadDigit);
    }
    with_cells(head, record, count)
}

// The page that was read, or the zeros that stand beside a refusal.
pub fn page_or_zeros(read: Result<Page, ReadError>) -> Page
    ensures { result ≡ page_given read }
{
    read.unwrap_or(ZERO_PAGE)
}
