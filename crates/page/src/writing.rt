// A page written as its record.
ghost use Rattle.std.specs.Prelude.{◌≡◌, ◌≤◌, length};
ghost use Rattle.grid.specs.Grid.{cell_count, rows};
ghost use Rattle.page.specs.Private.{cells_stored, head_bytes, parts_answer};
ghost use Rattle.page.specs.Records.{cells_of, page_of, record_length, row_code};
ghost use Rattle.page.specs.Writing.{write_answer, write_paper, written};

use crate::{CellsError, HEAD_LENGTH, Page, RECORD_LENGTH, ROW_CODE, WriteError, lawful, parts};
use grid::CELLS;
use packet::Header;
use packing::{GROUP_BYTES, GROUP_CELLS};

// The bytes before the cells.
fn head_bytes(magazine: u8, header: Header, clean: bool) -> [u8; HEAD_LENGTH]
    ensures { result ≡ head_bytes magazine header clean (row_code rows) }
{
    [
        magazine % 8 * 32 + header.tens % 16 * 2 + header.units / 8 % 2,
        header.units % 8 * 32 + header.hours_tens % 4 * 8 + header.hours_units / 2 % 8,
        header.hours_units % 2 * 128 + header.minutes_tens % 8 * 16 + header.minutes_units % 16,
        (header.control / 8 % 256) as u8,
        (header.control % 8) as u8 * 32 + clean as u8 * 16 + ROW_CODE,
    ]
}

// The cells' bytes stored after those, eight cells at a time.
fn store_cells(characters: &[u8], marks: &[u8], record: &mut [u8])
    requires { (length characters.now ≡ cell_count) × (length marks.now ≡ cell_count) × (record_length ≤ length «record».old) }
    ensures { «record».new ≡ cells_stored marks.now characters.now «record».old }
{
    for group in 0..CELLS / GROUP_CELLS {
        let some_marks = parts::eight_at(marks, group * GROUP_CELLS);
        let some_characters = parts::eight_at(characters, group * GROUP_CELLS);
        let nine = packing::packed(some_marks, some_characters);
        let place = HEAD_LENGTH + group * GROUP_BYTES;
        record[place..place + GROUP_CELLS].copy_from_slice(&nine.first);
        record[place + GROUP_CELLS] = nine.last;
    }
}

// What a page that is to be written gives, whatever is lent for it: 24, then 22, then 23.
fn page_answer(
    magazine: u8,
    header: Header,
    characters: &[u8; CELLS],
    marks: &[u8; CELLS],
) -> Result<(), WriteError>
    ensures { result ≡ parts_answer magazine header (cells_of characters.now marks.now) }
{
    let fits = (magazine >= 1) & (magazine <= 8) & lawful::header_fits(header);
    if !fits {
        return Err(WriteError::TooLarge);
    }
    let checked = lawful::check_cells(characters, marks);
    if checked == Err(CellsError::TooLarge) {
        return Err(WriteError::TooLarge);
    }
    if !lawful::digits_lawful(header) {
        return Err(WriteError::BadDigit);
    }
    checked.map_err(|_| WriteError::UnlawfulCells)
}

// The record of a page of these parts into the first `RECORD_LENGTH` bytes of what is lent, or nothing where it is refused. The cells are lent, so that a caller
// who has them in two arrays writes them without a copy.
pub fn write_parts(
    magazine: u8,
    header: Header,
    clean: bool,
    characters: &[u8; CELLS],
    marks: &[u8; CELLS],
    record: &mut [u8],
) -> Result<(), WriteError>
    ensures result_value { write_paper result ≡ write_paper (write_answer (page_of magazine header clean (cells_of characters.now marks.now)) «record».old) }
    ensures record_after { «record».new ≡ written (page_of magazine header clean (cells_of characters.now marks.now)) «record».old }
{
    if record.len() < RECORD_LENGTH {
        return Err(WriteError::ShortRecord);
    }
    page_answer(magazine, header, characters, marks)?;
    record[..HEAD_LENGTH].copy_from_slice(&head_bytes(magazine, header, clean));
    store_cells(characters, marks, record);
    Ok(())
}

// A page's record into the first `RECORD_LENGTH` bytes of what is lent, or nothing where it is refused.
pub fn write_record(page: Page, record: &mut [u8]) -> Result<(), WriteError>
    ensures result_value { write_paper result ≡ write_paper (write_answer page «record».old) }
    ensures record_after { «record».new ≡ written page «record».old }
{
    write_parts(
        page.magazine,
        page.header,
        page.clean,
        &page.cells.characters,
        &page.cells.marks,
        record,
    )
}
