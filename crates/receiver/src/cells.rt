// The cells of a page, altered where they lie: a row stored, all cleared, all aged.
ghost use Rattle.std.specs.Prelude.{map, ◌≡◌, ◌≤◌};
ghost use Rattle.grid.specs.Grid.{last_row};
ghost use Rattle.coding.specs.Heard.{heard};
ghost use Rattle.page.specs.Lawful.{highest_mark};
ghost use Rattle.receiver.specs.Cells.{age, first_column, how_many, kept_character, kept_mark, row_found, stored};
ghost use Rattle.receiver.specs.Effects.{clears, opening_cells};
ghost use Rattle.receiver.specs.Private.{LowMarks, one};

use grid::{CELLS, COLUMNS};
use packet::{C4_WEIGHT, Header};
use page::{Cells, FRESH, NEVER, OLDER, SPACE};

// Spaces marked never.
pub(crate) const BLANK: Cells = Cells {
    characters: [SPACE; CELLS],
    marks: [NEVER; CELLS],
};

#[tactic(auto, unfolding(crate::specs::Cells::kept_character, coding::specs::Heard::heard))]
fn kept_character(found: Option<u8>, character: u8, mark: u8) -> u8
    ensures { result ≡ kept_character (heard found) character mark }
{
    found.unwrap_or(character)
}

#[tactic(auto, unfolding(crate::specs::Cells::kept_mark, coding::specs::Heard::heard))]
fn kept_mark(found: Option<u8>, mark: u8, character: u8) -> u8
    ensures { result ≡ kept_mark (heard found) mark character }
{
    if found.is_some() { FRESH } else { mark }
}

#[tactic(auto, unfolding(crate::specs::Private::one, coding::specs::Heard::heard))]
fn written(found: Option<u8>) -> u8
    ensures { result ≡ one (heard found) }
{
    found.is_some() as u8
}

#[tactic(auto, unfolding(crate::specs::Cells::first_column))]
pub(crate) fn first_column(row: u8) -> usize
    ensures { result ≡ first_column row }
{
    if row == 0 { packet::HEADER_COLUMN } else { 0 }
}

// Lays the characters of a row, from its first column on, over its cells; how many characters were written.
pub(crate) fn store_row(row: u8, bytes: [u8; COLUMNS], cells: &mut Cells) -> u8
    requires { row ≤ last_row }
    ensures { (result ≡ how_many (row_found row bytes)) × (cells.new ≡ stored row bytes cells.old) }
{
    let place = (row as usize) * COLUMNS;
    let mut written_so_far: u8 = 0;
    for column in first_column(row)..COLUMNS {
        let found = coding::character_of(bytes[column]);
        let cell = place + column;
        let character = cells.characters[cell];
        let mark = cells.marks[cell];
        cells.characters[cell] = kept_character(found, character, mark);
        cells.marks[cell] = kept_mark(found, mark, character);
        written_so_far += written(found);
    }
    written_so_far
}

// The lesser of two, which is cheaper to do to many marks at once than a choice.
#[tactic(auto, unfolding(crate::specs::Cells::age))]
fn aged_mark(mark: u8) -> u8
    requires { mark ≤ highest_mark }
    ensures { result ≡ age mark }
{
    if mark > OLDER { OLDER } else { mark }
}

// Fresh becomes older, over all marks in one pass.
fn age_marks(marks: &mut [u8; CELLS])
    requires { LowMarks marks.old }
    ensures { marks.new ≡ map age marks.old }
{
    for mark in marks.iter_mut() {
        *mark = aged_mark(*mark);
    }
}

#[tactic(auto, unfolding(crate::specs::Effects::clears))]
fn clears_page(header: Header) -> bool
    ensures { result ≡ clears header }
{
    header.control / C4_WEIGHT % 2 == 1
}

// The cells of a page that opens: cleared where its C4 is set, aged where not.
#[tactic(auto, unfolding(crate::specs::Effects::opening_cells, crate::specs::Cells::blank, crate::specs::Cells::aged))]
pub(crate) fn open_cells(header: Header, cells: &mut Cells)
    requires { LowMarks cells.old.marks }
    ensures { cells.new ≡ opening_cells cells.old header }
{
    if clears_page(header) {
        *cells = BLANK;
        return;
    }
    age_marks(&mut cells.marks);
}
