// Does one piece of work on fields, records, pages shown or pages sent so many times, for its instructions to be counted, as `cost` does of others (bench/count).
#![tactic(auto)]

use display::{Cell, Height, Symbol};
use grid::CELLS;
use page::{Page, RECORD_LENGTH, ZERO_PAGE};
use sending::{CHOICES, LONGEST};

// More searches than a field has units.
const SEARCHES: u8 = 100;

// The units of a field, one search after another until there is no more.
fn searched(field: &[u8]) -> u8 {
    let mut sum: u8 = 0;
    let mut place = 0;
    for _ in 0..SEARCHES {
        let Ok(Some(found)) = field::search(field, place) else {
            return sum;
        };
        sum ^= found.parity ^ found.offset ^ (found.packet % 256) as u8;
        place = found.after;
    }
    sum
}

// Work f.
fn fields_searched(field: &[u8], count: usize) -> u8 {
    let mut sum: u8 = 0;
    for turn in 0..count {
        sum ^= searched(field) ^ (turn % 256) as u8;
    }
    sum
}

fn pages_written(page: Page, count: usize) -> u8 {
    let mut record = [0u8; RECORD_LENGTH];
    let mut sum: u8 = 0;
    for turn in 0..count {
        let _ = page::write_record(page, &mut record);
        sum ^= record[turn % RECORD_LENGTH];
    }
    sum
}

// Work w: the page of a record is written.
fn page_written(record: &[u8], count: usize) -> u8 {
    pages_written(page::read_record(record).unwrap_or(ZERO_PAGE), count)
}

// Work d: a record is read.
fn pages_read(record: &[u8], count: usize) -> u8 {
    let mut sum: u8 = 0;
    for turn in 0..count {
        if let Ok(page) = page::read_record(record) {
            let at = turn % CELLS;
            sum ^= page.cells.characters[at] ^ page.cells.marks[at];
        }
    }
    sum
}

fn pages_sent(record: &[u8], wanted: [bool; CHOICES], count: usize) -> u8 {
    let mut room = [0u8; LONGEST];
    let mut sum: u8 = 0;
    for turn in 0..count {
        let lines = match sending::send_page(record, wanted, &mut room) {
            Ok(lines) => (lines % 256) as u8,
            Err(refusal) => refusal.number(),
        };
        sum ^= lines ^ room[turn % LONGEST];
    }
    sum
}

// Work t: the page of a record is sent: whether every row is wanted or none, and the record.
fn page_sent(input: &[u8], count: usize) -> u8 {
    let wanted = [cases::byte_at(input, 0) == 1; CHOICES];
    pages_sent(cases::rest(input, 1), wanted, count)
}

fn height_number(height: Height) -> u8 {
    match height {
        Height::Normal => 0,
        Height::Upper => 1,
        Height::Lower => 2,
    }
}

fn cell_sum(cell: Cell) -> u8 {
    let shown = match cell.symbol {
        Symbol::Letter(code) => code,
        Symbol::Mosaic { pattern, separated } => pattern ^ separated as u8,
    };
    shown
        ^ cell.foreground
        ^ cell.background
        ^ cell.flash as u8
        ^ cell.conceal as u8
        ^ cell.boxed as u8
        ^ height_number(cell.height)
}

// Work g: a page is shown.
fn pages_shown(codes: &[u8], count: usize) -> u8 {
    let mut sum: u8 = 0;
    for turn in 0..count {
        if let Ok(cells) = display::page_of(codes) {
            sum ^= cell_sum(cells[turn % CELLS]);
        }
    }
    sum
}

fn done(work: u8, input: &[u8], count: usize) -> u8 {
    match work {
        b'f' => fields_searched(input, count),
        b'w' => page_written(input, count),
        b'd' => pages_read(input, count),
        b't' => page_sent(input, count),
        _ => pages_shown(input, count),
    }
}

fn main(rt: HostRuntime) {
    let mut room = [0u8; cases::LONGEST];
    let (work, count, input) = cases::next_work(&rt, &mut room);
    cases::put_byte(&rt, done(work, input, count));
}
