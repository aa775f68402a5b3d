// Receivers and pages, between bytes and the library's types.
use cases::HEADER_LENGTH;
use grid::CELLS;
use packet::Header;
use page::{Cells, Page};
use receiver::{Receiver, Selection, When};
use std::array;

// Where the parts of a receiver start, and its length. A page has the same form: its magazine is in the selection, and whether it is clean stands where a
// receiver has whether a page is open.
const OPEN: usize = 8;

const DOUBT: usize = 9;

const HEADER: usize = 10;

const CHARACTERS: usize = 18;

const MARKS: usize = CHARACTERS + CELLS;

pub(crate) const RECEIVER_LENGTH: usize = MARKS + CELLS;

// How many bytes the flags have.
const FLAGS: usize = HEADER - OPEN;

// The characters of all cells, or their marks.
fn all_cells(bytes: &[u8]) -> [u8; CELLS] {
    array::from_fn(|at| cases::byte_at(bytes, at))
}

fn cells_of(form: &[u8]) -> Cells {
    Cells {
        characters: all_cells(cases::rest(form, CHARACTERS)),
        marks: all_cells(cases::rest(form, MARKS)),
    }
}

fn when_of(form: &[u8]) -> When {
    if cases::byte_at(form, 3) == 1 {
        return When::Time {
            hours_tens: cases::byte_at(form, 4),
            hours_units: cases::byte_at(form, 5),
            minutes_tens: cases::byte_at(form, 6),
            minutes_units: cases::byte_at(form, 7),
        };
    }
    When::Any
}

pub(crate) fn selection_of(form: &[u8]) -> Selection {
    Selection {
        magazine: cases::byte_at(form, 0),
        tens: cases::byte_at(form, 1),
        units: cases::byte_at(form, 2),
        when: when_of(form),
    }
}

pub(crate) fn receiver_of(form: &[u8]) -> Receiver {
    Receiver {
        selection: selection_of(form),
        open: cases::byte_at(form, OPEN) == 1,
        doubt: cases::byte_at(form, DOUBT) == 1,
        header: cases::header_of(cases::rest(form, HEADER)),
        cells: cells_of(form),
    }
}

pub(crate) fn page_of(form: &[u8]) -> Page {
    Page {
        magazine: cases::byte_at(form, 0),
        header: cases::header_of(cases::rest(form, HEADER)),
        clean: cases::byte_at(form, OPEN) == 1,
        cells: cells_of(form),
    }
}

fn put_selection(rt: &(impl Print + Eprint), selection: Selection) {
    cases::put(rt, &[selection.magazine, selection.tens, selection.units]);
    cases::put(rt, &when_bytes(selection.when));
}

fn when_bytes(when: When) -> [u8; 5] {
    match when {
        When::Any => [0; 5],
        When::Time {
            hours_tens,
            hours_units,
            minutes_tens,
            minutes_units,
        } => [1, hours_tens, hours_units, minutes_tens, minutes_units],
    }
}

// The flags, and the header, in one write.
fn put_header(rt: &(impl Print + Eprint), first: bool, second: bool, header: Header) {
    let mut bytes = [0; FLAGS + HEADER_LENGTH];
    bytes[0] = first as u8;
    bytes[1] = second as u8;
    bytes[FLAGS..].copy_from_slice(&cases::header_bytes(header));
    cases::put(rt, &bytes);
}

fn put_cells(rt: &(impl Print + Eprint), cells: &Cells) {
    cases::put(rt, &cells.characters);
    cases::put(rt, &cells.marks);
}

pub(crate) fn put_receiver(rt: &(impl Print + Eprint), receiver: &Receiver) {
    put_selection(rt, receiver.selection);
    put_header(rt, receiver.open, receiver.doubt, receiver.header);
    put_cells(rt, &receiver.cells);
}

pub(crate) fn put_page(rt: &(impl Print + Eprint), page: &Page) {
    cases::put(rt, &[page.magazine, 0, 0, 0, 0, 0, 0, 0]);
    put_header(rt, page.clean, false, page.header);
    put_cells(rt, &page.cells);
}
