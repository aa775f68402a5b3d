// Sort g: what the cells of a page show.
use display::{Cell, Height, NotAPage, Symbol};
use grid::CELLS;

// The number of a page that is refused.
pub(crate) const REFUSED: u8 = 25;

// How many bytes a cell has.
const CELL: usize = 8;

// A symbol's kind and its value.
fn symbol_bytes(symbol: Symbol) -> [u8; 2] {
    match symbol {
        Symbol::Letter(code) => [b'L', code],
        Symbol::Mosaic { pattern, separated } => [if separated { b'S' } else { b'C' }, pattern],
    }
}

fn height_number(height: Height) -> u8 {
    match height {
        Height::Normal => 0,
        Height::Upper => 1,
        Height::Lower => 2,
    }
}

fn put_cell(rt: &(impl Print + Eprint), cell: Cell) {
    let [kind, value] = symbol_bytes(cell.symbol);
    let bytes: [u8; CELL] = [
        kind,
        value,
        cell.foreground,
        cell.background,
        cell.flash as u8,
        cell.conceal as u8,
        cell.boxed as u8,
        height_number(cell.height),
    ];
    cases::put(rt, &bytes);
}

fn put_cells(rt: &(impl Print + Eprint), number: u8, cells: [Cell; CELLS]) {
    cases::put_byte(rt, number);
    for cell in cells {
        put_cell(rt, cell);
    }
}

// Zeros stand for the cells of a page that is refused.
pub(crate) fn answer_page(rt: &(impl Print + Eprint), codes: &[u8]) {
    match display::page_of(codes) {
        Ok(cells) => put_cells(rt, 0, cells),
        Err(NotAPage) => put_cells(rt, REFUSED, display::zero_cells()),
    }
}
