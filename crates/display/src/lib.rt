// Display cells: what each of a page's cells shows, worked out from the page's codes.
#![tactic(auto)]

mod doubling;
mod state;

ghost use Rattle.std.specs.Prelude.{◌≡◌, true};
ghost use Rattle.display.specs.Pages.{displayed, displayed_paper, is_page, page_cells, zero_cells};

use doubling::PageRow;
use grid::{CELLS, COLUMNS, ROWS};
use state::RowState;

// The highest code.
pub const LAST_CODE: u8 = 0x7F;

// The first code that is no control code.
const FIRST_PRINTED: u8 = 0x20;

// What a cell shows: a letter with its code, or a mosaic with six bits, its cells contiguous or separated.
#[derive(Clone, Copy)]
pub enum Symbol {
    Letter(u8),
    Mosaic { pattern: u8, separated: bool },
}

// Whether a cell is of normal size, or the upper or the lower half of a double one.
#[derive(Clone, Copy, PartialEq, Eq)]
pub enum Height {
    Normal,
    Upper,
    Lower,
}

// A symbol with its colours, 0 black to 7 white, and how it is shown.
#[derive(Clone, Copy)]
pub struct Cell {
    pub symbol: Symbol,
    pub foreground: u8,
    pub background: u8,
    pub flash: bool,
    pub conceal: bool,
    pub boxed: bool,
    pub height: Height,
}

// Why a page is refused, by 25: its codes are no page's, as many as its cells, of 00 to 7F.
#[derive(Clone, Copy, PartialEq, Eq)]
pub struct NotAPage;

// Whether these are a page's codes, of 00 to 7F. Every code is asked, with no branch, which is cheaper than to stop at the first that is none.
#[tactic(auto, unfolding(crate::specs::Pages::is_page))]
fn is_page(codes: &[u8]) -> bool
    ensures { result ≡ is_page codes.now }
{
    if codes.len() != CELLS {
        return false;
    }
    let mut high = false;
    for code in codes {
        high = high | (*code > LAST_CODE);
    }
    !high
}

// The cells that stand beside a refusal, all zeros.
#[tactic(auto, unfolding(crate::specs::Pages::zero_cells))]
pub fn zero_cells() -> [Cell; CELLS]
    ensures { result ≡ zero_cells }
{
    let zero = Cell {
        symbol: Symbol::Letter(0x00),
        foreground: 0,
        background: 0,
        flash: false,
        conceal: false,
        boxed: false,
        height: Height::Normal,
    };
    [zero; CELLS]
}

// The cells of a page, one step for each, with no copy for a row. A row below a doubled one is made from the cells above it.
// In any other row printed codes, up to the next control code, have a loop of their own: of the state they change what is held and the code before, and the rest
// stands still in it. Control codes and printed codes each store their own cell, so that little is moved where the branches meet.
fn fill(cells: &mut [Cell; CELLS], codes: &[u8])
    requires { is_page codes.now ≡ true }
    ensures { cells.new ≡ page_cells codes.now }
{
    let mut row = PageRow::first();
    for _ in 0..ROWS {
        if row.below {
            for place in row.end - COLUMNS..row.end {
                cells[place] = doubling::under(cells[place - COLUMNS]);
            }
        } else {
            let mut state = RowState::start();
            let mut place = row.end - COLUMNS;
            'cells: while place < row.end {
                'printed: while place < row.end && codes[place] >= FIRST_PRINTED {
                    let step = state.printed(codes[place]);
                    cells[place] = step.cell;
                    state = state.passed(step.next.held, codes[place]);
                    place += 1;
                }
                if place < row.end {
                    let read = doubling::read_as(row.counts, codes[place]);
                    let own = state.own(read);
                    cells[place] = own.cell(own.shown_control());
                    state = own.after(read);
                    place += 1;
                }
            }
        }
        row = row.next(codes);
    }
}

// The cells of a page, in the order of its rows. They are filled in the answer, where they lie: put into it afterwards, they would be copied.
#[tactic(auto, using(crate::proofs::Pages::shown_page, crate::proofs::Pages::refused_page), unfolding(crate::specs::Pages::displayed_paper))]
pub fn page_of(codes: &[u8]) -> Result<[Cell; CELLS], NotAPage>
    ensures { displayed_paper result ≡ displayed codes.now }
{
    if !is_page(codes) {
        return Err(NotAPage);
    }
    let mut page = Ok(zero_cells());
    if let Ok(cells) = &mut page {
        fill(cells, codes);
    }
    page
}
