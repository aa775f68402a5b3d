// The rows of a page, from the top: which of them are doubled, and what is shown under a doubled one.
ghost use Rattle.std.specs.Prelude.{◌≡◌, ◌+◌, ◌≤◌, length};
ghost use Rattle.grid.specs.Grid.{columns};
ghost use Rattle.display.specs.Pages.{has_double, is_double, lower_half, may_double, read_as, space_under, under};
ghost use Rattle.display.specs.Private.{doubles, first_row, next_row};

use crate::{Cell, Height, Symbol};
use grid::COLUMNS;

const DOUBLE: u8 = 0x0D;

// The rows on which 0D counts.
const FIRST_DOUBLE: usize = 1;

const LAST_DOUBLE: usize = 22;

// A row of the page: the place behind its last cell, whether it lies below a doubled one, and whether 0D counts on it.
#[derive(Clone, Copy)]
pub struct PageRow {
    pub end: usize,
    pub below: bool,
    pub counts: bool,
}

#[tactic(auto, unfolding(crate::specs::Pages::may_double))]
fn may_double(row: usize) -> bool
    ensures { result ≡ may_double row }
{
    (FIRST_DOUBLE <= row) & (row <= LAST_DOUBLE)
}

// Whether one of some codes is 0D. Every code is asked, with no branch.
#[tactic(auto, unfolding(crate::specs::Pages::has_double))]
fn has_double(codes: &[u8]) -> bool
    ensures { result ≡ has_double codes.now }
{
    let mut found = false;
    for code in codes {
        found = found | (*code == DOUBLE);
    }
    found
}

// A code, or 00 in the place of a 0D that does not count.
#[tactic(auto, unfolding(crate::specs::Pages::read_as))]
pub(crate) fn read_as(counts: bool, code: u8) -> u8
    ensures { result ≡ read_as counts code }
{
    if !counts & (code == DOUBLE) {
        0x00
    } else {
        code
    }
}

#[tactic(auto, unfolding(crate::specs::Pages::is_double))]
fn is_double(height: Height) -> bool
    ensures { result ≡ is_double height }
{
    height != Height::Normal
}

// The lower half of a double cell.
#[tactic(auto, unfolding(crate::specs::Pages::lower_half))]
fn lower_half(cell: Cell) -> Cell
    ensures { result ≡ lower_half cell }
{
    Cell {
        height: Height::Lower,
        ..cell
    }
}

// A space under a cell that is not double.
#[tactic(auto, unfolding(crate::specs::Pages::space_under))]
fn space_under(above: Cell) -> Cell
    ensures { result ≡ space_under above }
{
    Cell {
        symbol: Symbol::Letter(0x20),
        height: Height::Normal,
        ..above
    }
}

// What is shown under a cell of a doubled row.
#[tactic(auto, unfolding(crate::specs::Pages::under))]
pub(crate) fn under(cell: Cell) -> Cell
    ensures { result ≡ under cell }
{
    if is_double(cell.height) {
        lower_half(cell)
    } else {
        space_under(cell)
    }
}

impl PageRow {
    pub(crate) fn first() -> PageRow
        ensures { result ≡ first_row }
    {
        PageRow {
            end: COLUMNS,
            below: false,
            counts: false,
        }
    }

    // Whether the row is doubled. One that lies below a doubled one is not asked for 0D itself.
    fn doubles(self, codes: &[u8]) -> bool
        requires { (columns ≤ self.end) × (self.end ≤ length codes.now) }
        ensures { result ≡ doubles self codes.now }
    {
        if self.below | !self.counts {
            return false;
        }
        has_double(&codes[self.end - COLUMNS..self.end])
    }

    pub(crate) fn next(self, codes: &[u8]) -> PageRow
        requires { (columns ≤ self.end) × (self.end ≤ length codes.now) }
        ensures { result ≡ next_row self codes.now }
    {
        PageRow {
            end: self.end + COLUMNS,
            below: self.doubles(codes),
            counts: may_double(self.end / COLUMNS),
        }
    }
}
