// The grid of a page. Rows and columns are said here and nowhere else: every other number of a page or of its record comes from them.
#![tactic(auto)]

pub const ROWS: usize = 25;

pub const COLUMNS: usize = 40;

pub const CELLS: usize = ROWS * COLUMNS;

// The last row that carries characters, counted from 0.
pub const LAST_ROW: u8 = (ROWS - 1) as u8;
