// A page as text: a line of forty bytes for each row, one byte for each cell, each line with a line feed; and in UTF-8, with national letters.
#![tactic(auto)]

mod utf8;

ghost use Rattle.std.specs.Prelude.{IfOk, ◌≡◌, length};
ghost use Rattle.grid.specs.Grid.{rows};
ghost use Rattle.printing.specs.Pages.{bytes_beside, lines_text, page_paper, page_size, printed_page};
ghost use Rattle.printing.specs.Printed.{symbol_byte};

pub use display::NotAPage;
use display::{Cell, Symbol};
use grid::{CELLS, COLUMNS, ROWS};
use letters::MOST_OF_LETTERS;
use texts::Text;
pub use utf8::{utf8_or_zeros, utf8_page};

// A row's text with its line feed.
pub const LINE: usize = COLUMNS + 1;

pub const PAGE: usize = ROWS * LINE;

// The most that a page takes in UTF-8: for each byte of the text as many as a letter can have.
pub const UTF8_PAGE: usize = MOST_OF_LETTERS * PAGE;

// A page in UTF-8: whether English stands in, and the text.
#[derive(Clone, Copy)]
pub struct Utf8Page {
    pub english: bool,
    pub text: Text<UTF8_PAGE>,
}

#[tactic(auto, unfolding(crate::specs::Printed::symbol_byte))]
fn byte_of(symbol: Symbol) -> u8
    ensures { result ≡ symbol_byte symbol }
{
    match symbol {
        Symbol::Letter(0x7F) => b'?',
        Symbol::Letter(code) => code,
        Symbol::Mosaic { .. } => b'?',
    }
}

// The lines of a page's cells. The text starts as line feeds alone, so that each cell needs only its byte: before it stand the bytes of the earlier cells and a line
// feed for each row that has ended.
fn text_of(cells: &[Cell; CELLS]) -> [u8; PAGE]
    ensures { result ≡ lines_text rows cells.now }
{
    let mut text = [b'\n'; PAGE];
    for place in 0..CELLS {
        text[place + place / COLUMNS] = byte_of(cells[place].symbol);
    }
    text
}

// The text of a page's codes. The cells are read where they are: taken out of the answer they would be copied. The second promise is for callers, who lend the text on.
pub fn printed_page(codes: &[u8]) -> Result<[u8; PAGE], NotAPage>
    ensures result_value { page_paper result ≡ printed_page codes.now }
    ensures page_size_value { IfOk result (λ text. page_size ≡ length text) }
{
    match &display::page_of(codes) {
        Ok(cells) => Ok(text_of(cells)),
        Err(refusal) => Err(*refusal),
    }
}

// The text that was made, or the zeros that stand beside a refusal.
pub fn page_or_zeros(printed: Result<[u8; PAGE], NotAPage>) -> [u8; PAGE]
    ensures { result ≡ bytes_beside printed }
{
    printed.unwrap_or([0; PAGE])
}
