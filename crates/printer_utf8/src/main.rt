// The page printer in UTF-8: prints the page of the record on standard input as 25 lines of 40 letters, or why the record is refused; and says on standard error where
// English stands in. What is printed is what `output` says of the record, and what is said of its letters is `complaint`.
#![tactic(auto)]

ghost use Rattle.std.specs.Prelude.{cond, [], ◌≡◌, length};
ghost use Rattle.std.proofs.Math.Option.{some};
ghost use Rattle.page.specs.Reading.{page_read};
ghost use Rattle.printer_utf8.specs.Output.{complaint, english_line, number_of, output, written};

use letters::STAND_IN;
use page::{Page, RECORD_LENGTH};

// One byte more than a record has, by which a longer one is known.
const LIMIT: usize = RECORD_LENGTH + 1;

const ENGLISH_LINE: usize = STAND_IN + 1;

// Prints a text, and answers how many bytes that are. The record is there for the promise alone: that the text is all that is to be printed for it.
fn print(rt: &(impl Print + Eprint), text: &[u8], record: &[u8]) -> usize
    requires { text.now ≡ output «record».now }
    ensures { result ≡ length text.now }
{
    let _ = console::say(rt, text);
    text.len()
}

// Says which value has no set, and answers how many bytes that are. The record is there for the promise alone.
fn complain(rt: &impl Eprint, text: &[u8], record: &[u8]) -> usize
    requires { text.now ≡ complaint «record».now }
    ensures { result ≡ length text.now }
{
    console::complain(rt, text);
    text.len()
}

fn english_line(control: u16) -> [u8; ENGLISH_LINE]
    ensures { result ≡ english_line control }
{
    let words = letters::stand_in_text(control);
    let mut line = [b'\n'; ENGLISH_LINE];
    texts::put(&mut line, 0, &words);
    line
}

// Says where English stands in, and answers how many bytes that are.
fn say_letters(rt: &impl Eprint, english: bool, control: u16, record: &[u8]) -> usize
    requires { cond english (english_line control) [] ≡ complaint «record».now }
    ensures { result ≡ length (cond english (english_line control) []) }
{
    if english {
        return complain(rt, &english_line(control), record);
    }
    0
}

// What is said of the letters goes first, so that it is known before the page is read. Answers how many bytes both are.
fn print_page(rt: &(impl Print + Eprint), page: &Page, record: &[u8]) -> usize
    requires { (page.now ≡ page_read «record».now) × (number_of «record».now ≡ some 0) }
    ensures { result ≡ written «record».now }
{
    let control = page.header.control;
    let printed = printing::utf8_page(&page.cells.characters, control).unwrap();
    let said = say_letters(rt, printed.english, control, record);
    said + print(rt, printed.text.as_bytes(), record)
}

// Writes all that is to be written for a record, and answers how many bytes that are.
fn print_record(rt: &(impl Print + Eprint), record: &[u8]) -> usize
    ensures { result ≡ written «record».now }
{
    match &page::read_record(record) {
        Ok(page) => print_page(rt, page, record),
        Err(error) => print(rt, &texts::refused_text(error.number()), record),
    }
}

fn main(rt: HostRuntime) {
    let mut input = [0u8; LIMIT];
    let count = console::read_all(&rt, &mut input);
    print_record(&rt, &input[..count]);
}
