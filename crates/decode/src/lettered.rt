// Sorts i, c and o: the UTF-8 form of a number, the letter of a code, and a page as UTF-8 text.
use crate::shown;
use grid::{COLUMNS, ROWS};
use letters::{MOST_BYTES, MOST_OF_LETTERS};
use std::array;
use texts::Text;

// No page's text is longer: in each row forty letters and a line feed. So the zeros past them in the page's room are not written.
const TEXT: usize = ROWS * (MOST_OF_LETTERS * COLUMNS + 1);

// Where the codes start, behind the control bits.
const CODES: usize = 2;

fn put_double(rt: &(impl Print + Eprint), number: usize) {
    let bytes = ((number % 0x1_0000) as u16).to_be_bytes();
    cases::put(rt, &bytes);
}

fn put_form(rt: &(impl Print + Eprint), form: Text<MOST_BYTES>) {
    cases::put_byte(rt, (form.used % 256) as u8);
    cases::put(rt, &form.bytes);
}

// The number of the first four bytes.
fn number_in(bytes: &[u8]) -> u32 {
    u32::from_be_bytes(array::from_fn(|at| cases::byte_at(bytes, at)))
}

pub(crate) fn answer_form(rt: &(impl Print + Eprint), input: &[u8]) {
    put_form(rt, letters::utf8_of(number_in(input)));
}

pub(crate) fn answer_letter(rt: &(impl Print + Eprint), input: &[u8]) {
    let control = cases::double(input);
    let letter = letters::letter_of(control, cases::byte_at(input, CODES));
    cases::put_byte(rt, letters::option_of(control));
    cases::put_byte(rt, letters::stands_in(control) as u8);
    put_double(rt, (letter / 0x1_0000) as usize);
    put_double(rt, (letter % 0x1_0000) as usize);
    put_form(rt, letters::utf8_of(letter));
}

// Zeros stand for the text of a page that is refused.
pub(crate) fn answer_text(rt: &(impl Print + Eprint), input: &[u8]) {
    let printed = printing::utf8_page(cases::rest(input, CODES), cases::double(input));
    cases::put_byte(rt, if printed.is_ok() { 0 } else { shown::REFUSED });
    let page = printing::utf8_or_zeros(printed);
    cases::put_byte(rt, page.english as u8);
    put_double(rt, page.text.used);
    cases::put(rt, cases::start(&page.text.bytes, TEXT));
}
