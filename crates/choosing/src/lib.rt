// Which rows an argument asks for: "1-5,20".
#![tactic(auto)]

ghost use Rattle.std.specs.Prelude.{◌==◌, ◌≡◌, ◌≤◌, length, position};
ghost use Rattle.choosing.specs.Chosen.{covers, front, names_rows, row_in, row_of, says_rows, span_of, wanted_of, wanted_rows};
ghost use Rattle.choosing.specs.Private.{Joined};

use grid::LAST_ROW;

// Row 0, the header, can't be asked for.
const FIRST_ROW: u8 = 1;

// How many rows can be asked for.
pub const CHOICES: usize = LAST_ROW as usize;

// What a part has: all rows from the first to the last.
#[derive(Clone, Copy)]
struct Span {
    first: u8,
    last: u8,
}

// The row of two digits, where both are digits and there is such a row to ask for.
#[tactic(auto, unfolding(crate::specs::Chosen::count, crate::specs::Chosen::row_of))]
fn row_of(tens: u8, units: u8) -> Option<u8>
    ensures { result ≡ row_of tens units }
{
    if !tens.is_ascii_digit() {
        return None;
    }
    if !units.is_ascii_digit() {
        return None;
    }
    let row = (tens - b'0') * 10 + (units - b'0');
    if (FIRST_ROW <= row) & (row <= LAST_ROW) {
        Some(row)
    } else {
        None
    }
}

#[tactic(auto, unfolding(crate::specs::Chosen::row_in))]
fn row_in(text: &[u8]) -> Option<u8>
    ensures { result ≡ row_in text.now }
{
    match text {
        [units] => row_of(b'0', *units),
        [tens, units] => row_of(*tens, *units),
        _ => None,
    }
}

fn first_mark(mark: u8, text: &[u8]) -> Option<usize>
    ensures { result ≡ position (λ byte. byte == mark) text.now }
{
    text.iter().position(|byte| *byte == mark)
}

// How many bytes stand before the first mark: all, where there is none. The second promise is for callers, who cut the text there.
fn length_before(mark: u8, text: &[u8]) -> usize
    ensures { (result ≡ length (front mark text.now)) × (result ≤ length text.now) }
{
    first_mark(mark, text).unwrap_or(text.len())
}

// A row alone, or two with a hyphen between them, the first not above the second.
fn span_of(part: &[u8]) -> Option<Span>
    ensures { result ≡ span_of part.now }
{
    let size = length_before(b'-', part);
    let first = row_in(&part[..size])?;
    if size == part.len() {
        return Some(Span { first, last: first });
    }
    let last = row_in(&part[size + 1..])?;
    if first <= last {
        Some(Span { first, last })
    } else {
        None
    }
}

fn covers(span: Span, row: u8) -> bool
    ensures { result ≡ covers span row }
{
    (span.first <= row) & (row <= span.last)
}

// The rows that were wanted, and those of one span more.
fn with_span(wanted: [bool; CHOICES], span: Span) -> [bool; CHOICES]
    ensures { Joined wanted span result }
{
    let mut joined = [false; CHOICES];
    for i in 0..CHOICES {
        joined[i] = wanted[i] | covers(span, i as u8 + FIRST_ROW);
    }
    joined
}

// The rows that an argument asks for, part by part, for each row from row 1 on whether it is wanted: the first that is no part ends it.
pub fn rows_asked(argument: &[u8]) -> Option<[bool; CHOICES]>
    ensures { (says_rows result ≡ names_rows argument.now) × (wanted_of result ≡ wanted_rows argument.now) }
{
    let mut wanted = [false; CHOICES];
    let mut rest = argument;
    loop {
        let size = length_before(b',', rest);
        let span = span_of(&rest[..size])?;
        let joined = with_span(wanted, span);
        if size == rest.len() {
            return Some(joined);
        }
        wanted = joined;
        rest = &rest[size + 1..];
    }
}
