// What is said over lines: each page that closes, once and in order, and of a clean page what was sent this time and nothing else.
#![tactic(auto)]

ghost use Rattle.std.specs.Prelude.{cond, [], ◌≡◌, ◌+◌, ◌*◌, ◌/◌, ◌≤◌, ◌<◌, min, length, take};
ghost use Rattle.grid.specs.Grid.{cell_count, rows};
ghost use Rattle.packet.specs.Lines.{line_length};
ghost use Rattle.page.specs.Reading.{page_read};
ghost use Rattle.page.specs.Records.{record_length};
ghost use Rattle.printing.specs.Letters.{utf8_page_size};
ghost use Rattle.texts.specs.Put.{Puts};
ghost use Rattle.tally.specs.Tally.{share_size};
ghost use Rattle.heading.specs.Line.{line_size};
ghost use Rattle.announcing.specs.Private.{Printable, Stops, Whole};
ghost use Rattle.announcing.specs.Said.{SaysAs, fitting, left_out_size, longest, share_said, starting};
ghost use Rattle.announcing.specs.Told.{announced, cells_text, fresh_characters, left_out_text, older_rows, one_older, page_line, row_number, sent_now};

use grid::{CELLS, COLUMNS, ROWS};
use packet::LINE_LENGTH;
use page::{Cells, FRESH, OLDER, Page, RECORD_LENGTH, SPACE, ZERO_PAGE};
use printing::UTF8_PAGE;
use receiver::Receiver;
use tally::SHARE;
use texts::{Text, digit_text};
use watch::{Watch, Word};

// "rows from earlier, left out:", three bytes for each row, and a line feed.
const LEFT_OUT: usize = 28 + 3 * ROWS + 1;

// The most that is said of a line, which is of a clean page.
pub const LONGEST: usize = heading::LINE + LEFT_OUT + UTF8_PAGE;

// After some lines: the receiver, the watch beside it, how many bytes of the lines were used, and how many of the room the text takes.
#[derive(Drop)]
pub struct Announced {
    pub receiver: Receiver,
    pub watch: Watch,
    pub used: usize,
    pub length: usize,
}

// Puts a text into the room at a place, and answers the place behind it. So do all that follow: the room is lent, and a struct that holds it would have to promise in each function that it is the same one.
fn put(room: &mut [u8], at: usize, text: &[u8]) -> usize
    requires { at + length text.now ≤ length room.old }
    ensures { Puts text.now room.old at room.new result }
{
    texts::put(room, at, text)
}

// Whether one of some marks is older.
#[tactic(auto, unfolding(crate::specs::Told::one_older))]
fn one_older(marks: &[u8]) -> bool
    ensures { result ≡ one_older marks.now }
{
    marks.iter().any(|mark| *mark == OLDER)
}

#[tactic(auto, unfolding(crate::specs::Told::sent_now))]
fn sent_now(character: u8, mark: u8) -> u8
    ensures { result ≡ sent_now character mark }
{
    if mark == FRESH { character } else { SPACE }
}

// What was sent this time: a space for each cell that is not fresh.
fn fresh_characters(cells: &Cells) -> [u8; CELLS]
    requires { Whole cells.now }
    ensures { result ≡ fresh_characters cells.now }
{
    let mut sent = [SPACE; CELLS];
    for i in 0..CELLS {
        sent[i] = sent_now(cells.characters[i], cells.marks[i]);
    }
    sent
}

#[tactic(auto, unfolding(crate::specs::Told::row_number))]
fn put_row_number(room: &mut [u8], at: usize, row: usize) -> usize
    requires { (at + 3 ≤ length room.old) × (row < rows) }
    ensures { Puts (row_number row) room.old at room.new result }
{
    let number = row as u8;
    if number < 10 {
        return put(room, at, &[b' ', digit_text(number)]);
    }
    put(
        room,
        at,
        &[b' ', digit_text(number / 10), digit_text(number % 10)],
    )
}

fn put_if_older(room: &mut [u8], at: usize, row: usize, marks: &[u8]) -> usize
    requires { (at + 3 ≤ length room.old) × (row < rows) }
    ensures { Puts (cond (one_older marks.now) (row_number row) []) room.old at room.new result }
{
    if one_older(marks) {
        return put_row_number(room, at, row);
    }
    at
}

fn put_older_rows(room: &mut [u8], at: usize, marks: &[u8]) -> usize
    requires { (at + 3 * rows ≤ length room.old) × (length marks.now ≡ cell_count) }
    ensures { Puts (older_rows rows marks.now) room.old at room.new result }
{
    let mut end = at;
    for row in 0..ROWS {
        let from = COLUMNS * row;
        end = put_if_older(room, end, row, &marks[from..from + COLUMNS]);
    }
    end
}

// The line that says which rows were left out, where there are some.
fn put_left_out(room: &mut [u8], at: usize, marks: &[u8]) -> usize
    requires { (at + left_out_size ≤ length room.old) × (length marks.now ≡ cell_count) }
    ensures { Puts (left_out_text marks.now) room.old at room.new result }
{
    if one_older(marks) {
        let words = put(room, at, b"rows from earlier, left out:");
        let numbers = put_older_rows(room, words, marks);
        return put(room, numbers, b"\n");
    }
    at
}

// A clean page, behind its line. The page of a record is never refused, and it is lent from the answer, out of which it would be copied.
fn put_cells(room: &mut [u8], at: usize, cells: &Cells, control: u16) -> usize
    requires { (at + (left_out_size + utf8_page_size) ≤ length room.old) × Printable cells.now }
    ensures { Puts (cells_text control cells.now) room.old at room.new result }
{
    let rows = put_left_out(room, at, &cells.marks);
    match &printing::utf8_page(&fresh_characters(cells), control) {
        Ok(page) => put(room, rows, page.text.as_bytes()),
        Err(_) => unreachable!(),
    }
}

// The line that says what closed.
fn put_line(room: &mut [u8], at: usize, page: &Page, word: Word, mended: u64) -> usize
    requires { at + line_size ≤ length room.old }
    ensures { Puts (page_line word mended page.now) room.old at room.new result }
{
    let line = heading::line_of(Some(word), page.magazine, page.header, mended);
    put(room, at, line.as_bytes())
}

// The record alone, where more was lent.
#[tactic(auto, using(laws::proofs::Lists::take_min))]
fn first_bytes(record: &[u8]) -> &[u8]
    ensures { result.now ≡ take record_length «record».now }
{
    &record[..RECORD_LENGTH.min(record.len())]
}

fn page_in(record: &[u8]) -> Page
    ensures { result ≡ page_read (take record_length «record».now) }
{
    page::read_record(first_bytes(record)).unwrap_or(ZERO_PAGE)
}

// All that is said of a line by its word and by how many bytes were mended, from the record that was written where it closed a page.
fn put_announced(
    room: &mut [u8],
    at: usize,
    word: Option<Word>,
    mended: u64,
    record: &[u8],
) -> usize
    requires { at + longest ≤ length room.old }
    ensures { Puts (announced word mended «record».now) room.old at room.new result }
{
    let Some(word) = word else {
        return at;
    };
    let page = page_in(record);
    let line = put_line(room, at, &page, word, mended);
    match word {
        Word::Clean => put_cells(room, line, &page.cells, page.header.control),
        Word::Doubt | Word::Missing => line,
    }
}

// How far so many lines go: a part at the end that is no whole line counts as one.
fn bytes_of(used: usize, rest: usize) -> usize
    ensures { result ≡ min (used * line_length) rest }
{
    used.saturating_mul(LINE_LENGTH).min(rest)
}

// Plays to the next stop, or to the end of the lines, and says what closed there.
fn to_next_stop(before: Announced, lines: &[u8], record: &mut [u8], room: &mut [u8]) -> Announced
    requires { (before.length + longest ≤ length room.old) × (before.used + length lines.now ≤ length room.old) }
    ensures { Stops before lines.now «record».old room.old result «record».new room.new }
{
    let recorded = receiver::take_recording(before.receiver, lines, record);
    let watched = watch::watch_recording(before.watch, recorded);
    let length = put_announced(room, before.length, watched.word, watched.own, record);
    Announced {
        receiver: recorded.receiver,
        watch: watched.watch,
        used: before.used + bytes_of(recorded.used, lines.len()),
        length,
    }
}

// How many bytes of lines the room has room for, whatever is said of them.
fn fitting_bytes(lines: usize, room: usize) -> usize
    ensures { result ≡ min (room / longest * line_length) lines }
{
    (room / LONGEST * LINE_LENGTH).min(lines)
}

// Enters lines, end to end, and says what closes into the room: as many lines as the room has room for. What lies in the room behind the text is as it was.
pub fn announce(
    receiver: Receiver,
    watch: Watch,
    lines: &[u8],
    record: &mut [u8],
    room: &mut [u8],
) -> Announced
    ensures { SaysAs (starting receiver watch «record».old) (fitting room.old lines.now) result «record».new room.old room.new }
{
    let end = fitting_bytes(lines.len(), room.len());
    let mut state = Announced {
        receiver,
        watch,
        used: 0,
        length: 0,
    };
    while state.used < end {
        let part = &lines[state.used..end];
        state = to_next_stop(state, part, record, room);
    }
    state
}

// What is said when there are no more lines: how many bytes were mended, and in how many of the lines. The second promise is for callers, who lend the text on.
pub fn share_of(watch: Watch) -> Text<SHARE>
    ensures value { result ≡ share_said watch }
    ensures bytes_len { (length result.bytes ≡ share_size) × (result.used ≤ share_size) }
{
    tally::share_text(watch.mended, watch.mended_lines, watch.lines)
}
