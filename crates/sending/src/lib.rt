// Sending a page: from its record, and a yes or no for each row, the data-lines of one transmission.
#![tactic(auto)]

ghost use Rattle.std.specs.Prelude.{◌≡◌, cond, true, ◌+◌, ◌*◌, ◌≤◌, ◌<◌, length};
ghost use Rattle.grid.specs.Grid.{cell_count, rows};
ghost use Rattle.packet.specs.Lines.{line_length};
ghost use Rattle.sending.specs.declared.SendError.TheVariants.{Record};
ghost use Rattle.sending.specs.Closing.{closing_line, of_no_page};
ghost use Rattle.sending.specs.Private.{line_stored, rows_stored, stored_if};
ghost use Rattle.sending.specs.Sending.{bytes_needed, line_count, room_after, row_characters, row_line, send_answer, send_number, sent_after, sent_into, sent_paper, with_c4};

use grid::{COLUMNS, LAST_ROW, ROWS};
use packet::{C4_WEIGHT, Header, LINE_LENGTH};
use page::{Page, ReadError};

// The rows that may be wanted: all but row 0, whose line is always sent.
pub const CHOICES: usize = LAST_ROW as usize;

// The page digit F: no selection has it.
const NO_DIGIT: u8 = 15;

// Room for the longest transmission.
pub const LONGEST: usize = ROWS * LINE_LENGTH;

// Why a page is not sent: its record is refused, or the lent room is short.
#[derive(Clone, Copy, PartialEq, Eq)]
pub enum SendError {
    Record(ReadError),
    ShortRoom,
}

impl SendError {
    // The number that document 02 gives the refusal.
    #[tactic(auto, unfolding(crate::specs::Sending::send_number))]
    pub fn number(self) -> u8
        ensures { result ≡ send_number self }
    {
        match self {
            Self::Record(error) => error.number(),
            Self::ShortRoom => 30,
        }
    }
}

impl From<ReadError> for SendError {
    ghost from_gives = { λ error e. e ≡ Record error };

    fn from(error: ReadError) -> SendError {
        SendError::Record(error)
    }
}

// The header's line, and one for each row that is wanted.
fn line_count(wanted: [bool; CHOICES]) -> usize
    ensures { result ≡ line_count wanted }
{
    let mut count = 1;
    for yes in &wanted {
        count += *yes as usize;
    }
    count
}

// C4 is sent set, whatever the record says.
#[tactic(auto, unfolding(crate::specs::Sending::with_c4))]
fn with_c4(header: Header) -> Header
    ensures { result ≡ with_c4 header }
{
    Header {
        control: C4_WEIGHT + header.control % C4_WEIGHT,
        ..header
    }
}

// A row's forty characters.
fn row_in(characters: &[u8], row: usize) -> [u8; COLUMNS]
    requires { (length characters.now ≡ cell_count) × (row < rows) }
    ensures { result ≡ row_characters characters.now row }
{
    let place = row * COLUMNS;
    let mut found = [0; COLUMNS];
    found.copy_from_slice(&characters[place..place + COLUMNS]);
    found
}

// A line stored in the room as the next, behind so many.
fn store_line(line: [u8; LINE_LENGTH], count: usize, room: &mut [u8])
    requires { count * line_length + line_length ≤ length room.old }
    ensures { room.new ≡ line_stored line count room.old }
{
    let place = count * LINE_LENGTH;
    room[place..place + LINE_LENGTH].copy_from_slice(&line);
}

// The line of a row stored as the next, where it is wanted; and how many lines there are then.
fn store_if(wanted: bool, page: &Page, row: usize, count: usize, room: &mut [u8]) -> usize
    requires { (row < rows) × (count < rows) × (wanted ≡ true → count * line_length + line_length ≤ length room.old) }
    ensures value { result ≡ cond wanted (count + 1) count }
    ensures room_after { room.new ≡ stored_if wanted (row_line page.now row) count room.old }
{
    if !wanted {
        return count;
    }
    let text = row_in(&page.cells.characters, row);
    store_line(
        packet::data_line(packet::row_packet(page.magazine, row as u8, text)),
        count,
        room,
    );
    count + 1
}

// The lines of all rows that are wanted, rising, behind the header's.
fn store_rows(page: &Page, wanted: [bool; CHOICES], room: &mut [u8])
    requires { (length page.now.cells.characters ≡ cell_count) × (bytes_needed wanted ≤ length room.old) }
    ensures { room.new ≡ rows_stored (row_line page.now) wanted room.old }
{
    let mut count = 1;
    for at in 0..CHOICES {
        count = store_if(wanted[at], page, at + 1, count, room);
    }
}

// A page that was read, sent: refused by 30 where the room is short.
fn send_whole(page: &Page, wanted: [bool; CHOICES], room: &mut [u8]) -> Result<usize, SendError>
    ensures value { result ≡ sent_after (Ok tt) wanted room.old }
    ensures room_after { room.new ≡ room_after (sent_after (Ok tt) wanted room.old) page.now wanted room.old }
{
    let count = line_count(wanted);
    if room.len() < count * LINE_LENGTH {
        return Err(SendError::ShortRoom);
    }
    let characters = row_in(&page.cells.characters, 0);
    store_line(
        packet::data_line(packet::header_packet(page.magazine, with_c4(page.header), characters)),
        0,
        room,
    );
    store_rows(page, wanted, room);
    Ok(count)
}

// The data-lines of a record's page at the start of the room, header first with C4 set, then the rows that are wanted, rising; or nothing where it is refused.
// `wanted` has a yes or no for each row from 1 on. The record is read once.
pub fn send_page(
    record: &[u8],
    wanted: [bool; CHOICES],
    room: &mut [u8],
) -> Result<usize, SendError>
    ensures result_value { sent_paper result ≡ sent_paper (send_answer «record».now wanted room.old) }
    ensures room_after { room.new ≡ sent_into «record».now wanted room.old }
{
    send_whole(&page::read_record(record)?, wanted, room)
}

// A header of no page.
#[tactic(auto, unfolding(crate::specs::Closing::of_no_page))]
fn of_no_page(header: Header) -> Header
    ensures { result ≡ of_no_page header }
{
    Header {
        tens: NO_DIGIT,
        units: NO_DIGIT,
        ..header
    }
}

// The line that ends the page where nothing of its magazine follows it: a header that no receiver selects. On the air the next page's header does it.
pub fn closing_line(page: Page) -> [u8; LINE_LENGTH]
    ensures { result ≡ closing_line page }
{
    let text = row_in(&page.cells.characters, 0);
    let closing = of_no_page(with_c4(page.header));
    packet::data_line(packet::header_packet(page.magazine, closing, text))
}
