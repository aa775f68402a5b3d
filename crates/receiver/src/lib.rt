// The receiver of one selected page, by value: a line or a packet goes in with the receiver and a lent record, and the receiver comes back. The lent
// record is written only where a page closes.
#![tactic(auto)]

mod asking;
mod cells;
mod effects;
mod kinds;
mod mending;
mod recording;
mod selecting;

ghost use Rattle.std.specs.Prelude.{◌≡◌, OnOk, length};
ghost use Rattle.packet.specs.Lines.{packet_length};
ghost use Rattle.receiver.specs.Entries.{Meets, asked, line_entered, made, made_answer, made_in, packet_entered, refusal_number};
ghost use Rattle.receiver.specs.Private.{looked_at, stepped_of};
ghost use Rattle.receiver.specs.Recordings.{PlaysAs, played};
ghost use Rattle.receiver.specs.Selections.{selected_paper};

use asking::{asked, line_asked, packet_asked};
use cells::BLANK;
use effects::{follow, taken_of};
use kinds::seen_of;
use mending::mended_bytes;
pub use mending::mended_of;
use packet::{Header, ZERO_HEADER};
use page::{Cells, ZERO_CELLS};
use recording::play;
use selecting::in_range;

// A time code, or any time.
#[derive(Clone, Copy)]
pub enum When {
    Any,
    Time {
        hours_tens: u8,
        hours_units: u8,
        minutes_tens: u8,
        minutes_units: u8,
    },
}

// The page that is wanted.
#[derive(Clone, Copy)]
pub struct Selection {
    pub magazine: u8,
    pub tens: u8,
    pub units: u8,
    pub when: When,
}

// A receiver between two lines. With no page open there is no doubt, and the header is zero; the cells stay from the page before.
#[derive(Clone, Copy)]
pub struct Receiver {
    pub selection: Selection,
    pub open: bool,
    pub doubt: bool,
    pub header: Header,
    pub cells: Cells,
}

// What is wrong with a selection: 13.
#[derive(Clone, Copy, PartialEq, Eq)]
pub struct OutOfRange;

// How a page closed with a line. The paper's answer has these numbers, and 0 where none closed.
#[derive(Clone, Copy, PartialEq, Eq)]
pub enum Closing {
    Clean = 1,
    Doubt = 2,
}

// A line that was taken: its kind, the count of characters written, how a page closed with it, and how many of the Hamming bytes examined were mended: the two of the
// address, and in our row 0 the eight control bytes too. The kind is the number of document 01's table, 0 to 5. It is no enum: `mended_of` and
// `watch::watch_line` take an answer of any kind, and an enum would ask more of their callers.
#[derive(Clone, Copy, PartialEq, Eq)]
pub struct Taken {
    pub kind: u8,
    pub count: u8,
    pub closing: Option<Closing>,
    pub mended: u8,
}

// Why a line was refused.
#[derive(Clone, Copy, PartialEq, Eq)]
pub enum Refusal {
    Unlawful = 18,
    ShortRecord = 12,
    WrongLength = 10,
    WrongFraming = 11,
}

impl Refusal {
    // The number that document 01 gives the refusal.
    #[tactic(auto, unfolding(crate::specs::Entries::refusal_number))]
    pub fn number(self) -> u8
        ensures { result ≡ refusal_number self }
    {
        self as u8
    }
}

// The receiver after a line, and the line's answer.
#[derive(Clone, Copy)]
pub struct Stepped {
    pub receiver: Receiver,
    pub answer: Result<Taken, Refusal>,
}

// Mended bytes over some lines: how many there were, how many lines had one, and how many were in lines that are a page's own, its header and its rows (kinds 2 and 1).
// Where the last line closes a page and opens its next sending, the bytes of that line (`mended_of` its answer) are the next sending's.
#[derive(Clone, Copy)]
pub struct Mended {
    pub bytes: usize,
    pub lines: usize,
    pub own: usize,
}

// The receiver after a recording was played, how many lines were used, the bytes mended in them, the last included, and the answer that playing stopped at: that of
// a line that was refused or closed a page, and none at the recording's end.
#[derive(Clone, Copy)]
pub struct Recorded {
    pub receiver: Receiver,
    pub used: usize,
    pub mended: Mended,
    pub answer: Option<Result<Taken, Refusal>>,
}

// No byte was mended.
const NONE_MENDED: Mended = Mended {
    bytes: 0,
    lines: 0,
    own: 0,
};

// Nothing is selected, and everything is zero.
const ZERO_RECEIVER: Receiver = Receiver {
    selection: Selection {
        magazine: 0,
        tens: 0,
        units: 0,
        when: When::Any,
    },
    open: false,
    doubt: false,
    header: ZERO_HEADER,
    cells: ZERO_CELLS,
};

impl Receiver {
    pub const ROWS: usize = grid::ROWS;

    pub const COLUMNS: usize = grid::COLUMNS;

    pub const CELLS: usize = Receiver::ROWS * Receiver::COLUMNS;

    pub const RECORD_LENGTH: usize = page::RECORD_LENGTH;

    // A receiver for a selection, with no page open yet.
    #[tactic(auto, unfolding(crate::specs::Entries::made, crate::specs::Entries::made_in, crate::specs::Entries::made_answer, crate::specs::Selections::selected_paper))]
    pub fn new(selection: Selection) -> Result<Receiver, OutOfRange>
        ensures { (selected_paper result ≡ made_answer selection) × (made_in result ≡ made selection) }
    {
        if !in_range(selection) {
            return Err(OutOfRange);
        }
        Ok(Receiver {
            selection,
            open: false,
            doubt: false,
            header: ZERO_HEADER,
            cells: BLANK,
        })
    }

    // The receiver that was made, or the zeros that stand beside 13.
    pub fn or_zeros(made: Result<Receiver, OutOfRange>) -> Receiver
        ensures { result ≡ made_in made }
    {
        made.unwrap_or(ZERO_RECEIVER)
    }
}

// What both entries do with a packet, and with what 10 and 11 had against it: 18 and 12 go before those.
fn enter(
    receiver: &mut Receiver,
    looked: Result<(), Refusal>,
    packet: &[u8],
    record: &mut [u8],
) -> Result<Taken, Refusal>
    requires { OnOk looked (length packet.now ≡ packet_length) }
    ensures { Meets (asked receiver.old «record».old (looked_at looked receiver.old packet.now «record».old)) (stepped_of receiver.new result) «record».new }
{
    asked(receiver, record.len())?;
    looked?;
    let shows = seen_of(receiver.selection.magazine, packet);
    let mended = mended_bytes(shows, packet);
    let done = follow(receiver, shows, packet, record);
    Ok(taken_of(done, mended))
}

// A packet of 42 bytes, from a data field.
pub fn take_packet(receiver: Receiver, packet: &[u8], record: &mut [u8]) -> Stepped
    ensures { Meets (packet_entered receiver packet.now «record».old) result «record».new }
{
    let mut after = receiver;
    let answer = enter(&mut after, packet_asked(packet), packet, record);
    Stepped {
        receiver: after,
        answer,
    }
}

// A data-line of 45 bytes.
pub fn take_line(receiver: Receiver, line: &[u8], record: &mut [u8]) -> Stepped
    ensures { Meets (line_entered receiver line.now «record».old) result «record».new }
{
    let mut after = receiver;
    let answer = enter(
        &mut after,
        line_asked(line),
        packet::packet_of(line),
        record,
    );
    Stepped {
        receiver: after,
        answer,
    }
}

// A recording: data-lines end to end, played to the first that is refused or closes a page, or to the end. 18 and 12 are asked once: a lawful receiver
// stays lawful, and a record keeps its length.
pub fn take_recording(receiver: Receiver, recording: &[u8], record: &mut [u8]) -> Recorded
    ensures { PlaysAs (played receiver recording.now «record».old) result «record».new }
{
    if recording.is_empty() {
        return Recorded {
            receiver,
            used: 0,
            mended: NONE_MENDED,
            answer: None,
        };
    }
    if let Err(refusal) = asked(&receiver, record.len()) {
        return Recorded {
            receiver,
            used: 1,
            mended: NONE_MENDED,
            answer: Some(Err(refusal)),
        };
    }
    let mut after = receiver;
    let ended = play(&mut after, recording, record);
    Recorded {
        receiver: after,
        used: ended.used,
        mended: ended.mended,
        answer: ended.answer,
    }
}
