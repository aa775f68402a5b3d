// What whoever feeds lines keeps beside the receiver: whether a line was refused while the page was open, how many lines there were, and how many bytes were mended
// in them. A page with such a gap is not called clean, even where the receiver closes it so.
#![tactic(auto)]

ghost use Rattle.std.specs.Prelude.{cond, not, ◌≡◌, ◌-◌};
ghost use Rattle.receiver.specs.Entries.{answer_paper, closing_number, refusal_number};
ghost use Rattle.receiver.specs.Recordings.{played_paper};
ghost use Rattle.watch.specs.Watched.{added, added_if, closing_of, gap_after, is_number, line_watched, lines_passed, new_watch, recording_watched, without, word_of};

use receiver::{Closing, Mended, Recorded, Refusal, Stepped, Taken};

// What is to be said of a page that closed. It may be read out where it is `Clean`.
#[derive(Clone, Copy, PartialEq, Eq)]
pub enum Word {
    Clean,
    Doubt,
    // The receiver closed it clean, but a line was refused while it was open.
    Missing,
}

// Whether a line was refused while the page was open; how many lines there were, how many of them were refused by 10 and by 11, and how many pages closed; how many
// Hamming bytes were mended, in how many lines, and how many so far in the own lines of the page that is open, its header and its rows.
#[derive(Clone, Copy)]
pub struct Watch {
    pub gap: bool,
    pub lines: u64,
    pub by10: u64,
    pub by11: u64,
    pub closed: u64,
    pub mended: u64,
    pub mended_lines: u64,
    pub own: u64,
}

// The watch after a line, what is to be said of a page that closed with it, and how many bytes were mended in that page's own lines.
#[derive(Clone, Copy)]
pub struct Watched {
    pub watch: Watch,
    pub word: Option<Word>,
    pub own: u64,
}

impl Watch {
    // Before the first line.
    #[tactic(auto, unfolding(crate::specs::Watched::new_watch))]
    pub fn new() -> Watch
        ensures { result ≡ new_watch }
    {
        Watch {
            gap: false,
            lines: 0,
            by10: 0,
            by11: 0,
            closed: 0,
            mended: 0,
            mended_lines: 0,
            own: 0,
        }
    }
}

// How a page closed with a line; none did with one that was refused.
#[tactic(auto, unfolding(crate::specs::Watched::closing_of, receiver::specs::Entries::answer_paper))]
fn closing_in(answer: Result<Taken, Refusal>) -> Option<Closing>
    ensures { closing_of (answer_paper answer) ≡ closing_number result }
{
    match answer {
        Ok(taken) => taken.closing,
        Err(_) => None,
    }
}

// Whether a line was refused for this reason.
fn is_refused(answer: Result<Taken, Refusal>, reason: Refusal) -> bool
    ensures { result ≡ is_number (refusal_number reason) (answer_paper answer).number }
{
    match answer {
        Ok(_) => false,
        Err(refusal) => refusal == reason,
    }
}

#[tactic(auto, unfolding(crate::specs::Watched::word_of))]
fn word_of(gap: bool, closing: Option<Closing>) -> Option<Word>
    ensures { result ≡ word_of gap (closing_number closing) }
{
    match closing {
        None => None,
        Some(Closing::Doubt) => Some(Word::Doubt),
        Some(Closing::Clean) => Some(if gap { Word::Missing } else { Word::Clean }),
    }
}

#[tactic(auto, using(crate::proofs::Closed::unclosed), unfolding(crate::specs::Watched::gap_after, receiver::specs::Entries::answer_paper))]
fn gap_after(gap: bool, is_open: bool, answer: Result<Taken, Refusal>) -> bool
    ensures { result ≡ gap_after gap is_open (answer_paper answer) }
{
    match answer {
        Ok(taken) => gap & taken.closing.is_none(),
        Err(_) => gap | is_open,
    }
}

// A count stays at the largest number that it can hold.
#[tactic(auto, unfolding(crate::specs::Watched::added))]
fn added_to(count: u64, more: u64) -> u64
    ensures { result ≡ added count more }
{
    count.saturating_add(more)
}

#[tactic(auto, unfolding(crate::specs::Watched::added_if))]
fn added_if(yes: bool, count: u64) -> u64
    ensures { result ≡ added_if yes count }
{
    if yes { added_to(count, 1) } else { count }
}

#[tactic(auto, unfolding(crate::specs::Watched::lines_passed))]
fn lines_passed(watch: Watch, used: usize, mended: Mended) -> Watch
    ensures { result ≡ lines_passed watch used mended }
{
    Watch {
        lines: added_to(watch.lines, used as u64),
        mended: added_to(watch.mended, mended.bytes as u64),
        mended_lines: added_to(watch.mended_lines, mended.lines as u64),
        own: added_to(watch.own, mended.own as u64),
        ..watch
    }
}

fn own_after(own: u64, closed: bool, more: u64) -> u64
    ensures { result ≡ cond (not closed) (added own more) more }
{
    if closed { more } else { added_to(own, more) }
}

#[tactic(auto, unfolding(crate::specs::Watched::added))]
fn own_closed(own: u64, closed: bool) -> u64
    ensures { result ≡ cond (not closed) 0 (added own 0) }
{
    if closed { own } else { 0 }
}

fn after_line(watch: Watch, is_open: bool, answer: Result<Taken, Refusal>) -> Watched
    ensures { result ≡ line_watched watch is_open (answer_paper answer) }
{
    let closing = closing_in(answer);
    let closed = closing.is_some();
    let more = receiver::mended_of(answer);
    Watched {
        watch: Watch {
            gap: gap_after(watch.gap, is_open, answer),
            lines: added_to(watch.lines, 1),
            by10: added_if(is_refused(answer, Refusal::WrongLength), watch.by10),
            by11: added_if(is_refused(answer, Refusal::WrongFraming), watch.by11),
            closed: added_if(closed, watch.closed),
            mended: added_to(watch.mended, more.bytes as u64),
            mended_lines: added_to(watch.mended_lines, more.lines as u64),
            own: own_after(watch.own, closed, more.own as u64),
        },
        word: word_of(watch.gap, closing),
        own: own_closed(watch.own, closed),
    }
}

// One line: what the receiver's entry for a line or a packet gave.
pub fn watch_line(watch: Watch, stepped: Stepped) -> Watched
    ensures { result ≡ line_watched watch stepped.receiver.«open» (answer_paper stepped.answer) }
{
    after_line(watch, stepped.receiver.open, stepped.answer)
}

// The bytes mended in all lines but one.
#[tactic(auto, unfolding(crate::specs::Watched::without))]
fn mended_before(all: Mended, one: Mended) -> Mended
    ensures { result ≡ without all one }
{
    Mended {
        bytes: all.bytes.saturating_sub(one.bytes),
        lines: all.lines.saturating_sub(one.lines),
        own: all.own.saturating_sub(one.own),
    }
}

// Some lines: what the receiver's entry for a recording gave.
pub fn watch_recording(watch: Watch, recorded: Recorded) -> Watched
    ensures { result ≡ recording_watched watch recorded.used recorded.mended recorded.receiver.«open» (played_paper recorded.answer) }
{
    match recorded.answer {
        None => Watched {
            watch: lines_passed(watch, recorded.used, recorded.mended),
            word: None,
            own: 0,
        },
        Some(last) => {
            let before = mended_before(recorded.mended, receiver::mended_of(last));
            let others = lines_passed(watch, recorded.used.saturating_sub(1), before);
            after_line(others, recorded.receiver.open, last)
        }
    }
}
