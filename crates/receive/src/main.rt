// The receiving program: the page's number as its argument, a recording of data-lines on standard input. What is said of the pages that close goes to standard
// output, as soon as the closing line has come; the counts at the end, complaints and hints go to standard error.
#![tactic(auto)]

ghost use Rattle.std.specs.Prelude.{◌≡◌, ◌+◌, ◌≤◌, ◌<◌, false, length, take, drop, IfOk};
ghost use Rattle.page.specs.Records.{record_length};
ghost use Rattle.announcing.specs.Said.{said};
ghost use Rattle.receive.specs.Feeding.{Carried, Comes, Feeds, Kept, Turned, chunk_size, fed_from};

use announcing::LONGEST;
use console::Failed;
use packet::LINE_LENGTH;
use page::RECORD_LENGTH;
use receiver::Receiver;
use std::env::{Env, FillError};
use watch::Watch;

// So many lines are read at once, and there is room for what is said of them.
const LINES: usize = 32;

const CHUNK: usize = LINES * LINE_LENGTH;

const ROOM: usize = LINES * LONGEST;

// No page number is so long.
const ARGUMENT: usize = 16;

// The receiver between two lines, the watch beside it, and the record of the last page that closed.
#[derive(Clone, Copy)]
struct State {
    receiver: Receiver,
    watch: Watch,
    record: [u8; RECORD_LENGTH],
}

// The state after a turn of reading, and how many bytes of a line whose rest is to come lie at the chunk's start.
#[derive(Clone, Copy)]
struct Turn {
    state: State,
    part: usize,
}

// Writes what is said of some lines. The state and the lines are there for the promise alone: that the text is all that is said of them.
fn write_said(
    rt: &(impl Print + Eprint),
    text: &[u8],
    state: State,
    lines: &[u8],
) -> Result<(), Failed>
    requires { text.now ≡ (said (fed_from state) lines.now).text }
{
    console::say(rt, text)
}

// Enters some lines, and says what closes. The state is that after the lines also where the write fails.
fn feed(rt: &(impl Print + Eprint), state: &mut State, lines: &[u8]) -> Result<(), Failed>
    requires { (length state.old.«record» ≡ record_length) × (length lines.now ≤ chunk_size) }
    ensures feeds { Feeds (said (fed_from state.old) lines.now) state.new }
    ensures record_len { length state.new.«record» ≡ record_length }
{
    let before = *state;
    let mut room = [0u8; ROOM];
    let announced = announcing::announce(
        before.receiver,
        before.watch,
        lines,
        &mut state.record,
        &mut room,
    );
    state.receiver = announced.receiver;
    state.watch = announced.watch;
    write_said(rt, &room[..announced.length], before, lines)
}

// Moves so many bytes from a place to the chunk's start: the part of a line whose rest is to come.
fn carry(chunk: &mut [u8], from: usize, count: usize)
    requires { from + count ≤ length chunk.old }
    ensures { take count chunk.new ≡ take count (drop from chunk.old) }
{
    chunk.copy_within(from..from + count, 0);
}

// Feeds the whole lines among the chunk's first bytes, and carries the part behind them over, also where the write fails.
fn feed_whole(
    rt: &(impl Print + Eprint),
    turn: &mut Turn,
    chunk: &mut [u8],
    full: usize,
) -> Result<(), Failed>
    requires { Kept turn.old.state chunk.old × (full ≤ chunk_size) }
    ensures turned { Turned turn.old.state (take full chunk.old) turn.new chunk.new }
    ensures carried { Carried turn.new chunk.new }
{
    let part = full % LINE_LENGTH;
    let whole = full - part;
    let fed = feed(rt, &mut turn.state, &chunk[..whole]);
    carry(chunk, whole, part);
    turn.part = part;
    fed
}

// Reads some bytes behind the part of a line that is there, and feeds the whole lines; false where the input ended or failed, and the turn is then as
// it was. Nothing of the part is lost: what is fed and carried begins with it.
fn one_turn(
    rt: &(impl Input + Print + Eprint),
    turn: &mut Turn,
    chunk: &mut [u8],
) -> Result<bool, Failed>
    requires { Carried turn.old chunk.old }
    ensures comes { Comes turn.old.state (take turn.old.part chunk.old) turn.new chunk.new }
    ensures carried { Carried turn.new chunk.new }
    ensures ended { IfOk result (λ more. more ≡ false → turn.new ≡ turn.old) }
{
    let Ok(more) = console::read_behind(rt, chunk, turn.part) else {
        return Ok(false);
    };
    let full = turn.part + more;
    feed_whole(rt, turn, chunk, full)?;
    Ok(true)
}

// Reads and feeds until the input ends or fails, or a write fails. There are more turns than any recording has.
fn read_lines(
    rt: &(impl Input + Print + Eprint),
    turn: &mut Turn,
    chunk: &mut [u8],
) -> Result<(), Failed>
    requires { Carried turn.old chunk.old }
    ensures { Carried turn.new chunk.new }
{
    for _ in 0..u64::MAX {
        if !one_turn(rt, turn, chunk)? {
            return Ok(());
        }
    }
    Ok(())
}

// All of a recording, and what is said when there are no more lines. A write that fails ends it at once.
fn receive(
    rt: &(impl Input + Print + Eprint),
    receiver: Receiver,
    argument: &[u8],
) -> Result<(), Failed> {
    let state = State {
        receiver,
        watch: Watch::new(),
        record: [0u8; RECORD_LENGTH],
    };
    let mut turn = Turn { state, part: 0 };
    let mut chunk = [0u8; CHUNK];
    read_lines(rt, &mut turn, &mut chunk)?;
    feed(rt, &mut turn.state, &chunk[..turn.part])?;
    ending::complain_at_end(
        rt,
        turn.state.watch,
        turn.state.receiver.open,
        turn.part,
        argument,
    );
    Ok(())
}

fn complain_of_argument(rt: &impl Eprint) {
    console::complain(
        rt,
        b"not a page number: give 100 to 899, or 100/1234 with a time\n",
    );
}

// A page that an argument names may still be none that is sent: 900 and on.
fn start(rt: &(impl Input + Print + Eprint), argument: &[u8]) {
    let Some(Ok(receiver)) = asking::page_asked(argument).map(Receiver::new) else {
        complain_of_argument(rt);
        return;
    };
    let _ = receive(rt, receiver, argument);
}

fn main(rt: HostRuntime) {
    let Err(FillError::NotPresent) = rt.arg(2, &mut []) else {
        console::complain(
            &rt,
            b"one argument alone: give a page number, 100 to 899, or 100/1234 with a time\n",
        );
        return;
    };
    let mut argument = [0u8; ARGUMENT];
    let count = rt.arg(1, &mut argument).unwrap_or(0);
    start(&rt, &argument[..count]);
}
