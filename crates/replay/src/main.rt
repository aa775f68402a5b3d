// Answers cases of receivers, of page records and of pages sent by the library, for its answers to be held to those of others (tests/model/FORMAT.md).
#![tactic(auto)]

mod forms;
mod pages;
mod runs;
mod sent;

// The answer to a sort that is not known.
const UNKNOWN: u8 = 0xFF;

fn answer(rt: &(impl Print + Eprint), sort: u8, input: &[u8], record: &mut [u8]) {
    match sort {
        b's' => runs::answer_selection(rt, input),
        b'r' => runs::answer_run(rt, input, record),
        b'w' => pages::answer_written(rt, input, record),
        b'd' => pages::answer_read(rt, input),
        b't' => sent::answer_sent(rt, input, record),
        _ => cases::put_byte(rt, UNKNOWN),
    }
}

// One case and its answer; false at the end of the cases. A case has its input and the record, or the room, that is lent.
fn answer_next(rt: &(impl Input + Print + Eprint), line: &mut [u8], room: &mut [u8]) -> bool {
    let sort = cases::next_sort(rt);
    if sort == cases::END {
        return false;
    }
    let input = cases::next_part(rt, line);
    let record = cases::next_part(rt, room);
    answer(rt, sort, input, record);
    true
}

// All cases. The turns are counted so that the loop is seen to end.
fn answer_all(rt: &(impl Input + Print + Eprint), line: &mut [u8], room: &mut [u8]) {
    for _ in 0..u64::MAX {
        if !answer_next(rt, line, room) {
            return;
        }
    }
}

fn main(rt: HostRuntime) {
    let mut line = [0u8; cases::LONGEST];
    let mut room = [0u8; cases::LONGEST];
    answer_all(&rt, &mut line, &mut room);
}
