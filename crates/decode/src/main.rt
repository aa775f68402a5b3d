// Answers cases of bytes, data-lines, packets, data fields, pages of codes and letters by the library, for its answers to be held to those of others (tests/model/FORMAT.md).
#![tactic(auto)]

mod coded;
mod lettered;
mod sent;
mod shown;
mod units;

// The answer to a sort that is not known.
const UNKNOWN: u8 = 0xFF;

fn answer(rt: &(impl Print + Eprint), sort: u8, input: &[u8]) {
    match sort {
        b'b' => coded::answer_byte(rt, input),
        b'n' => coded::answer_framing(rt, input),
        b'a' => coded::answer_packet(rt, input),
        b'f' => units::answer_search(rt, input),
        b'u' => units::answer_unit(rt, input),
        b'g' => shown::answer_page(rt, input),
        b'e' => sent::answer_bytes(rt, input),
        b'k' => sent::answer_packets(rt, input),
        b'i' => lettered::answer_form(rt, input),
        b'c' => lettered::answer_letter(rt, input),
        b'o' => lettered::answer_text(rt, input),
        _ => cases::put_byte(rt, UNKNOWN),
    }
}

// One case and its answer; false at the end of the cases.
fn answer_next(rt: &(impl Input + Print + Eprint), room: &mut [u8]) -> bool {
    let sort = cases::next_sort(rt);
    if sort == cases::END {
        return false;
    }
    let input = cases::next_part(rt, room);
    answer(rt, sort, input);
    true
}

// All cases. The turns are counted so that the loop is seen to end.
fn answer_all(rt: &(impl Input + Print + Eprint), room: &mut [u8]) {
    for _ in 0..u64::MAX {
        if !answer_next(rt, room) {
            return;
        }
    }
}

fn main(rt: HostRuntime) {
    let mut room = [0u8; cases::LONGEST];
    answer_all(&rt, &mut room);
}
