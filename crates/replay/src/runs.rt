// Sorts s and r: a new receiver, and a run: a receiver that lines, packets and recordings are taken by, one after the other, through the entries of the library.
use crate::forms;
use receiver::{Mended, Receiver, Refusal, Stepped, Taken};

// What stands before the bytes of a step: its entry, and its length in two bytes.
const STEP: usize = 3;

// The kind that is said where a recording came to its end.
const AT_END: u8 = 0xFF;

// The number of a selection that is out of range.
const OUT_OF_RANGE: u8 = 13;

pub(crate) fn answer_selection(rt: &(impl Print + Eprint), input: &[u8]) {
    let made = Receiver::new(forms::selection_of(input));
    cases::put_byte(rt, if made.is_ok() { 0 } else { OUT_OF_RANGE });
    forms::put_receiver(rt, &Receiver::or_zeros(made));
}

fn put_answer(rt: &(impl Print + Eprint), answer: Result<Taken, Refusal>) {
    match answer {
        Ok(taken) => {
            let closing = taken.closing.map_or(0, |closing| closing as u8);
            cases::put(rt, &[0, taken.kind, taken.count, closing, taken.mended]);
        }
        Err(refusal) => cases::put(rt, &[refusal.number(), 0, 0, 0, 0]),
    }
}

// What stands for the answer of a recording that came to its end.
const ENDED: Taken = Taken {
    kind: AT_END,
    count: 0,
    closing: None,
    mended: 0,
};

fn put_count(rt: &(impl Print + Eprint), count: usize) {
    let bytes = ((count % 0x1_0000) as u16).to_be_bytes();
    cases::put(rt, &bytes);
}

fn put_mended(rt: &(impl Print + Eprint), mended: Mended) {
    put_count(rt, mended.bytes);
    put_count(rt, mended.lines);
    put_count(rt, mended.own);
}

// A recording: how many lines were used, the bytes mended in them, and the answer that it stopped at.
fn play(
    rt: &(impl Print + Eprint),
    receiver: Receiver,
    bytes: &[u8],
    record: &mut [u8],
) -> Stepped {
    let recorded = receiver::take_recording(receiver, bytes, record);
    put_count(rt, recorded.used);
    put_mended(rt, recorded.mended);
    Stepped {
        receiver: recorded.receiver,
        answer: recorded.answer.unwrap_or(Ok(ENDED)),
    }
}

fn take(
    rt: &(impl Print + Eprint),
    entry: u8,
    receiver: Receiver,
    bytes: &[u8],
    record: &mut [u8],
) -> Stepped {
    match entry {
        b'm' => lent::take_line_through(receiver, bytes, record),
        b'p' => receiver::take_packet(receiver, bytes, record),
        b'r' => play(rt, receiver, bytes, record),
        _ => receiver::take_line(receiver, bytes, record),
    }
}

// One step: its answer, and the record after it.
fn take_step(
    rt: &(impl Print + Eprint),
    receiver: Receiver,
    step: &[u8],
    size: usize,
    record: &mut [u8],
) -> Receiver {
    let bytes = cases::start(cases::rest(step, STEP), size);
    let stepped = take(rt, cases::byte_at(step, 0), receiver, bytes, record);
    put_answer(rt, stepped.answer);
    cases::put(rt, record);
    stepped.receiver
}

fn take_each(
    rt: &(impl Print + Eprint),
    receiver: Receiver,
    steps: &[u8],
    record: &mut [u8],
) -> Receiver {
    let mut current = receiver;
    let mut left = steps;
    while !left.is_empty() {
        let size = cases::double(cases::rest(left, 1)) as usize;
        current = take_step(rt, current, left, size, record);
        left = cases::rest(left, STEP + size);
    }
    current
}

pub(crate) fn answer_run(rt: &(impl Print + Eprint), input: &[u8], record: &mut [u8]) {
    let steps = cases::rest(input, forms::RECEIVER_LENGTH);
    let receiver = take_each(rt, forms::receiver_of(input), steps, record);
    forms::put_receiver(rt, &receiver);
}
