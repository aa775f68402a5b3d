// Sort t: the page of a record sent into the lent room. A case is a byte for each row from 1 on, and the record.
use sending::CHOICES;
use std::array;

// The byte of a row that is wanted.
const YES: u8 = 1;

// The number, and the count of lines.
pub(crate) fn answer_sent(rt: &(impl Print + Eprint), input: &[u8], room: &mut [u8]) {
    let wanted = array::from_fn(|at| cases::byte_at(input, at) == YES);
    match sending::send_page(cases::rest(input, CHOICES), wanted, room) {
        Ok(count) => cases::put(rt, &[0, (count % 256) as u8]),
        Err(refusal) => cases::put(rt, &[refusal.number(), 0]),
    }
    cases::put(rt, room);
}
