// Sorts w and d: a page written as a record, and a record read.
use crate::forms;

pub(crate) fn answer_written(rt: &(impl Print + Eprint), input: &[u8], record: &mut [u8]) {
    match page::write_record(forms::page_of(input), record) {
        Ok(()) => cases::put_byte(rt, 0),
        Err(refusal) => cases::put_byte(rt, refusal.number()),
    }
    cases::put(rt, record);
}

pub(crate) fn answer_read(rt: &(impl Print + Eprint), input: &[u8]) {
    let read = page::read_record(input);
    match &read {
        Ok(_) => cases::put_byte(rt, 0),
        Err(refusal) => cases::put_byte(rt, refusal.number()),
    }
    forms::put_page(rt, &page::page_or_zeros(read));
}
