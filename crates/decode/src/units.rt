// Sorts f and u: the search in a data field, and the unit at a place. A case is a place of eight bytes, and the field.
use field::{FieldError, Found, WholeUnit};
use std::array;

const PLACE: usize = 8;

// The number of the first eight bytes.
fn place_of(input: &[u8]) -> usize {
    usize::from_be_bytes(array::from_fn(|at| cases::byte_at(input, at)))
}

// The last four bytes of a number.
fn place_bytes(place: usize) -> [u8; 4] {
    ((place % 0x1_0000_0000) as u32).to_be_bytes()
}

// Three numbers of a byte, and two of four bytes, in one write.
fn put_five(rt: &(impl Print + Eprint), bytes: [u8; 3], place: usize, after: usize) {
    let [number, first, second] = bytes;
    let [at3, at2, at1, at0] = place_bytes(place);
    let [to3, to2, to1, to0] = place_bytes(after);
    let all = [
        number, first, second, at3, at2, at1, at0, to3, to2, to1, to0,
    ];
    cases::put(rt, &all);
}

// The paper's number, and the place beside 15 and 16. The lister says the same numbers, each in a line of its own.
fn put_refusal(rt: &(impl Print + Eprint), refusal: FieldError) {
    match refusal {
        FieldError::NoField => put_five(rt, [14, 0, 0], 0, 0),
        FieldError::PastField => put_five(rt, [17, 0, 0], 0, 0),
        FieldError::Short(at) => put_five(rt, [15, 0, 0], at, 0),
        FieldError::WrongLength(at) => put_five(rt, [16, 0, 0], at, 0),
    }
}

pub(crate) fn answer_search(rt: &(impl Print + Eprint), input: &[u8]) {
    match field::search(cases::rest(input, PLACE), place_of(input)) {
        Ok(
            Some(
                Found {
                    packet,
                    parity,
                    offset,
                    after,
                },
            ),
        ) => put_five(rt, [0, parity, offset], packet, after),
        Ok(None) => put_five(rt, [0, 0, 0], 0, 0),
        Err(refusal) => put_refusal(rt, refusal),
    }
}

pub(crate) fn answer_unit(rt: &(impl Print + Eprint), input: &[u8]) {
    match field::unit_at(cases::rest(input, PLACE), place_of(input)) {
        Ok(Some(WholeUnit { id, length, after })) => put_five(rt, [0, id, length], 0, after),
        Ok(None) => put_five(rt, [0, 0, 0], 0, 0),
        Err(refusal) => put_refusal(rt, refusal),
    }
}
