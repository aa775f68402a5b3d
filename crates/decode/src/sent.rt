// Sorts e and k: a byte as a message and as a character are sent, and the packets of a row and of a header as they are sent.
use std::array;

// Where the parts of a packets' case start, behind the magazine and the row.
const HEADER: usize = 2;

const CHARACTERS: usize = 10;

pub(crate) fn answer_bytes(rt: &(impl Print + Eprint), input: &[u8]) {
    let byte = cases::byte_at(input, 0);
    cases::put(
        rt,
        &[coding::sent_message(byte), coding::sent_character(byte)],
    );
}

// The same characters in both packets: the header's messages are laid over the first eight.
pub(crate) fn answer_packets(rt: &(impl Print + Eprint), input: &[u8]) {
    let magazine = cases::byte_at(input, 0);
    let sent = cases::rest(input, CHARACTERS);
    let characters = array::from_fn(|column| cases::byte_at(sent, column));
    let row = packet::row_packet(magazine, cases::byte_at(input, 1), characters);
    cases::put(rt, &row);
    let header = cases::header_of(cases::rest(input, HEADER));
    cases::put(rt, &packet::header_packet(magazine, header, characters));
}
