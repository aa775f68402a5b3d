// Sorts b, n and a: a byte, a data-line's framing, a packet's address, header and text.
use cases::HEADER_LENGTH;
use coding::Decoded;
use packet::{Address, Header, HeaderError, LineError, WrongLength, ZERO_HEADER};

// In the place of what is not read: a message, its wrong bit, a character, a header's messages.
const REFUSED: u8 = 0xFF;

// In the place of the wrong bit where there is none.
const NO_BIT: u8 = 0;

// The message, and its wrong bit.
fn message_bytes(byte: u8) -> [u8; 2] {
    match coding::message_of(byte) {
        Decoded::Exact(message) => [message, NO_BIT],
        Decoded::Corrected { message, position } => [message, position],
        Decoded::Refused => [REFUSED, REFUSED],
    }
}

pub(crate) fn answer_byte(rt: &(impl Print + Eprint), input: &[u8]) {
    let byte = cases::byte_at(input, 0);
    let tests = coding::tests_of(byte);
    let [message, position] = message_bytes(byte);
    let answer = [
        coding::turned(byte),
        coding::framing_passes(byte) as u8,
        tests.a as u8,
        tests.b as u8,
        tests.c as u8,
        tests.d as u8,
        message,
        position,
        coding::character_of(byte).unwrap_or(REFUSED),
    ];
    cases::put(rt, &answer);
}

// The form of an answer has the paper's number of a refusal. An error of a line or of a packet has none of its own: the receiver's `Refusal` has.
pub(crate) fn answer_framing(rt: &(impl Print + Eprint), line: &[u8]) {
    match packet::framed_line(line) {
        Ok(()) => cases::put_byte(rt, 0),
        Err(LineError::WrongLength) => cases::put_byte(rt, 10),
        Err(LineError::WrongFraming) => cases::put_byte(rt, 11),
    }
}

// The number; which messages are read: 3 both, 1 the first, 2 the second; what they tell.
fn address_bytes(packet: &[u8]) -> [u8; 4] {
    match packet::address_of(packet) {
        Ok(Address::Whole { magazine, row }) => [0, 3, magazine, row],
        Ok(Address::First { magazine, weight1 }) => [0, 1, magazine, weight1],
        Ok(Address::Second { second }) => [0, 2, second, 0],
        Ok(Address::Unread) => [0, 0, 0, 0],
        Err(WrongLength) => [10, 0, 0, 0],
    }
}

fn put_header(rt: &(impl Print + Eprint), number: u8, header: Header) {
    let mut bytes = [number; 1 + HEADER_LENGTH];
    bytes[1..].copy_from_slice(&cases::header_bytes(header));
    cases::put(rt, &bytes);
}

// The number, or FF where a message is refused, and the header.
fn answer_header(rt: &(impl Print + Eprint), packet: &[u8]) {
    match packet::header_of(packet) {
        Ok(header) => put_header(rt, 0, header),
        Err(HeaderError::Spoiled) => put_header(rt, REFUSED, ZERO_HEADER),
        Err(HeaderError::WrongLength) => put_header(rt, 10, ZERO_HEADER),
    }
}

pub(crate) fn answer_packet(rt: &(impl Print + Eprint), packet: &[u8]) {
    cases::put(rt, &address_bytes(packet));
    answer_header(rt, packet);
    cases::put(rt, &packet::text_or_zeros(packet::text_of(packet)));
}
