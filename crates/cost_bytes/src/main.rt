// Decodes Hamming bytes one after the other, for the instructions of one to be counted, as `cost` does of lines (bench/count). Standard input has the work's letter and one
// part, as a case has it: the bytes. The first that is refused is the last, as in a header; so bytes are decoded one by one, and not many at once. What each gives is mixed
// into a byte that is written at the end.
#![tactic(auto)]

use coding::Decoded;

// Work h: the message of each byte.
fn messages_read(bytes: &[u8]) -> u8 {
    let mut sum: u8 = 0;
    for byte in bytes {
        let Some(message) = coding::message_in(coding::message_of(*byte)) else {
            return sum;
        };
        sum ^= message;
    }
    sum
}

// One byte of what is told: a message, with the position where a bit was mended, and marked so that a refused byte alone gives 0.
fn told(decoded: Decoded) -> u8 {
    match decoded {
        Decoded::Exact(message) => 0x10 ^ message,
        Decoded::Corrected { message, position } => 0x20 ^ message ^ position,
        Decoded::Refused => 0,
    }
}

// Work w: the message of each byte, and where its wrong bit is.
fn wrong_bits_told(bytes: &[u8]) -> u8 {
    let mut sum: u8 = 0;
    for byte in bytes {
        let one = told(coding::message_of(*byte));
        if one == 0 {
            return sum;
        }
        sum ^= one;
    }
    sum
}

// Work p: the message of each byte as it stands in a packet, where it is turned first.
fn packet_bytes_read(bytes: &[u8]) -> u8 {
    let mut sum: u8 = 0;
    for byte in bytes {
        let Some(message) = packet::message_at(*byte) else {
            return sum;
        };
        sum ^= message;
    }
    sum
}

fn done(work: u8, bytes: &[u8]) -> u8 {
    match work {
        b'h' => messages_read(bytes),
        b'w' => wrong_bits_told(bytes),
        _ => packet_bytes_read(bytes),
    }
}

fn main(rt: HostRuntime) {
    let mut room = [0u8; cases::LONGEST];
    let work = cases::next_sort(&rt);
    let bytes = cases::next_part(&rt, &mut room);
    cases::put_byte(&rt, done(work, bytes));
}
