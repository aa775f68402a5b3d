// What a data-line holds: its packet, and the packet's address, header and characters. A packet is lent as it stands in the line; its bytes are turned
// as they are read.
#![tactic(auto)]

mod writing;

ghost use Rattle.std.specs.Prelude.{◌≡◌, ◌∷◌, [], length};
ghost use Rattle.laws.specs.Digits.{binary};
ghost use Rattle.coding.specs.Bits.{turned_byte};
ghost use Rattle.laws.specs.Paper.{one_or_none};
ghost use Rattle.coding.specs.Hamming.{corrected, message, message_paper, tests_of};
ghost use Rattle.coding.specs.Heard.{heard};
ghost use Rattle.coding.proofs.Hamming.{Small};
ghost use Rattle.packet.specs.Addresses.{address_of, address_paper, magazine_of, shown};
ghost use Rattle.packet.specs.Headers.{all_good, control_of, header_messages, header_of, header_paper, lowest_first};
ghost use Rattle.packet.specs.Lines.{framed, framed_paper, packet_length, packet_of};
ghost use Rattle.packet.specs.Texts.{text_bytes, text_of, text_paper};

use grid::COLUMNS;
pub use writing::{
    ADDRESS_LENGTH, HEADER_LENGTH, address_bytes, data_line, header_bytes, header_packet,
    row_packet,
};

// Bytes of a data-line, and of its packet.
pub const LINE_LENGTH: usize = 45;

pub const PACKET_LENGTH: usize = 42;

// C4 in a header's control bits.
pub const C4_WEIGHT: u16 = 1024;

// The columns 0 to 7 of row 0 have no character.
pub const HEADER_COLUMN: usize = 8;

// Why a data-line has no packet.
#[derive(Clone, Copy, PartialEq, Eq)]
pub enum LineError {
    WrongLength,
    WrongFraming,
}

// A packet that is not 42 bytes.
#[derive(Clone, Copy, PartialEq, Eq)]
pub struct WrongLength;

// What a packet's address shows: magazine 1 to 8 and row 0 to 31, or as much of them as one good message tells.
#[derive(Clone, Copy, PartialEq, Eq)]
pub enum Address {
    Whole { magazine: u8, row: u8 },
    // The second message is refused: of the row only weight 1 is known.
    First { magazine: u8, weight1: u8 },
    // The first message is refused: of the row only weights 2 to 16 are known, which are the second message.
    Second { second: u8 },
    Unread,
}

// A page header's numbers, in the order of the page record. `control` holds C4 to C14, C4 its most significant bit (`C4_WEIGHT`), C14 its least.
#[derive(Clone, Copy, PartialEq, Eq)]
pub struct Header {
    pub tens: u8,
    pub units: u8,
    pub hours_tens: u8,
    pub hours_units: u8,
    pub minutes_tens: u8,
    pub minutes_units: u8,
    pub control: u16,
}

// The zero of a header.
pub const ZERO_HEADER: Header = Header {
    tens: 0,
    units: 0,
    hours_tens: 0,
    hours_units: 0,
    minutes_tens: 0,
    minutes_units: 0,
    control: 0,
};

// Why a packet has no header: one of its eight messages is refused, or the packet is not 42 bytes.
#[derive(Clone, Copy, PartialEq, Eq)]
pub enum HeaderError {
    Spoiled,
    WrongLength,
}

// Whether a line has a packet: 45 bytes, and a framing code with at most one wrong bit after two bytes of run-in that are not looked at.
pub fn framed_line(line: &[u8]) -> Result<(), LineError>
    ensures { framed_paper result ≡ framed_paper (framed line.now) }
{
    if line.len() != LINE_LENGTH {
        return Err(LineError::WrongLength);
    }
    if coding::framing_passes(line[2]) {
        Ok(())
    } else {
        Err(LineError::WrongFraming)
    }
}

// The packet of a line, and an empty part of a line that is refused. No Result: that part is promised (`packet_of`), and `framed_line` says why.
pub fn packet_of(line: &[u8]) -> &[u8]
    ensures { result.now ≡ packet_of line.now }
{
    match framed_line(line) {
        Ok(()) => &line[3..LINE_LENGTH],
        Err(_) => &[],
    }
}

// The message of a byte as it stands in a packet.
pub fn message_at(byte: u8) -> Option<u8>
    ensures { message_paper result ≡ one_or_none (message (turned_byte byte)) }
{
    coding::message_in(coding::message_of(coding::turned(byte)))
}

// Whether a Hamming byte, as it stands in a packet, has one wrong bit, which is mended: test D fails. D counts all bits, and so the byte needn't be turned.
pub fn is_mended(byte: u8) -> bool
    ensures { result ≡ corrected (tests_of (turned_byte byte)) }
{
    !coding::tests_of(byte).d
}

fn magazine_of(first: u8) -> u8
    ensures { result ≡ magazine_of first }
{
    let magazine = first % 8;
    if magazine == 0 { 8 } else { magazine }
}

// What two messages show of an address.
fn shown_by(one: Option<u8>, two: Option<u8>) -> Address
    requires { Small (heard one) × Small (heard two) }
    ensures { result ≡ shown (heard one) (heard two) }
{
    match (one, two) {
        (Some(first), Some(second)) => Address::Whole {
            magazine: magazine_of(first),
            row: first / 8 + 2 * second,
        },
        (Some(first), None) => Address::First {
            magazine: magazine_of(first),
            weight1: first / 8,
        },
        (None, Some(second)) => Address::Second { second },
        (None, None) => Address::Unread,
    }
}

// What the address of a packet shows.
pub fn address_of(packet: &[u8]) -> Result<Address, WrongLength>
    ensures { address_paper result ≡ address_paper (address_of packet.now) }
{
    if packet.len() == PACKET_LENGTH {
        Ok(shown_by(message_at(packet[0]), message_at(packet[1])))
    } else {
        Err(WrongLength)
    }
}

// A header's eight messages in the order in which they are sent, where all of them are good. It stops at the first that is refused.
fn header_messages(packet: &[u8]) -> Option<[u8; 8]>
    requires { length packet.now ≡ packet_length }
    ensures { heard result ≡ all_good (header_messages packet.now) }
{
    let mut messages = [0; 8];
    for at in 0..8 {
        messages[at] = message_at(packet[2 + at])?;
    }
    Some(messages)
}

// A message's four bits the other way round, so that the lowest comes first.
fn reversed(message: u8) -> u16
    ensures { result ≡ binary (lowest_first message) }
{
    (coding::turned(message) / 16) as u16
}

// C4 to C14 as one number, from the messages that hold them.
fn control_of(minutes_tens_c4: u8, hours_tens_c5_c6: u8, c7_to_c10: u8, c11_to_c14: u8) -> u16
    ensures { result ≡ control_of minutes_tens_c4 hours_tens_c5_c6 c7_to_c10 c11_to_c14 }
{
    let c4 = (minutes_tens_c4 / 8 % 2) as u16;
    let c5 = (hours_tens_c5_c6 / 4 % 2) as u16;
    let c6 = (hours_tens_c5_c6 / 8 % 2) as u16;
    c4 * C4_WEIGHT + c5 * 512 + c6 * 256 + reversed(c7_to_c10) * 16 + reversed(c11_to_c14)
}

// The header of a row 0's packet: what its row is, is not asked.
pub fn header_of(packet: &[u8]) -> Result<Header, HeaderError>
    ensures { header_paper result ≡ header_paper (header_of packet.now) }
{
    if packet.len() != PACKET_LENGTH {
        return Err(HeaderError::WrongLength);
    }
    let Some(messages) = header_messages(packet) else {
        return Err(HeaderError::Spoiled);
    };
    Ok(Header {
        tens: messages[1],
        units: messages[0],
        hours_tens: messages[5] % 4,
        hours_units: messages[4],
        minutes_tens: messages[3] % 8,
        minutes_units: messages[2],
        control: control_of(messages[3], messages[5], messages[6], messages[7]),
    })
}

// The bytes of the forty columns, turned, in one pass. In row 0 columns 0 to 7 hold the header's messages.
pub fn text_of(packet: &[u8]) -> Result<[u8; COLUMNS], WrongLength>
    ensures { (text_paper result ≡ (text_of packet.now).answer) × (text_bytes result ≡ (text_of packet.now).bytes) }
{
    if packet.len() != PACKET_LENGTH {
        return Err(WrongLength);
    }
    let mut bytes = [0; COLUMNS];
    for column in 0..COLUMNS {
        bytes[column] = coding::turned(packet[2 + column]);
    }
    Ok(bytes)
}

// The bytes that were read, or the zeros that stand beside a refusal.
pub fn text_or_zeros(read: Result<[u8; COLUMNS], WrongLength>) -> [u8; COLUMNS]
    ensures { result ≡ text_bytes read }
{
    read.unwrap_or([0; COLUMNS])
}
