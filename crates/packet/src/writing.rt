// Addresses, headers, packets and data-lines as they are sent: what the readers read, the other way round. A number too large for its bits goes by its low
// bits.
ghost use Rattle.std.specs.Prelude.{◌≡◌};
ghost use Rattle.packet.specs.Writing.{address_bytes, character_byte, control_messages, data_line, header_bytes, header_packet, message_byte, row_packet};

use crate::{C4_WEIGHT, HEADER_COLUMN, Header, LINE_LENGTH, PACKET_LENGTH};
use coding::FRAMING_CODE;
use grid::COLUMNS;

// Bytes of an address, and of an address and a header's eight messages.
pub const ADDRESS_LENGTH: usize = 2;

pub const HEADER_LENGTH: usize = ADDRESS_LENGTH + MESSAGES;

// Messages of a header: they stand where the first columns of another row do.
const MESSAGES: usize = HEADER_COLUMN;

// A byte of the clock run-in, of which there are two; the framing code and the packet follow.
const RUN_IN: u8 = 0xAA;

const FRAMING_PLACE: usize = 2;

const PACKET_PLACE: usize = FRAMING_PLACE + 1;

// The byte of a message as it stands in a packet.
fn message_byte(message: u8) -> u8
    ensures { result ≡ message_byte message }
{
    coding::turned(coding::sent_message(message))
}

// The byte of a character as it stands in a packet.
fn character_byte(code: u8) -> u8
    ensures { result ≡ character_byte code }
{
    coding::turned(coding::sent_character(code))
}

// An address's two bytes: magazine 8 is 0 in its three bits.
pub fn address_bytes(magazine: u8, row: u8) -> [u8; ADDRESS_LENGTH]
    ensures { result ≡ address_bytes magazine row }
{
    let first = message_byte(magazine % 8 + 8 * (row % 2));
    let second = message_byte(row / 2);
    [first, second]
}

// A header's eight messages in the order in which they are sent.
fn control_messages(header: Header) -> [u8; MESSAGES]
    ensures { result ≡ control_messages header }
{
    let c4 = (header.control / C4_WEIGHT % 2) as u8;
    let c5 = (header.control / 512 % 2) as u8;
    let c6 = (header.control / 256 % 2) as u8;
    let c7_to_c10 = crate::reversed((header.control / 16 % 16) as u8) as u8;
    let c11_to_c14 = crate::reversed((header.control % 16) as u8) as u8;
    [
        header.units,
        header.tens,
        header.minutes_units,
        header.minutes_tens % 8 + 8 * c4,
        header.hours_units,
        header.hours_tens % 4 + 4 * c5 + 8 * c6,
        c7_to_c10,
        c11_to_c14,
    ]
}

// A header's ten bytes: its address is row 0's.
pub fn header_bytes(magazine: u8, header: Header) -> [u8; HEADER_LENGTH]
    ensures { result ≡ header_bytes magazine header }
{
    let messages = control_messages(header);
    let mut bytes = [0; HEADER_LENGTH];
    bytes[..ADDRESS_LENGTH].copy_from_slice(&address_bytes(magazine, 0));
    for at in 0..MESSAGES {
        bytes[ADDRESS_LENGTH + at] = message_byte(messages[at]);
    }
    bytes
}

// The packet of a row with forty characters.
pub fn row_packet(magazine: u8, row: u8, characters: [u8; COLUMNS]) -> [u8; PACKET_LENGTH]
    ensures { result ≡ row_packet magazine row characters }
{
    let mut packet = [0; PACKET_LENGTH];
    packet[..ADDRESS_LENGTH].copy_from_slice(&address_bytes(magazine, row));
    for column in 0..COLUMNS {
        packet[ADDRESS_LENGTH + column] = character_byte(characters[column]);
    }
    packet
}

// The packet of row 0. Its columns 0 to 7 are not sent: the header's messages are laid over them.
pub fn header_packet(magazine: u8, header: Header, characters: [u8; COLUMNS]) -> [u8; PACKET_LENGTH]
    ensures { result ≡ header_packet magazine header characters }
{
    let mut packet = row_packet(magazine, 0, characters);
    packet[..HEADER_LENGTH].copy_from_slice(&header_bytes(magazine, header));
    packet
}

// The data-line of a packet.
pub fn data_line(packet: [u8; PACKET_LENGTH]) -> [u8; LINE_LENGTH]
    ensures { result ≡ data_line packet }
{
    let mut line = [RUN_IN; LINE_LENGTH];
    line[FRAMING_PLACE] = FRAMING_CODE;
    line[PACKET_PLACE..].copy_from_slice(&packet);
    line
}
