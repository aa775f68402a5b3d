// The table of kinds: what the address of a packet shows, and what is to be done with its line.
ghost use Rattle.std.specs.Prelude.{◌≡◌, ◌≤◌, length};
ghost use Rattle.coding.specs.Bits.{turned_byte};
ghost use Rattle.coding.specs.Hamming.{message};
ghost use Rattle.packet.specs.Addresses.{address_of};
ghost use Rattle.packet.specs.Headers.{header_of};
ghost use Rattle.packet.specs.Lines.{packet_length};
ghost use Rattle.receiver.specs.Kinds.{effect_of, header_effect, seen, seen_ours};
ghost use Rattle.receiver.specs.Private.{seen_with, seen_without};

use crate::Selection;
use crate::selecting::is_selected;
use grid::LAST_ROW;
use packet::{Header, HeaderError};

// What the address of a packet shows of its line.
#[derive(Clone, Copy)]
pub(crate) enum Seen {
    // Another magazine's, or a row past the last.
    Another,
    // Our row 1 to the last that carries characters.
    OurRow(u8),
    // Our row 0.
    OurHeader,
    // An address message is refused and the line may be ours: whether it could have been row 0.
    Unsure(bool),
}

// What is to be done with a line.
#[derive(Clone, Copy)]
pub(crate) enum Effect {
    Nothing,
    // A row is stored.
    Store(u8),
    // The page is closed, and one with this header opened.
    Open(Header),
    // The page is closed; the line's kind.
    Close(u8),
    // The page is put in doubt, and closed if the line could have been row 0.
    Doubt(bool),
}

// The least second address message both of whose rows lie past the last one.
const FIRST_HARMLESS: u8 = LAST_ROW / 2 + 1;

// A row of our magazine.
#[tactic(auto, unfolding(crate::specs::Kinds::seen_ours))]
fn our_row(row: u8) -> Seen
    ensures { result ≡ seen_ours row }
{
    if row == 0 {
        return Seen::OurHeader;
    }
    if row <= LAST_ROW {
        Seen::OurRow(row)
    } else {
        Seen::Another
    }
}

// The first message is good and ours, and has row weight 1: what the second adds.
fn seen_with(weight1: u8, byte: u8) -> Seen
    requires { weight1 ≤ 1 }
    ensures { result ≡ seen_with weight1 (message (turned_byte byte)) }
{
    match packet::message_at(byte) {
        Some(second) => our_row(weight1 + 2 * second),
        None => Seen::Unsure(weight1 == 0),
    }
}

// The first message is refused: what the second shows alone.
fn seen_without(byte: u8) -> Seen
    ensures { result ≡ seen_without (message (turned_byte byte)) }
{
    match packet::message_at(byte) {
        Some(second) => {
            if second >= FIRST_HARMLESS {
                Seen::Another
            } else {
                Seen::Unsure(second == 0)
            }
        }
        None => Seen::Unsure(true),
    }
}

// What the address of a packet shows. Most lines are another magazine's, and there the second message is not looked at.
pub(crate) fn seen_of(ours: u8, packet: &[u8]) -> Seen
    requires { (1 ≤ ours) × (ours ≤ 8) × (length packet.now ≡ packet_length) }
    ensures { result ≡ seen ours (address_of packet.now) }
{
    match packet::message_at(packet[0]) {
        Some(first) => {
            if first % 8 != ours % 8 {
                return Seen::Another;
            }
            seen_with(first / 8, packet[1])
        }
        None => seen_without(packet[1]),
    }
}

// Our row 0: kinds 2, 3 and 5.
fn header_effect(selection: Selection, packet: &[u8]) -> Effect
    ensures { result ≡ header_effect selection (header_of packet.now) }
{
    match packet::header_of(packet) {
        Ok(header) => {
            if is_selected(selection, header) {
                Effect::Open(header)
            } else {
                Effect::Close(3)
            }
        }
        Err(HeaderError::Spoiled) => Effect::Close(5),
        Err(HeaderError::WrongLength) => Effect::Nothing,
    }
}

// What is to be done with a line, by what its address shows: a row is stored only where a page is open.
#[tactic(auto, unfolding(crate::specs::Kinds::effect_of))]
pub(crate) fn effect_of(selection: Selection, is_open: bool, shows: Seen, packet: &[u8]) -> Effect
    ensures { result ≡ effect_of selection is_open shows (header_of packet.now) }
{
    match shows {
        Seen::Another => Effect::Nothing,
        Seen::OurRow(row) => {
            if is_open {
                Effect::Store(row)
            } else {
                Effect::Nothing
            }
        }
        Seen::OurHeader => header_effect(selection, packet),
        Seen::Unsure(could_be_header) => Effect::Doubt(could_be_header),
    }
}
