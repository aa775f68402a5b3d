// How many of the Hamming bytes that were examined had one wrong bit, which was mended: of a line, and over some lines.
ghost use Rattle.std.specs.Prelude.{cond, [], ◌∷◌, ◌≡◌, length};
ghost use Rattle.coding.specs.Bits.{turned_byte};
ghost use Rattle.coding.specs.Hamming.{how_many_corrected};
ghost use Rattle.packet.specs.Headers.{control_bytes};
ghost use Rattle.packet.specs.Lines.{packet_length};
ghost use Rattle.receiver.specs.Entries.{answer_paper};
ghost use Rattle.receiver.specs.Mended.{address_pair, brought, brought_by, is_own, mended_in, summed};
ghost use Rattle.receiver.specs.Private.{Holds};

use crate::kinds::Seen;
use crate::{Mended, NONE_MENDED, Refusal, Taken};

// Whether a byte was mended, as a number to be added.
#[tactic(auto, unfolding(coding::specs::Hamming::how_many_corrected))]
fn one_if_mended(byte: u8) -> u8
    ensures { result ≡ how_many_corrected (turned_byte byte ∷ []) }
{
    packet::is_mended(byte) as u8
}

// Of the two bytes of the address, one refused or not.
pub(crate) fn mended_address(packet: &[u8]) -> u8
    requires { length packet.now ≡ packet_length }
    ensures { result ≡ how_many_corrected (address_pair packet.now) }
{
    one_if_mended(packet[0]) + one_if_mended(packet[1])
}

// Of the eight control bytes, also past one that is refused.
fn mended_control(packet: &[u8]) -> u8
    requires { length packet.now ≡ packet_length }
    ensures { result ≡ how_many_corrected (control_bytes packet.now) }
{
    let mut mended: u8 = 0;
    for at in packet::ADDRESS_LENGTH..packet::HEADER_LENGTH {
        mended += one_if_mended(packet[at]);
    }
    mended
}

// Of the bytes that are examined: those of the address, and in our row 0 the control bytes too.
pub(crate) fn mended_bytes(shows: Seen, packet: &[u8]) -> u8
    requires { length packet.now ≡ packet_length }
    ensures { result ≡ mended_in shows packet.now }
{
    let address = mended_address(packet);
    match shows {
        Seen::Another => address,
        Seen::OurRow(_) => address,
        Seen::OurHeader => address + mended_control(packet),
        Seen::Unsure(_) => address,
    }
}

// The mended bytes of a page's own line: its header, kind 2, or one of its rows, kind 1.
#[tactic(auto, unfolding(crate::specs::Mended::is_own))]
fn own_bytes(kind: u8, mended: u8) -> u8
    ensures { result ≡ cond (is_own kind) mended 0 }
{
    if (kind == 1) | (kind == 2) { mended } else { 0 }
}

// What a line of a kind adds.
#[tactic(auto, unfolding(crate::specs::Mended::brought))]
fn brought_by(kind: u8, mended: u8) -> Mended
    ensures { result ≡ brought kind mended }
{
    Mended {
        bytes: mended as usize,
        lines: (mended != 0) as usize,
        own: own_bytes(kind, mended) as usize,
    }
}

// The mended bytes of some lines, and of one line more.
pub(crate) fn with_line(so: Mended, kind: u8, mended: u8) -> Mended
    requires { Holds so mended }
    ensures { result ≡ summed so (brought kind mended) }
{
    let more = brought_by(kind, mended);
    Mended {
        bytes: so.bytes + more.bytes,
        lines: so.lines + more.lines,
        own: so.own + more.own,
    }
}

// What a line adds to the mended bytes of some lines, by its answer.
#[tactic(auto, unfolding(crate::specs::Mended::brought_by, crate::specs::Entries::answer_paper))]
pub fn mended_of(answer: Result<Taken, Refusal>) -> Mended
    ensures { result ≡ brought_by (answer_paper answer) }
{
    match answer {
        Ok(taken) => brought_by(taken.kind, taken.mended),
        Err(_) => NONE_MENDED,
    }
}
