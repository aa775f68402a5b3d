// What 18 and 12 ask of a receiver that is handed in, and of the lent record's length; then what 10 and 11 ask of a packet or a line.
ghost use Rattle.std.specs.Prelude.{◌≡◌};
ghost use Rattle.receiver.specs.Entries.{lawful, state_lawful};
ghost use Rattle.receiver.specs.Private.{asked_of, both_lawful, line_asked, packet_asked, refusal_of};

use crate::selecting::{in_range, is_selected};
use crate::{Receiver, Refusal};
use packet::{LineError, ZERO_HEADER};
use page::Cells;

impl From<LineError> for Refusal {
    ghost from_gives = { λ error reason. reason ≡ refusal_of error };

    #[tactic(auto, unfolding(crate::specs::Private::refusal_of))]
    fn from(error: LineError) -> Refusal {
        match error {
            LineError::WrongLength => Refusal::WrongLength,
            LineError::WrongFraming => Refusal::WrongFraming,
        }
    }
}

// Whether the header of a receiver is as it must be: that of the selected page where one is open, and zero with no doubt where none is.
fn state_lawful(receiver: &Receiver) -> bool
    ensures { result ≡ state_lawful receiver.now }
{
    if receiver.open {
        return is_selected(receiver.selection, receiver.header);
    }
    !receiver.doubt & (receiver.header == ZERO_HEADER)
}

fn cells_lawful(cells: &Cells) -> bool
    ensures { result ≡ both_lawful cells.now }
{
    page::check_cells(&cells.characters, &cells.marks).is_ok()
}

// Whether 18 has nothing against a receiver.
fn is_lawful(receiver: &Receiver) -> bool
    ensures { result ≡ lawful receiver.now }
{
    in_range(receiver.selection)
        & state_lawful(receiver)
        & page::header_fits(receiver.header)
        & cells_lawful(&receiver.cells)
}

// 18, then 12, of a receiver and the length of the lent record.
#[tactic(auto, unfolding(crate::specs::Private::asked_of))]
pub(crate) fn asked(receiver: &Receiver, room: usize) -> Result<(), Refusal>
    ensures { result ≡ asked_of receiver.now room }
{
    if !is_lawful(receiver) {
        return Err(Refusal::Unlawful);
    }
    if room < Receiver::RECORD_LENGTH {
        return Err(Refusal::ShortRecord);
    }
    Ok(())
}

// 10: whether a packet is 42 bytes.
#[tactic(auto, unfolding(crate::specs::Private::packet_asked))]
pub(crate) fn packet_asked(packet: &[u8]) -> Result<(), Refusal>
    ensures { result ≡ packet_asked packet.now }
{
    if packet.len() != packet::PACKET_LENGTH {
        return Err(Refusal::WrongLength);
    }
    Ok(())
}

// 10, then 11: whether a line is 45 bytes and its framing code passes.
pub(crate) fn line_asked(line: &[u8]) -> Result<(), Refusal>
    ensures { result ≡ line_asked line.now }
{
    packet::framed_line(line)?;
    Ok(())
}
