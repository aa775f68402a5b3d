// Data-lines end to end, played to a receiver where it lies.
ghost use Rattle.std.specs.Prelude.{◌≡◌, is_some, min};
ghost use Rattle.packet.specs.Lines.{line_length};
ghost use Rattle.receiver.specs.Private.{Ready, recorded_of};
ghost use Rattle.receiver.specs.Recordings.{PlaysAs, played};

use crate::asking::line_asked;
use crate::effects::{follow, taken_of};
use crate::kinds::{Seen, seen_of};
use crate::mending::{mended_address, mended_bytes, with_line};
use crate::{Mended, NONE_MENDED, Receiver, Refusal, Taken};
use packet::LINE_LENGTH;

// How playing ended: the lines used, the bytes mended in them, and the answer that it stopped at, or none at the end.
#[derive(Clone, Copy)]
pub(crate) struct Ended {
    pub(crate) used: usize,
    pub(crate) mended: Mended,
    pub(crate) answer: Option<Result<Taken, Refusal>>,
}

// Lines end to end, for a receiver that is known to be lawful and a record that is long enough. Of a line of another's, which is
// of kind 0, only the address is looked at.
pub(crate) fn play(receiver: &mut Receiver, recording: &[u8], record: &mut [u8]) -> Ended
    requires { Ready receiver.old «record».old }
    ensures { PlaysAs (played receiver.old recording.now «record».old) (recorded_of receiver.new result) «record».new }
{
    let ours = receiver.selection.magazine;
    let mut used = 0;
    let mut mended = NONE_MENDED;
    for line in recording.chunks(LINE_LENGTH) {
        used += 1;
        if let Err(refusal) = line_asked(line) {
            return Ended {
                used,
                mended,
                answer: Some(Err(refusal)),
            };
        }
        let packet = packet::packet_of(line);
        let shows = seen_of(ours, packet);
        if let Seen::Another = shows {
            mended = with_line(mended, 0, mended_address(packet));
            continue;
        }
        let in_line = mended_bytes(shows, packet);
        let done = follow(receiver, shows, packet, record);
        mended = with_line(mended, done.kind, in_line);
        if done.closing.is_some() {
            return Ended {
                used,
                mended,
                answer: Some(Ok(taken_of(done, in_line))),
            };
        }
    }
    Ended {
        used,
        mended,
        answer: None,
    }
}
