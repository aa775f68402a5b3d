// The receiver lent: the entry that takes the day's receiver where it lies and alters it there. It is thin: a line does to it what the by-value entry
// `receiver::take_line` says.
#![tactic(auto)]

ghost use Rattle.receiver.specs.Entries.{Meets, line_entered};
ghost use Rattle.lent.specs.Lent.{together};

use receiver::{Receiver, Refusal, Stepped, Taken};

// A data-line of 45 bytes, for a receiver that is lent.
pub fn take_line(receiver: &mut Receiver, line: &[u8], record: &mut [u8]) -> Result<Taken, Refusal>
    ensures { Meets (line_entered receiver.old line.now «record».old) (together receiver.new result) «record».new }
{
    let stepped = receiver::take_line(*receiver, line, record);
    *receiver = stepped.receiver;
    stepped.answer
}

// The same for a caller that has the receiver by value, by way of the lent entry: so the gate's programs hold the two entries to one another.
pub fn take_line_through(receiver: Receiver, line: &[u8], record: &mut [u8]) -> Stepped
    ensures { Meets (line_entered receiver line.now «record».old) result «record».new }
{
    let mut state = receiver;
    let answer = take_line(&mut state, line, record);
    Stepped {
        receiver: state,
        answer,
    }
}
