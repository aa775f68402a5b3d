// The unit lister: lists the units of the data field on standard input, one to a line, and how the field ends. What is printed is what
// `listed` says of the field (crate `listing`).
#![tactic(auto)]

ghost use Rattle.std.specs.Prelude.{◌≡◌, ◌+◌, ◌≤◌, IfOk, length, take, drop};
ghost use Rattle.listing.specs.Lines.{listed, most};

use console::Failed;

// One byte more than a field may have, by which a longer one is known.
const LIMIT: usize = listing::MOST + 1;

// Prints a line. The field and how much of its listing was printed are there for the promise alone: that the line is the part of the listing that
// comes next.
fn print(
    rt: &(impl Print + Eprint),
    line: &[u8],
    field: &[u8],
    printed: usize,
) -> Result<(), Failed>
    requires { line.now ≡ take (length line.now) (drop printed (listed field.now)) }
{
    console::say(rt, line)
}

// Prints the whole listing of a field, and says how many bytes it has. A write that fails ends the listing.
fn list(rt: &(impl Print + Eprint), field: &[u8]) -> Result<usize, Failed>
    requires { length field.now ≤ most + 1 }
    ensures { IfOk result (λ count. count ≡ length (listed field.now)) }
{
    let mut place = 0;
    let mut count = 0;
    loop {
        let step = listing::line_at(field, place);
        let line = step.line.as_bytes();
        if print(rt, line, field, count).is_err() {
            return Err(Failed);
        }
        count += line.len();
        let Some(after) = step.next else {
            return Ok(count);
        };
        place = after;
    }
}

fn main(rt: HostRuntime) {
    let mut input = [0u8; LIMIT];
    let count = console::read_all(&rt, &mut input);
    let _ = list(&rt, &input[..count]);
}
