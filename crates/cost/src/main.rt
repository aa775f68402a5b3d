// Does one piece of work on lines, or on pages printed, so many times, for its instructions to be counted (bench/count): between two counts start-up falls out. Standard input has the work's
// letter and two parts, as a case has them: two bytes with the count, and what the work is done on. What each turn gives is mixed into a byte that is written at the
// end, so that no turn can be left out.
#![tactic(auto)]

ghost use Rattle.std.specs.Prelude.{◌≡◌, ◌*◌, length};
ghost use Rattle.packet.specs.Lines.{line_length};

use grid::CELLS;
use packet::LINE_LENGTH;
use page::RECORD_LENGTH;
use printing::{PAGE, UTF8_PAGE};
use receiver::{Mended, OutOfRange, Receiver, Refusal, Selection, Stepped, Taken, When};

// Lines are taken two in turn.
const PAIR: usize = 2 * LINE_LENGTH;

fn number_of(answer: Result<Taken, Refusal>) -> u8 {
    match answer {
        Ok(taken) => {
            let closing = taken.closing.map_or(0, |closing| closing as u8 * 64);
            taken.kind ^ taken.count ^ closing ^ taken.mended
        }
        Err(refusal) => refusal.number(),
    }
}

fn mended_number(mended: Mended) -> u8 {
    (mended.bytes % 256) as u8 ^ (mended.lines % 256) as u8 ^ (mended.own % 256) as u8
}

// A character of what a turn gave, another one at each turn.
fn character_at(receiver: &Receiver, turn: usize) -> u8 {
    receiver.cells.characters[turn % CELLS]
}

// Lines taken by an entry. The receiver of a turn goes on to the next, or every turn starts from the same.
fn by_entry<F: Fn(Receiver, &[u8], &mut [u8]) -> Stepped>(
    entry: F,
    receiver: Receiver,
    lines: &[u8],
    carried: bool,
    count: usize,
    record: &mut [u8],
) -> u8
    requires callable { F.IsAlwaysCallable entry }
    requires pair { length lines.now ≡ 2 * line_length }
{
    let mut current = receiver;
    let mut sum: u8 = 0;
    for turn in 0..count {
        let from = turn % 2 * LINE_LENGTH;
        let stepped = entry(current, &lines[from..from + LINE_LENGTH], record);
        sum ^= number_of(stepped.answer) ^ character_at(&stepped.receiver, turn);
        if carried {
            current = stepped.receiver;
        }
    }
    sum
}

// A recording of all lines, played so many times.
fn by_recording(
    receiver: Receiver,
    lines: &[u8],
    carried: bool,
    count: usize,
    record: &mut [u8],
) -> u8 {
    let mut current = receiver;
    let mut sum: u8 = 0;
    for turn in 0..count {
        let recorded = receiver::take_recording(current, lines, record);
        sum ^= (recorded.used % 256) as u8
            ^ mended_number(recorded.mended)
            ^ character_at(&recorded.receiver, turn);
        if carried {
            current = recorded.receiver;
        }
    }
    sum
}

// A receiver of page 100 that has taken a line; an empty one leaves it with no page open.
fn first_receiver(line: &[u8], record: &mut [u8]) -> Result<Receiver, OutOfRange> {
    let receiver = Receiver::new(Selection {
        magazine: 1,
        tens: 0,
        units: 0,
        when: When::Any,
    })?;
    Ok(receiver::take_line(receiver, line, record).receiver)
}

fn taken(work: u8, receiver: Receiver, lines: &[u8], carried: bool, count: usize) -> u8 {
    let mut record = [0u8; RECORD_LENGTH];
    if work == b'r' {
        return by_recording(receiver, lines, carried, count, &mut record);
    }
    if lines.len() != PAIR {
        return 0;
    }
    if work == b'm' {
        let entry = lent::take_line_through;
        return by_entry(entry, receiver, lines, carried, count, &mut record);
    }
    let entry = receiver::take_line;
    by_entry(entry, receiver, lines, carried, count, &mut record)
}

// Works l, m and r on lines: whether the receiver is carried, the length of a line that is taken first, that line, and the lines.
fn lines_taken(work: u8, input: &[u8], count: usize) -> u8 {
    let size = cases::byte_at(input, 1) as usize;
    let mut record = [0u8; RECORD_LENGTH];
    let carried = cases::byte_at(input, 0) == 1;
    match first_receiver(cases::start(cases::rest(input, 2), size), &mut record) {
        Ok(receiver) => taken(work, receiver, cases::rest(input, 2 + size), carried, count),
        Err(OutOfRange) => 0,
    }
}

// Work a: a page is printed. One that is refused gives zeros.
fn pages_printed(codes: &[u8], count: usize) -> u8 {
    let mut sum: u8 = 0;
    for turn in 0..count {
        if let Ok(text) = printing::printed_page(codes) {
            sum ^= text[turn % PAGE];
        }
    }
    sum
}

fn pages_spelled(codes: &[u8], control: u16, count: usize) -> u8 {
    let mut sum: u8 = 0;
    for turn in 0..count {
        if let Ok(page) = printing::utf8_page(codes, control) {
            sum ^= page.text.bytes[turn % UTF8_PAGE] ^ (page.text.used % 256) as u8;
        }
    }
    sum
}

// Work u: a page is printed in UTF-8: its control bits, and its codes.
fn page_spelled(input: &[u8], count: usize) -> u8 {
    pages_spelled(cases::rest(input, 2), cases::double(input), count)
}

fn done(work: u8, input: &[u8], count: usize) -> u8 {
    match work {
        b'a' => pages_printed(input, count),
        b'u' => page_spelled(input, count),
        _ => lines_taken(work, input, count),
    }
}

fn main(rt: HostRuntime) {
    let mut room = [0u8; cases::LONGEST];
    let (work, count, input) = cases::next_work(&rt, &mut room);
    cases::put_byte(&rt, done(work, input, count));
}
