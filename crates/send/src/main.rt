// The sending program: a page's record on standard input, the rows that are wanted as its argument, "1-5,20", or none for all. It writes the data-lines of one
// transmission, and then the line that ends the page, so that a receiver closes it.
#![tactic(auto)]

ghost use Rattle.std.specs.Prelude.{◌≡◌, [], ◌++◌, ◌≤◌, length};
ghost use Rattle.packet.specs.Lines.{line_length};
ghost use Rattle.send.specs.Written.{complaint, output, room};

use choosing::CHOICES;
use packet::LINE_LENGTH;
use page::RECORD_LENGTH;
use sending::LONGEST;
use std::env::{Env, FillError};

// One byte more than a record has, by which a longer one is known.
const LIMIT: usize = RECORD_LENGTH + 1;

// Longer arguments are taken for none that names rows.
const ARGUMENT: usize = 256;

// Writes the lines, and behind them the closing one, and answers how many bytes that are. The record and the rows are there for the promise alone: that these are all
// that is to be written for them.
fn print(
    rt: &(impl Print + Eprint),
    lines: &[u8],
    closing: &[u8],
    record: &[u8],
    wanted: [bool; CHOICES],
) -> usize
    requires { (lines.now ++ closing.now ≡ output «record».now wanted) × (length lines.now ≤ length room) × (length closing.now ≡ line_length) }
    ensures { result ≡ length (output «record».now wanted) }
{
    if console::say(rt, lines).is_ok() {
        let _ = console::say(rt, closing);
    }
    lines.len() + closing.len()
}

// Says a refusal: nothing is written then. The record and the rows are there for the promise alone.
fn refuse(rt: &impl Eprint, text: &[u8], record: &[u8], wanted: [bool; CHOICES]) -> usize
    requires { (text.now ≡ complaint «record».now wanted) × (output «record».now wanted ≡ []) }
    ensures { result ≡ length (output «record».now wanted) }
{
    console::complain(rt, text);
    0
}

// Sends the page of a record, and answers how many bytes were to be written.
fn send(rt: &(impl Print + Eprint), record: &[u8], wanted: [bool; CHOICES]) -> usize
    ensures { result ≡ length (output «record».now wanted) }
{
    let mut room = [0u8; LONGEST];
    match sending::send_page(record, wanted, &mut room) {
        Ok(count) => {
            let closing = sending::closing_line(page::read_record(record).unwrap());
            print(rt, &room[..count * LINE_LENGTH], &closing, record, wanted)
        }
        Err(error) => refuse(rt, &texts::refused_text(error.number()), record, wanted),
    }
}

// Reads the record, and sends it.
fn send_input(rt: &(impl Input + Print + Eprint), wanted: [bool; CHOICES]) {
    let mut input = [0u8; LIMIT];
    let count = console::read_all(rt, &mut input);
    send(rt, &input[..count], wanted);
}

// Sends the rows that an argument names.
fn send_chosen(rt: &(impl Input + Print + Eprint), argument: &[u8]) {
    match choosing::rows_asked(argument) {
        Some(wanted) => send_input(rt, wanted),
        None => console::complain(
            rt,
            b"not rows: give some of 1 to 24, as 1-5,20, or nothing for all\n",
        ),
    }
}

// An argument that is longer than its room is taken for an empty one.
fn main(rt: HostRuntime) {
    let Err(FillError::NotPresent) = rt.arg(2, &mut []) else {
        console::complain(
            &rt,
            b"one argument alone: give the rows, as 1-5,20, or nothing for all\n",
        );
        return;
    };
    let mut argument = [0u8; ARGUMENT];
    match rt.arg(1, &mut argument) {
        Ok(count) => send_chosen(&rt, &argument[..count]),
        Err(FillError::TooLong) => send_chosen(&rt, b""),
        Err(FillError::NotPresent) => send_input(&rt, [true; CHOICES]),
    }
}
