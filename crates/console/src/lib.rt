// Standard input, standard output and standard error, for all programs: the end of the input and a failed read are told apart, and what fails is said on
// standard error. What is read or written is no part of a contract.
#![tactic(auto)]

ghost use Rattle.console.specs.Read.{IsPrefixLen, Read, ReadBehind};

use std::fmt::{Display, Formatter};
use std::io::{Error, ErrorKind, Write};
use std::{fmt, str};

// A read that a signal cuts short is done again, so many times.
const TRIES: usize = 64;

// Room for an error's text: the system's reason, and its number behind it.
const ROOM: usize = 256;

// Why a read gave no bytes.
#[derive(Clone, Copy, PartialEq, Eq)]
pub enum Stop {
    End,
    // Standard error says why.
    Failed,
}

// A write failed: standard error says why.
#[derive(Clone, Copy, PartialEq, Eq)]
pub struct Failed;

// The system's reason alone, where std writes a number behind it, as in "Is a directory (os error 21)".
#[derive(Drop)]
struct Reason(Error);

impl Display for Reason {
    fn fmt<W: fmt::Write>(&self, f: &mut Formatter<W>) -> fmt::Result {
        let mut room = [0u8; ROOM];
        let _ = write!(&mut room[..], "{}", self.0);
        let text = str::from_utf8(&room).unwrap_or("");
        let reason = match text.rsplit_once(" (os error ") {
            Some((reason, _)) => reason,
            None => text.trim_end_matches('\0'),
        };
        f.write_str(reason)
    }
}

// Says on standard error what failed and why.
fn fail(rt: &impl Eprint, what: &str, error: Error) {
    let reason = Reason(error);
    let _ = rt.eprintln(format_args!("{what}: {reason}"));
}

fn read_some(rt: &(impl Input + Eprint), buffer: &mut [u8]) -> Result<usize, Stop>
    ensures { Read result buffer.new }
{
    let mut reader = rt.reader();
    for _ in 0..TRIES {
        match std::io::Read::read(&mut reader, buffer) {
            Ok(0) => return Err(Stop::End),
            Ok(count) => return Ok(count),
            Err(error) => {
                if error.kind() != ErrorKind::Interrupted {
                    fail(rt, "standard input", error);
                    return Err(Stop::Failed);
                }
            }
        }
    }
    fail(rt, "standard input", Error::from(ErrorKind::Interrupted));
    Err(Stop::Failed)
}

// Reads some bytes into the buffer from a place on, as many as are there: it waits for the first alone. It gives none only where the buffer
// had no room for them. What lies before the place is as it was.
pub fn read_behind(
    rt: &(impl Input + Eprint),
    buffer: &mut [u8],
    place: usize,
) -> Result<usize, Stop>
    ensures { ReadBehind result place buffer.old buffer.new }
{
    if place >= buffer.len() {
        return Ok(0);
    }
    read_some(rt, &mut buffer[place..])
}

// Reads until the buffer is full, or the input ends or fails, and answers how many bytes were read.
pub fn read_all(rt: &(impl Input + Eprint), buffer: &mut [u8]) -> usize
    ensures { IsPrefixLen result buffer.new }
{
    let mut count = 0;
    while count < buffer.len() {
        let Ok(more) = read_behind(rt, buffer, count) else {
            return count;
        };
        count += more;
    }
    count
}

// Writes a text to standard output; where that fails, standard error says why.
pub fn say(rt: &(impl Print + Eprint), text: &[u8]) -> Result<(), Failed> {
    if let Err(error) = rt.write_all(text) {
        fail(rt, "standard output", error);
        return Err(Failed);
    }
    Ok(())
}

// Writes to standard error.
pub fn complain(rt: &impl Eprint, text: &[u8]) {
    for chunk in text.utf8_chunks() {
        let _ = rt.eprint(chunk.valid());
        if !chunk.invalid().is_empty() {
            let _ = rt.eprint('\u{FFFD}');
        }
    }
}

pub fn complain_number(rt: &impl Eprint, number: u64) {
    let _ = rt.eprint(number);
}
