// What the gate's programs that answer cases share: cases come on standard input and answers go to standard output, as bytes; tests/model/FORMAT.md has the
// form of both. What lies past the end of a case is read as zeros and as empty parts, so that no program has a condition on its cases. No contract can say what
// is read or written, so the functions that do that promise nothing.
#![tactic(auto)]

ghost use Rattle.std.specs.Prelude.{◌≡◌, ◌+◌, ◌*◌, drop, get_or, take};
ghost use Rattle.cases.specs.Forms.{header_bytes, header_of};

use packet::Header;

// The longest part of a case, by the two bytes of its length.
pub const LONGEST: usize = 65535;

// The bytes of a page header's form.
pub const HEADER_LENGTH: usize = 8;

// The sort that stands for the end of the cases.
pub const END: u8 = 0;

pub fn byte_at(bytes: &[u8], at: usize) -> u8
    ensures { result ≡ get_or bytes.now at 0 }
{
    bytes.get(at).copied().unwrap_or(0)
}

// The number of the first two bytes.
pub fn double(bytes: &[u8]) -> u16
    ensures { result ≡ get_or bytes.now 0 0 * 256 + get_or bytes.now 1 0 }
{
    u16::from_be_bytes([byte_at(bytes, 0), byte_at(bytes, 1)])
}

// All but the first so many bytes.
pub fn rest(bytes: &[u8], from: usize) -> &[u8]
    ensures { result.now ≡ drop from bytes.now }
{
    bytes.get(from..).unwrap_or(&[])
}

// The first so many bytes.
pub fn start(bytes: &[u8], count: usize) -> &[u8]
    ensures { result.now ≡ take count bytes.now }
{
    &bytes[..count.min(bytes.len())]
}

// A page header's numbers, in the order of the page record: six of a byte, and the control bits in two.
#[tactic(auto, unfolding(crate::specs::Forms::header_of))]
pub fn header_of(form: &[u8]) -> Header
    ensures { result ≡ header_of form.now }
{
    Header {
        tens: byte_at(form, 0),
        units: byte_at(form, 1),
        hours_tens: byte_at(form, 2),
        hours_units: byte_at(form, 3),
        minutes_tens: byte_at(form, 4),
        minutes_units: byte_at(form, 5),
        control: u16::from_be_bytes([byte_at(form, 6), byte_at(form, 7)]),
    }
}

// The bytes of that form.
#[tactic(auto, unfolding(crate::specs::Forms::header_bytes))]
pub fn header_bytes(header: Header) -> [u8; HEADER_LENGTH]
    ensures { result ≡ header_bytes header }
{
    let [high, low] = header.control.to_be_bytes();
    [
        header.tens,
        header.units,
        header.hours_tens,
        header.hours_units,
        header.minutes_tens,
        header.minutes_units,
        high,
        low,
    ]
}

pub fn put(rt: &(impl Print + Eprint), bytes: &[u8]) {
    let _ = console::say(rt, bytes);
}

pub fn put_byte(rt: &(impl Print + Eprint), byte: u8) {
    put(rt, &[byte]);
}

// The next piece of work: its letter, how often it is to be done, and what it is done on.
pub fn next_work<'a>(rt: &(impl Input + Eprint), room: &'a mut [u8]) -> (u8, usize, &'a mut [u8]) {
    let work = next_sort(rt);
    let count = double(next_part(rt, room)) as usize;
    (work, count, next_part(rt, room))
}

// The sort of the next case, or `END`.
pub fn next_sort(rt: &(impl Input + Eprint)) -> u8 {
    let mut sort = [END];
    console::read_all(rt, &mut sort);
    sort[0]
}

fn fill(rt: &(impl Input + Eprint), room: &mut [u8]) {
    let size = room.len();
    if console::read_all(rt, room) < size {
        console::complain(rt, b"a case is cut short\n");
    }
}

// The next part of a case, which is put at the start of a room of the longest part's size: two bytes with its length, and so many bytes.
pub fn next_part<'a>(rt: &(impl Input + Eprint), room: &'a mut [u8]) -> &'a mut [u8] {
    let mut length = [0u8; 2];
    fill(rt, &mut length);
    let count = double(&length) as usize;
    if count <= room.len() {
        let part = &mut room[..count];
        fill(rt, part);
        return part;
    }
    room
}
