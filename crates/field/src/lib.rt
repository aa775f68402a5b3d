// A data field: the unit at a place, of any id, and the search for a teletext unit. Bytes are read as they stand, and places count from the
// field's start, where the identifier stands.
#![tactic(auto)]

ghost use Rattle.std.specs.Prelude.{false, ◌≡◌, ◌+◌, ◌≤◌, ◌<◌, length};
ghost use Rattle.field.specs.Field.{after_at, any_unit_paper, here, high, known, length_at, low, no_field, start, teletext_id, unit_answer, unit_at, wrong_length};
ghost use Rattle.field.specs.Search.{found_paper, line_passes, offset_passes, searched, step};
ghost use Rattle.field.specs.Private.{after_teletext, entry_told, line_step, look_told, start_told, step_told};

use std::ops::ControlFlow;

// A whole unit, with its id, its length and the place after it.
#[derive(Clone, Copy)]
pub struct WholeUnit {
    pub id: u8,
    pub length: u8,
    pub after: usize,
}

// A packet that a search found, with its place, its field parity, its line offset and the place after its unit.
#[derive(Clone, Copy)]
pub struct Found {
    pub packet: usize,
    pub parity: u8,
    pub offset: u8,
    pub after: usize,
}

// Why a field is refused, at a place.
#[derive(Clone, Copy, PartialEq, Eq)]
pub enum FieldError {
    // 14
    NoField,
    // 17
    PastField,
    // 15, with the unit's place
    Short(usize),
    // 16, with the unit's place
    WrongLength(usize),
}

// The length of every unit under the identifiers 10 to 1F, and of every teletext unit.
const LENGTH: u8 = 44;

// What stands before a unit's bytes, id and length; and where a teletext unit has the byte of its line, its framing code and its packet.
const HEAD: usize = 2;

const LINE: usize = HEAD;

const FRAMING: usize = LINE + 1;

const PACKET: usize = FRAMING + 1;

fn is_low(identifier: u8) -> bool
    ensures { result ≡ low identifier }
{
    (identifier >= 0x10) & (identifier <= 0x1F)
}

fn is_high(identifier: u8) -> bool
    ensures { result ≡ high identifier }
{
    (identifier >= 0x99) & (identifier <= 0x9B)
}

fn is_known(identifier: u8) -> bool
    ensures { result ≡ known identifier }
{
    is_low(identifier) | is_high(identifier)
}

fn is_teletext(id: u8) -> bool
    ensures { result ≡ teletext_id id }
{
    (id == 0x02) | (id == 0x03)
}

fn offset_passes(offset: u8) -> bool
    ensures { result ≡ offset_passes offset }
{
    (offset == 0) | (offset >= 7) & (offset <= 22)
}

fn is_wrong_length(identifier: u8, id: u8, length: u8) -> bool
    ensures { result ≡ wrong_length identifier id length }
{
    if length == LENGTH {
        return false;
    }
    is_low(identifier) | is_high(identifier) & (is_teletext(id) | (id == 0xC0))
}

// Where a walk starts: 14, then 17, and place 0 as the first unit's.
fn entry(field: &[u8], place: usize) -> Result<usize, FieldError>
    ensures { entry_told result ≡ start_told (start field.now place) }
{
    if field.len() == 0 {
        return Err(FieldError::NoField);
    }
    if !is_known(field[0]) {
        return Err(FieldError::NoField);
    }
    if place > field.len() {
        return Err(FieldError::PastField);
    }
    if place == 0 {
        return Ok(1);
    }
    Ok(place)
}

fn length_at(field: &[u8], place: usize) -> u8
    requires { place + 1 < length field.now }
    ensures { result ≡ length_at field.now place }
{
    field[place + 1]
}

// The unit at a place of the field, or none at its end: 15, also where the length byte is missing, then 16. It is what is left of the field that is compared, so that no sum can wrap.
fn unit_here(field: &[u8], place: usize) -> Result<Option<WholeUnit>, FieldError>
    requires { place ≤ length field.now }
    ensures { any_unit_paper result ≡ unit_answer field.now place (here field.now place) }
{
    let left = field.len() - place;
    if left < HEAD {
        if left == 0 {
            return Ok(None);
        }
        return Err(FieldError::Short(place));
    }
    let id = field[place];
    let length = length_at(field, place);
    let bytes = length as usize + HEAD;
    if left < bytes {
        return Err(FieldError::Short(place));
    }
    if is_wrong_length(field[0], id, length) {
        return Err(FieldError::WrongLength(place));
    }
    let after = place + bytes;
    Ok(Some(WholeUnit { id, length, after }))
}

// The unit at a place, of any id, or none at the field's end.
pub fn unit_at(field: &[u8], place: usize) -> Result<Option<WholeUnit>, FieldError>
    ensures { any_unit_paper result ≡ unit_at field.now place }
{
    let first = entry(field, place)?;
    unit_here(field, first)
}

// Whether the offset and the framing code of a whole teletext unit pass.
fn line_passes(field: &[u8], place: usize) -> bool
    requires { after_teletext place ≤ length field.now }
    ensures { result ≡ line_passes field.now place }
{
    offset_passes(field[place + LINE] % 32) & coding::framing_passes(field[place + FRAMING])
}

// What is made of one unit of a walk: the search's answer, or the place to go on at.
type Look = ControlFlow<Result<Option<Found>, FieldError>, usize>;

// A whole unit of a teletext id: its packet, or the next place where its line does not pass.
fn look_at_line(field: &[u8], place: usize, next: usize) -> Look
    requires { (after_teletext place ≤ length field.now) × (next ≡ after_at field.now place) }
    ensures { look_told result ≡ step_told field.now (line_step field.now place) }
{
    if !line_passes(field, place) {
        return ControlFlow::Continue(next);
    }
    let line = field[place + LINE];
    let packet = place + PACKET;
    let found = Found {
        packet,
        parity: line / 32 % 2,
        offset: line % 32,
        after: next,
    };
    ControlFlow::Break(Ok(Some(found)))
}

// One unit of a walk.
fn look_at(field: &[u8], place: usize) -> Look
    requires { (place ≤ length field.now) × (no_field field.now ≡ false) }
    ensures { look_told result ≡ step_told field.now (step field.now place) }
{
    match unit_here(field, place) {
        Ok(Some(unit)) => {
            if is_teletext(unit.id) {
                look_at_line(field, place, unit.after)
            } else {
                ControlFlow::Continue(unit.after)
            }
        }
        Ok(None) => ControlFlow::Break(Ok(None)),
        Err(error) => ControlFlow::Break(Err(error)),
    }
}

// The first teletext unit from a place on, or none.
pub fn search(field: &[u8], place: usize) -> Result<Option<Found>, FieldError>
    ensures { found_paper result ≡ searched field.now place }
{
    let mut at = entry(field, place)?;
    loop {
        match look_at(field, at) {
            ControlFlow::Break(answer) => break answer,
            ControlFlow::Continue(after) => at = after,
        }
    }
}
