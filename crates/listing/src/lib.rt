// The lines of the unit lister: the text of what stands at a place of a data field, and the place at which the listing goes on.
#![tactic(auto)]

ghost use Rattle.std.specs.Prelude.{[], ◌∷◌, ◌++◌, ◌≡◌, ◌≤◌};
ghost use Rattle.texts.specs.Decimal.{decimal};
ghost use Rattle.field.specs.Field.{asked};
ghost use Rattle.listing.specs.Lines.{refused_word, unit_text, end_text, refused_text, too_long_text, line_at};
ghost use Rattle.listing.specs.Held.{line_of, room, held, listed_paper};
ghost use Rattle.listing.specs.Private.{Written, stopped};

use field::FieldError;
use texts::Text;

// The longest field that is listed.
pub const MOST: usize = 65536;

// Room for any line with its line feed: three numbers of twenty digits, and what stands between them.
pub const ROOM: usize = 64;

// A line, and where the listing goes on.
#[derive(Clone, Copy)]
pub struct Listed {
    pub line: Text<ROOM>,
    pub next: Option<usize>,
}

fn unit_line(place: usize, id: u8, length: u8) -> Text<ROOM>
    ensures { Written result (unit_text place id length) }
{
    let mut line = Text::new();
    line.put_decimal(place as u64);
    line.put(b" ");
    line.put_decimal(id as u64);
    line.put(b" ");
    line.put_decimal(length as u64);
    line.put(b"\n");
    line
}

fn end_line(size: usize) -> Text<ROOM>
    ensures { Written result (end_text size) }
{
    let mut line = Text::new();
    line.put(b"end ");
    line.put_decimal(size as u64);
    line.put(b"\n");
    line
}

fn refused_start(number: u64) -> Text<ROOM>
    ensures { result ≡ line_of (refused_word ++ decimal number) }
{
    let mut line = Text::new();
    line.put(b"refused ");
    line.put_decimal(number);
    line
}

fn refused_line(number: u64) -> Text<ROOM>
    ensures { Written result (refused_text number []) }
{
    let mut line = refused_start(number);
    line.put(b"\n");
    line
}

fn refused_at_line(number: u64, at: usize) -> Text<ROOM>
    ensures { Written result (refused_text number (at ∷ [])) }
{
    let mut line = refused_start(number);
    line.put(b" at ");
    line.put_decimal(at as u64);
    line.put(b"\n");
    line
}

fn too_long_line() -> Text<ROOM>
    ensures { Written result too_long_text }
{
    let mut line = Text::new();
    line.put(b"too long\n");
    line
}

// Place 0 is the first unit's.
#[tactic(auto, unfolding(field::specs::Field::asked))]
fn unit_place(place: usize) -> usize
    ensures { result ≡ asked place }
{
    if place == 0 {
        return 1;
    }
    place
}

// A line after which nothing is listed.
fn last_line(line: Text<ROOM>) -> Listed
    ensures { result ≡ stopped line }
{
    Listed { line, next: None }
}

// The line of what stands at a place of a field. Each refusal has its own line, with a place or without, so its number stands where the line is made. The second promise is for callers: a line is never longer than its room.
pub fn line_at(field: &[u8], place: usize) -> Listed
    ensures result_value { listed_paper result ≡ held (line_at field.now place) }
    ensures used_le_room { result.line.used ≤ room }
{
    if field.len() > MOST {
        return last_line(too_long_line());
    }
    match field::unit_at(field, place) {
        Ok(Some(unit)) => Listed {
            line: unit_line(unit_place(place), unit.id, unit.length),
            next: Some(unit.after),
        },
        Ok(None) => last_line(end_line(field.len())),
        Err(FieldError::NoField) => last_line(refused_line(14)),
        Err(FieldError::PastField) => last_line(refused_line(17)),
        Err(FieldError::Short(at)) => last_line(refused_at_line(15, at)),
        Err(FieldError::WrongLength(at)) => last_line(refused_at_line(16, at)),
    }
}
