// The line that says what closed: the page and its time, the word, and how many bytes were mended in its own lines.
#![tactic(auto)]

ghost use Rattle.std.specs.Prelude.{◌≡◌, ◌≤◌, length};
ghost use Rattle.texts.specs.Held.{Adds};
ghost use Rattle.heading.specs.Line.{english_text, heading_text, line_held, line_size, line_text, word_text};

use letters::STAND_IN;
use packet::Header;
use tally::MENDED;
use texts::{Text, digit_text};
use watch::Word;

// "page 100 at 12:34:"
const HEADING: usize = 18;

// " clean, "
const CLEAN: usize = 8;

// ", "
const COMMA: usize = 2;

// The longest word: clean, and that English stands in.
const WORD: usize = CLEAN + STAND_IN + COMMA;

// The longest line.
pub const LINE: usize = HEADING + WORD + MENDED;

// What stands before the word on a page that closed.
#[tactic(auto, unfolding(crate::specs::Line::heading_text))]
fn heading_of(magazine: u8, header: Header) -> [u8; HEADING]
    ensures { result ≡ heading_text magazine header }
{
    [
        b'p',
        b'a',
        b'g',
        b'e',
        b' ',
        digit_text(magazine),
        digit_text(header.tens),
        digit_text(header.units),
        b' ',
        b'a',
        b't',
        b' ',
        digit_text(header.hours_tens),
        digit_text(header.hours_units),
        b':',
        digit_text(header.minutes_tens),
        digit_text(header.minutes_units),
        b':',
    ]
}

// Where English stands in, which value has no set.
fn put_english(line: &mut Text<LINE>, control: u16)
    ensures { Adds line.old (english_text control) line.new }
{
    if letters::stands_in(control) {
        line.put(&letters::stand_in_text(control));
        line.put(b", ");
    }
}

fn put_word(line: &mut Text<LINE>, word: Option<Word>, control: u16)
    ensures { Adds line.old (word_text word control) line.new }
{
    match word {
        None => {}
        Some(Word::Clean) => {
            line.put(b" clean, ");
            put_english(line, control);
        }
        Some(Word::Doubt) => line.put(b" doubt, "),
        Some(Word::Missing) => line.put(b" doubt, lines are missing, "),
    }
}

// The whole line. The second promise is for callers, who lend the line on.
pub fn line_of(word: Option<Word>, magazine: u8, header: Header, mended: u64) -> Text<LINE>
    ensures value { result ≡ line_held (line_text word magazine header mended) }
    ensures bytes_len { (length result.bytes ≡ line_size) × (result.used ≤ line_size) }
{
    let mut line = Text::new();
    line.put(&heading_of(magazine, header));
    put_word(&mut line, word, header.control);
    line.put(tally::mended_text(mended).as_bytes());
    line
}
