// What is said of mended bytes: how many there were in a page, and over all lines how many, in how many of the lines.
#![tactic(auto)]

ghost use Rattle.std.specs.Prelude.{◌≡◌, ◌≤◌, length};
ghost use Rattle.texts.specs.Held.{Adds};
ghost use Rattle.tally.specs.Tally.{count_text, mended_held, mended_size, share_held, share_size};

use texts::{DIGITS, Text};

// A number, " bytes mended" and a line feed.
pub const MENDED: usize = DIGITS + 14;

// A number, " bytes mended, in ", a number, " of ", a number, " lines" and a line feed.
pub const SHARE: usize = DIGITS + 18 + DIGITS + 4 + DIGITS + 7;

// A number, and what stands behind one and behind any other number.
fn put_count<const ROOM: usize>(text: &mut Text<ROOM>, count: u64, one: &[u8], others: &[u8])
    ensures { Adds text.old (count_text count one.now others.now) text.new }
{
    text.put_decimal(count);
    if count == 1 {
        text.put(one);
    } else {
        text.put(others);
    }
}

// Of a page: how many bytes were mended in its own lines. The second promise is for callers, who lend the text on.
pub fn mended_text(count: u64) -> Text<MENDED>
    ensures value { result ≡ mended_held count }
    ensures bytes_len { (length result.bytes ≡ mended_size) × (result.used ≤ mended_size) }
{
    let mut text = Text::new();
    put_count(&mut text, count, b" byte mended\n", b" bytes mended\n");
    text
}

// Of all lines: how many bytes were mended, in how many lines, and how many lines there were.
pub fn share_text(mended: u64, mended_lines: u64, lines: u64) -> Text<SHARE>
    ensures value { result ≡ share_held mended mended_lines lines }
    ensures bytes_len { (length result.bytes ≡ share_size) × (result.used ≤ share_size) }
{
    let mut text = Text::new();
    put_count(
        &mut text,
        mended,
        b" byte mended, in ",
        b" bytes mended, in ",
    );
    text.put_decimal(mended_lines);
    text.put(b" of ");
    put_count(&mut text, lines, b" line\n", b" lines\n");
    text
}
