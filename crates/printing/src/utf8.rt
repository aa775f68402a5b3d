// A page as UTF-8 text: the lines of the page printer, each byte as its letter under the page's control bits.
ghost use Rattle.std.specs.Prelude.{IfOk, ◌≡◌, ◌+◌, ◌≤◌, length};
ghost use Rattle.texts.specs.Put.{Puts};
ghost use Rattle.letters.specs.Sets.{letter_in};
ghost use Rattle.letters.specs.Utf8.{most_of_letters, utf8};
ghost use Rattle.printing.specs.Letters.{printed_utf8, utf8_page_size, utf8_paper};
ghost use Rattle.printing.specs.Private.{Spells, spelled_page};

use crate::{NotAPage, PAGE, UTF8_PAGE, Utf8Page};
use texts::Text;

// Puts the letter of a code into the text at a place, and answers the place behind it. A byte is stored where it is known to be needed: most letters have one.
fn put_letter(text: &mut [u8], at: usize, set: &[u32], code: u8) -> usize
    requires { (at + most_of_letters ≤ length text.old) × Spells set.now }
    ensures puts { Puts (utf8 (letter_in set.now code)) text.old at text.new result }
    ensures code_len_bound { length (utf8 (letter_in set.now code)) ≤ most_of_letters }
{
    let form = letters::utf8_of(letters::letter_in(set, code));
    text[at] = form.bytes[0];
    if form.used == 1 {
        return at + 1;
    }
    text[at + 1] = form.bytes[1];
    if form.used == 2 {
        return at + 2;
    }
    text[at + 2] = form.bytes[2];
    at + 3
}

// A page that is shown, letter by letter. The set is asked for once.
fn spelled_page(text: &[u8; PAGE], control: u16) -> Utf8Page
    ensures value { result ≡ spelled_page control text.now }
    ensures text_len { (length result.text.bytes ≡ utf8_page_size) × (result.text.used ≤ utf8_page_size) }
{
    let set = letters::set_of(control);
    let mut bytes = [0; UTF8_PAGE];
    let mut used = 0;
    for byte in text {
        used = put_letter(&mut bytes, used, &set, *byte);
    }
    Utf8Page {
        english: letters::stands_in(control),
        text: Text { bytes, used },
    }
}

// The text of a page's codes in UTF-8, under the page's control bits. The second promise is for callers, who lend the text on.
pub fn utf8_page(codes: &[u8], control: u16) -> Result<Utf8Page, NotAPage>
    ensures result_value { utf8_paper result ≡ printed_utf8 control codes.now }
    ensures text_len { IfOk result (λ page. (length page.text.bytes ≡ utf8_page_size) × (page.text.used ≤ utf8_page_size)) }
{
    match &crate::printed_page(codes) {
        Ok(text) => Ok(spelled_page(text, control)),
        Err(refusal) => Err(*refusal),
    }
}

// The page that was made, or the zeros that stand beside a refusal.
#[tactic(auto, unfolding(crate::specs::Letters::utf8_paper))]
pub fn utf8_or_zeros(printed: Result<Utf8Page, NotAPage>) -> Utf8Page
    ensures english_value { result.english ≡ (utf8_paper printed).english }
    ensures bytes_value { result.text.bytes ≡ (utf8_paper printed).bytes }
    ensures used_value { result.text.used ≡ (utf8_paper printed).used }
{
    printed.unwrap_or(Utf8Page {
        english: false,
        text: Text {
            bytes: [0; UTF8_PAGE],
            used: 0,
        },
    })
}
