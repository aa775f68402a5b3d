// The page printer: prints the page of the record on standard input as 25 lines of 40 characters, or why the record is refused. What is printed is
// what `output` says of the record.
#![tactic(auto)]

ghost use Rattle.std.specs.Prelude.{◌≡◌, length};
ghost use Rattle.printer.specs.Output.{output};

use page::RECORD_LENGTH;

// One byte more than a record has, by which a longer one is known.
const LIMIT: usize = RECORD_LENGTH + 1;

// Prints a text, and answers how many bytes that are. The record is there for the promise alone: that the text is all that is to be printed for it.
fn print(rt: &(impl Print + Eprint), text: &[u8], record: &[u8]) -> usize
    requires { text.now ≡ output «record».now }
    ensures { result ≡ length text.now }
{
    let _ = console::say(rt, text);
    text.len()
}

// Prints all that is to be printed for a record, and answers how many bytes that are.
fn print_record(rt: &(impl Print + Eprint), record: &[u8]) -> usize
    ensures { result ≡ length (output «record».now) }
{
    match &page::read_record(record) {
        Ok(page) => {
            let text = printing::printed_page(&page.cells.characters).unwrap();
            print(rt, &text, record)
        }
        Err(error) => print(rt, &texts::refused_text(error.number()), record),
    }
}

fn main(rt: HostRuntime) {
    let mut input = [0u8; LIMIT];
    let count = console::read_all(&rt, &mut input);
    print_record(&rt, &input[..count]);
}
