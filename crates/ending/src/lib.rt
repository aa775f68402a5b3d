// What is said on standard error when there are no more lines: how many there were and what became of them, and last how many bytes were mended.
#![tactic(auto)]

ghost use Rattle.std.specs.Prelude.{◌≡◌};
ghost use Rattle.tally.specs.Tally.{share_text};

use packet::LINE_LENGTH;
use watch::Watch;

fn complain_of(rt: &impl Eprint, count: u64, one: &[u8], more: &[u8]) {
    console::complain_number(rt, count);
    console::complain(rt, if count == 1 { one } else { more });
}

fn complain_refused(rt: &impl Eprint, count: u64, by: &[u8]) {
    if count > 0 {
        console::complain(rt, b", ");
        console::complain_number(rt, count);
        console::complain(rt, by);
    }
}

// How many lines there were, and how many were refused. 12 and 18 never arise here.
fn complain_counts(rt: &impl Eprint, watch: Watch) {
    complain_of(rt, watch.lines, b" line", b" lines");
    if watch.by10 == 0 && watch.by11 == 0 {
        console::complain(rt, b", none refused");
    }
    complain_refused(rt, watch.by11, b" refused by 11");
    complain_refused(rt, watch.by10, b" refused by 10");
    console::complain(rt, b"\n");
    if watch.by11 > watch.lines / 2 {
        console::complain(
            rt,
            b"most lines are refused by 11: the bytes may be in another order, or the recording of another kind\n",
        );
    }
}

fn complain_page(rt: &impl Eprint, argument: &[u8], what: &[u8]) {
    console::complain(rt, b"page ");
    console::complain(rt, argument);
    console::complain(rt, what);
}

// Writes the last line. The watch is there for the promise alone: that the text says how many bytes were mended, and in how many of the lines.
fn write_share(rt: &impl Eprint, text: &[u8], watch: Watch)
    requires { text.now ≡ share_text watch.mended watch.mended_lines watch.lines }
{
    console::complain(rt, text);
}

fn complain_share(rt: &impl Eprint, watch: Watch) {
    write_share(rt, announcing::share_of(watch).as_bytes(), watch);
}

// All of it, for a page that was asked for by an argument: `part` is how many bytes the last line has, where it is no whole one.
pub fn complain_at_end(
    rt: &impl Eprint,
    watch: Watch,
    is_open: bool,
    part: usize,
    argument: &[u8],
) {
    if watch.lines == 0 {
        console::complain(rt, b"no lines on standard input\n");
        return;
    }
    if part > 0 {
        console::complain(rt, b"the last line has ");
        complain_of(rt, part as u64, b" byte and not ", b" bytes and not ");
        console::complain_number(rt, LINE_LENGTH as u64);
        console::complain(rt, b"\n");
    }
    complain_counts(rt, watch);
    if is_open {
        complain_page(rt, argument, b" was still open at the end\n");
    } else if watch.closed == 0 {
        complain_page(rt, argument, b" never came\n");
    }
    complain_share(rt, watch);
}
