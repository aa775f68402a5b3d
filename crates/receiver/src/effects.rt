// What a line does to a receiver: its page is closed, opened, stored to or put in doubt, where it lies.
ghost use Rattle.std.specs.Prelude.{[], ◌≡◌, ◌≤◌, ◌-◌, ltb, None};
ghost use Rattle.grid.specs.Grid.{columns, last_row};
ghost use Rattle.packet.specs.Addresses.{address_of};
ghost use Rattle.packet.specs.Texts.{text_of};
ghost use Rattle.receiver.specs.Cells.{first_column};
ghost use Rattle.receiver.specs.Effects.{closing_word, effected, header_taken, just_closed, lent_after, shut, taken, text_taken, unsure_taken, word_of};
ghost use Rattle.receiver.specs.Kinds.{seen};
ghost use Rattle.receiver.specs.Private.{Does, Ready, Storable, done_of, taken_of};

use crate::cells::{first_column, open_cells, store_row};
use crate::kinds::{Effect, Seen, effect_of};
use crate::{Closing, Receiver, Taken};
use grid::COLUMNS;
use packet::{Header, ZERO_HEADER};

// What a line did, but for the receiver and the lent record.
#[derive(Clone, Copy)]
pub(crate) struct Done {
    pub(crate) kind: u8,
    pub(crate) count: u8,
    pub(crate) closing: Option<Closing>,
}

#[tactic(auto, unfolding(crate::specs::Effects::word_of))]
fn closing_word(is_open: bool, doubt: bool) -> Option<Closing>
    ensures { result ≡ word_of is_open doubt }
{
    if !is_open {
        return None;
    }
    if doubt {
        Some(Closing::Doubt)
    } else {
        Some(Closing::Clean)
    }
}

// Writes the record of the page, where one is open, and says how it closed.
fn close(receiver: &Receiver, record: &mut [u8]) -> Option<Closing>
    requires { Ready receiver.now «record».old }
    ensures { (result ≡ closing_word receiver.now) × («record».new ≡ lent_after receiver.now «record».old) }
{
    let closing = closing_word(receiver.open, receiver.doubt);
    if !receiver.open {
        return closing;
    }
    // Nothing is refused here.
    let _ = page::write_parts(
        receiver.selection.magazine,
        receiver.header,
        !receiver.doubt,
        &receiver.cells.characters,
        &receiver.cells.marks,
        record,
    );
    closing
}

// With no page open there is no doubt, and the header is zero.
#[tactic(auto, unfolding(crate::specs::Effects::shut))]
fn shut(receiver: &mut Receiver)
    ensures { receiver.new ≡ shut receiver.old }
{
    receiver.open = false;
    receiver.doubt = false;
    receiver.header = ZERO_HEADER;
}

// A line that closes nothing.
fn unclosed_line(kind: u8) -> Done
    ensures { result ≡ done_of kind 0 None }
{
    Done {
        kind,
        count: 0,
        closing: None,
    }
}

// A line that closes the page and does no more.
#[tactic(auto, using(crate::proofs::Resting::closed_rests, crate::proofs::Doing::ready_lawful), unfolding(crate::specs::Effects::just_closed))]
fn just_close(receiver: &mut Receiver, kind: u8, record: &mut [u8]) -> Done
    requires { Ready receiver.old «record».old }
    ensures { Does (just_closed receiver.old kind «record».old) result receiver.new «record».new }
{
    let closing = close(receiver, record);
    shut(receiver);
    Done {
        kind,
        count: 0,
        closing,
    }
}

// Whether fewer characters of a row were written than it has.
#[tactic(auto, using(crate::proofs::Rows::first_small))]
fn is_missing(row: u8, count: u8) -> bool
    ensures { result ≡ ltb count (columns - first_column row) }
{
    (count as usize) < COLUMNS - first_column(row)
}

// Our row below row 0 that carries characters, with a page open: kind 1.
fn text_line(receiver: &mut Receiver, row: u8, packet: &[u8]) -> Done
    requires { row ≤ last_row }
    ensures { Does (text_taken receiver.old row (text_of packet.now).bytes []) result receiver.new [] }
{
    let text = packet::text_of(packet).unwrap_or([0; COLUMNS]);
    let count = store_row(row, text, &mut receiver.cells);
    receiver.doubt |= is_missing(row, count);
    Done {
        kind: 1,
        count,
        closing: None,
    }
}

// Our row 0 of the selected page: close, then open, then store. Kind 2.
fn header_line(receiver: &mut Receiver, header: Header, packet: &[u8], record: &mut [u8]) -> Done
    requires { Ready receiver.old «record».old }
    ensures { Does (header_taken receiver.old header (text_of packet.now).bytes «record».old) result receiver.new «record».new }
{
    let closing = close(receiver, record);
    open_cells(header, &mut receiver.cells);
    let text = packet::text_of(packet).unwrap_or([0; COLUMNS]);
    let count = store_row(0, text, &mut receiver.cells);
    receiver.open = true;
    receiver.doubt = is_missing(0, count);
    receiver.header = header;
    Done {
        kind: 2,
        count,
        closing,
    }
}

// An address message refused, may be ours: kind 4.
#[tactic(auto, using(crate::proofs::Doing::ready_doubted), unfolding(crate::specs::Effects::unsure_taken, crate::specs::Effects::doubted, crate::specs::Effects::unclosed))]
fn unsure_line(receiver: &mut Receiver, could_be_header: bool, record: &mut [u8]) -> Done
    requires { Ready receiver.old «record».old }
    ensures { Does (unsure_taken receiver.old could_be_header «record».old) result receiver.new «record».new }
{
    if !receiver.open {
        return unclosed_line(4);
    }
    receiver.doubt = true;
    if could_be_header {
        return just_close(receiver, 4, record);
    }
    unclosed_line(4)
}

// One effect, for a receiver that is known to be lawful and a record that is long enough.
#[tactic(auto, unfolding(crate::specs::Effects::effected, crate::specs::Effects::unclosed, crate::specs::Effects::text_taken, crate::specs::Private::Storable))]
fn act(receiver: &mut Receiver, effect: Effect, packet: &[u8], record: &mut [u8]) -> Done
    requires { Ready receiver.old «record».old × Storable effect }
    ensures { Does (effected receiver.old effect (text_of packet.now).bytes «record».old) result receiver.new «record».new }
{
    match effect {
        Effect::Nothing => unclosed_line(0),
        Effect::Store(row) => text_line(receiver, row, packet),
        Effect::Open(header) => header_line(receiver, header, packet, record),
        Effect::Close(kind) => just_close(receiver, kind, record),
        Effect::Doubt(could_be_header) => unsure_line(receiver, could_be_header, record),
    }
}

// A packet of 42 bytes by what its address shows: what is to be done, and that.
#[tactic(auto, using(crate::proofs::Doing::due_storable), unfolding(crate::specs::Effects::taken, crate::specs::Kinds::effect_due))]
pub(crate) fn follow(receiver: &mut Receiver, shows: Seen, packet: &[u8], record: &mut [u8]) -> Done
    requires { Ready receiver.old «record».old × (shows ≡ seen receiver.old.selection.magazine (address_of packet.now)) }
    ensures { Does (taken receiver.old packet.now «record».old) result receiver.new «record».new }
{
    let effect = effect_of(receiver.selection, receiver.open, shows, packet);
    act(receiver, effect, packet, record)
}

pub(crate) fn taken_of(done: Done, mended: u8) -> Taken
    ensures { result ≡ taken_of done mended }
{
    Taken {
        kind: done.kind,
        count: done.count,
        closing: done.closing,
        mended,
    }
}
