// The state along a row, and the parts of one step of it: effects at the code's own cell, what is shown, effects after the cell. Letters and mosaics, which most
// codes are, have no effects and go a short way of their own. A control code has effects at its own cell or after it and never both; which effects it has there is
// chosen without a branch.
ghost use Rattle.std.specs.Prelude.{◌≡◌, cond, ◌<◌, ◌≤◌};
ghost use Rattle.display.specs.Display.{start, blank, own_cell, pattern, gives_pattern, mosaic, shown_control, height_of, cell, after_cell, cell_at, next};
ghost use Rattle.display.specs.Private.{passed, acts_at_once};

use crate::{Cell, Height, Symbol};

// What holds from one cell to the next.
#[derive(Clone, Copy)]
pub struct RowState {
    pub mosaics: bool,
    pub foreground: u8,
    pub background: u8,
    pub flash: bool,
    pub conceal: bool,
    pub boxed: bool,
    pub double: bool,
    pub separated: bool,
    pub hold: bool,
    pub held: Symbol,
    // The code of the cell before as it was read, 00 where there is none.
    pub before: u8,
}

// A cell, and the state after it.
#[derive(Drop)]
pub struct Step {
    pub cell: Cell,
    pub next: RowState,
}

fn choose<T: Copy>(test: bool, this: T, other: T) -> T
    ensures { result ≡ cond test this other }
{
    if test { this } else { other }
}

// What is held where nothing is.
fn blank() -> Symbol
    ensures { result ≡ blank }
{
    Symbol::Mosaic {
        pattern: 0,
        separated: false,
    }
}

// The six bits of a mosaic: b1 to b5, and b7.
fn pattern_of(code: u8) -> u8
    ensures { result ≡ pattern code }
{
    code % 32 + code / 64 % 2 * 32
}

// Whether a control code's effects, if it has any, are at its own cell; those of every other are after it.
#[tactic(auto, unfolding(crate::specs::Private::acts_at_once))]
fn acts_at_once(code: u8) -> bool
    ensures { result ≡ acts_at_once code }
{
    (0x09 <= code) & (code <= 0x0C) | (0x18 <= code) & (code <= 0x1E)
}

// A double cell is an upper half.
fn height_of(double: bool) -> Height
    ensures { result ≡ height_of double }
{
    if double {
        Height::Upper
    } else {
        Height::Normal
    }
}

impl RowState {
    #[tactic(auto, unfolding(crate::specs::Display::start))]
    pub(crate) fn start() -> RowState
        ensures { result ≡ start }
    {
        RowState {
            mosaics: false,
            foreground: 7,
            background: 0,
            flash: false,
            conceal: false,
            boxed: false,
            double: false,
            separated: false,
            hold: false,
            held: blank(),
            before: 0x00,
        }
    }

    // Effects at a control code's own cell.
    fn own_cell(self, code: u8) -> RowState
        ensures { result ≡ own_cell self code }
    {
        let boxes = (code == 0x0B) & (self.before == 0x0B);
        let unboxes = (code == 0x0A) & (self.before == 0x0A);
        let ends_double = (code == 0x0C) & self.double;
        let lit = choose(code == 0x1D, self.foreground, self.background);
        RowState {
            background: choose(code == 0x1C, 0, lit),
            flash: self.flash & (code != 0x09),
            conceal: self.conceal | (code == 0x18),
            boxed: self.boxed & !unboxes | boxes,
            double: self.double & (code != 0x0C),
            separated: (self.separated | (code == 0x1A)) & (code != 0x19),
            hold: self.hold | (code == 0x1E),
            held: choose(ends_double, blank(), self.held),
            ..self
        }
    }

    // Effects at a code's own cell, where it has any.
    pub(crate) fn own(self, code: u8) -> RowState
        ensures { result ≡ own_cell self code }
    {
        if acts_at_once(code) {
            return self.own_cell(code);
        }
        self
    }

    // Whether the code is a mosaic, and no letter, in this state.
    #[tactic(auto, unfolding(crate::specs::Display::gives_pattern))]
    fn gives_pattern(self, code: u8) -> bool
        ensures { result ≡ gives_pattern self code }
    {
        if !self.mosaics {
            return false;
        }
        (0x20 <= code) & (code <= 0x3F) | (0x60 <= code) & (code <= 0x7F)
    }

    #[tactic(auto, unfolding(crate::specs::Display::mosaic))]
    fn mosaic(self, code: u8) -> Symbol
        ensures { result ≡ mosaic self code }
    {
        Symbol::Mosaic {
            pattern: pattern_of(code),
            separated: self.separated,
        }
    }

    // What a control code shows.
    #[tactic(auto, unfolding(crate::specs::Display::shown_control))]
    pub(crate) fn shown_control(self) -> Symbol
        ensures { result ≡ shown_control self }
    {
        choose(self.hold & self.mosaics, self.held, Symbol::Letter(0x20))
    }

    #[tactic(auto, unfolding(crate::specs::Display::cell))]
    pub(crate) fn cell(self, symbol: Symbol) -> Cell
        ensures { result ≡ cell self symbol }
    {
        Cell {
            symbol,
            foreground: self.foreground,
            background: self.background,
            flash: self.flash,
            conceal: self.conceal,
            boxed: self.boxed,
            height: height_of(self.double),
        }
    }

    // Effects after a control code's cell.
    fn after_cell(self, code: u8) -> RowState
        requires { code < 0x20 }
        ensures { result ≡ after_cell self code }
    {
        let letters = (0x01 <= code) & (code <= 0x07);
        let mosaics = (0x11 <= code) & (code <= 0x17);
        let colour = letters | mosaics;
        let doubles = code == 0x0D;
        let changes = letters & self.mosaics | mosaics & !self.mosaics | doubles & !self.double;
        RowState {
            mosaics: (self.mosaics | mosaics) & !letters,
            foreground: choose(colour, code % 8, self.foreground),
            flash: self.flash | (code == 0x08),
            conceal: self.conceal & !colour,
            double: self.double | doubles,
            hold: self.hold & (code != 0x1F),
            held: choose(changes, blank(), self.held),
            before: code,
            ..self
        }
    }

    // The state after a code that has no effects after its cell: it changes what is held at most.
    #[tactic(auto, unfolding(crate::specs::Private::passed))]
    pub(crate) fn passed(self, held: Symbol, code: u8) -> RowState
        ensures { result ≡ passed self held code }
    {
        RowState {
            held,
            before: code,
            ..self
        }
    }

    // Effects after a control code's cell, where it has any.
    pub(crate) fn after(self, code: u8) -> RowState
        requires { code < 0x20 }
        ensures { result ≡ after_cell self code }
    {
        if acts_at_once(code) {
            return self.passed(self.held, code);
        }
        self.after_cell(code)
    }

    // The cell of a letter or a mosaic: a mosaic becomes held, a letter leaves what is held.
    pub(crate) fn printed(self, code: u8) -> Step
        requires { 0x20 ≤ code }
        ensures { (result.cell ≡ cell_at self code) × (result.next ≡ next self code) }
    {
        if self.gives_pattern(code) {
            let symbol = self.mosaic(code);
            Step {
                cell: self.cell(symbol),
                next: self.passed(symbol, code),
            }
        } else {
            Step {
                cell: self.cell(Symbol::Letter(code)),
                next: self.passed(self.held, code),
            }
        }
    }
}
