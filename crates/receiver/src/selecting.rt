// Whether a selection is in range, and whether a header is that of the selected page.
ghost use Rattle.std.specs.Prelude.{◌≡◌};
ghost use Rattle.receiver.specs.Selections.{in_range, matches, time_matches, when_in_range};

use crate::{Selection, When};
use packet::Header;

#[tactic(auto, unfolding(crate::specs::Selections::when_in_range))]
fn when_in_range(when: When) -> bool
    ensures { result ≡ when_in_range when }
{
    match when {
        When::Any => true,
        When::Time {
            hours_tens,
            hours_units,
            minutes_tens,
            minutes_units,
        } => (hours_tens <= 3) & (hours_units <= 9) & (minutes_tens <= 7) & (minutes_units <= 9),
    }
}

#[tactic(auto, unfolding(crate::specs::Selections::in_range))]
pub(crate) fn in_range(selection: Selection) -> bool
    ensures { result ≡ in_range selection }
{
    (1 <= selection.magazine)
        & (selection.magazine <= 8)
        & (selection.tens <= 9)
        & (selection.units <= 9)
        & when_in_range(selection.when)
}

#[tactic(auto, unfolding(crate::specs::Selections::time_matches))]
fn time_matches(when: When, header: Header) -> bool
    ensures { result ≡ time_matches when header }
{
    match when {
        When::Any => true,
        When::Time {
            hours_tens,
            hours_units,
            minutes_tens,
            minutes_units,
        } => {
            (header.hours_tens == hours_tens)
                & (header.hours_units == hours_units)
                & (header.minutes_tens == minutes_tens)
                & (header.minutes_units == minutes_units)
        }
    }
}

// Whether a header of the selected magazine is that of the selected page.
#[tactic(auto, unfolding(crate::specs::Selections::matches))]
pub(crate) fn is_selected(selection: Selection, header: Header) -> bool
    ensures { result ≡ matches selection header }
{
    (header.tens == selection.tens)
        & (header.units == selection.units)
        & time_matches(selection.when, header)
}
