// Which page an argument asks for: its number, "100", or with a time code, "100/1234".
#![tactic(auto)]

ghost use Rattle.std.specs.Prelude.{◌≡◌, length};
ghost use Rattle.asking.specs.Asked.{asked, asked_for, digit_at, is_number, is_time, selection_asked, time_asked, value_at};

use receiver::{Selection, When};

// The length of a page's number alone, and with a time code.
const NUMBER: usize = 3;

const TIMED: usize = 8;

#[tactic(auto, unfolding(crate::specs::Asked::digit_at))]
fn digit_at(argument: &[u8], place: usize) -> bool
    ensures { result ≡ digit_at argument.now place }
{
    argument
        .get(place)
        .is_some_and(|byte| byte.is_ascii_digit())
}

#[tactic(auto, unfolding(crate::specs::Asked::value_at))]
fn value_at(argument: &[u8], place: usize) -> u8
    ensures { result ≡ value_at argument.now place }
{
    argument
        .get(place)
        .map_or(0, |byte| byte.saturating_sub(b'0'))
}

#[tactic(auto, unfolding(crate::specs::Asked::is_number))]
fn is_number(argument: &[u8]) -> bool
    ensures { result ≡ is_number argument.now }
{
    digit_at(argument, 0) & digit_at(argument, 1) & digit_at(argument, 2)
}

#[tactic(auto, unfolding(crate::specs::Asked::is_time))]
fn is_time(argument: &[u8]) -> bool
    requires { length argument.now ≡ 8 }
    ensures { result ≡ is_time argument.now }
{
    (argument[3] == b'/')
        & digit_at(argument, 4)
        & digit_at(argument, 5)
        & digit_at(argument, 6)
        & digit_at(argument, 7)
}

#[tactic(auto, unfolding(crate::specs::Asked::time_asked))]
fn time_asked(argument: &[u8]) -> When
    ensures { result ≡ time_asked argument.now }
{
    When::Time {
        hours_tens: value_at(argument, 4),
        hours_units: value_at(argument, 5),
        minutes_tens: value_at(argument, 6),
        minutes_units: value_at(argument, 7),
    }
}

#[tactic(auto, unfolding(crate::specs::Asked::selection_asked))]
fn selection_asked(argument: &[u8], when: When) -> Selection
    ensures { result ≡ selection_asked argument.now when }
{
    Selection {
        magazine: value_at(argument, 0),
        tens: value_at(argument, 1),
        units: value_at(argument, 2),
        when,
    }
}

// The page that an argument asks for, or none.
pub fn page_asked(argument: &[u8]) -> Option<Selection>
    ensures { asked_for result ≡ asked argument.now }
{
    if argument.len() == NUMBER {
        if is_number(argument) {
            return Some(selection_asked(argument, When::Any));
        }
        return None;
    }
    if argument.len() == TIMED {
        if is_number(argument) & is_time(argument) {
            return Some(selection_asked(argument, time_asked(argument)));
        }
    }
    None
}
