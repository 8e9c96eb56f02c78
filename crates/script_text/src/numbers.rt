//! Reads the numbers of an inner line.

ghost use Rattle.std.specs.Prelude.{◌≡◌};
ghost use Rattle.script_text.specs.Standing as standing;
ghost use Rattle.script_text.specs.Reading as spec;

use crate::kinds::{Holder, Numbers};
use crate::pieces::two_pieces;
use pc_terms::read_number;

fn turn_of(digits: &[u8]) -> Option<Numbers>
    ensures { result ≡ spec.turn_of digits.now }
{
    let turn = read_number(digits)?;
    Some(Numbers { check: 0, turn })
}

fn both_numbers(check: &[u8], turn: &[u8]) -> Option<Numbers>
    ensures { result ≡ spec.both_numbers check.now turn.now }
{
    let check = read_number(check)?;
    let turn = read_number(turn)?;
    Some(Numbers { check, turn })
}

fn check_and_turn(digits: &[u8]) -> Option<Numbers>
    ensures { result ≡ spec.check_and_turn digits.now }
{
    let (check, turn) = two_pieces(Some(digits), b'.')?;
    both_numbers(check, turn)
}

fn numbers_behind(holder: Holder, digits: &[u8]) -> Option<Numbers>
    ensures { result ≡ spec.numbers_behind holder digits.now }
{
    match holder {
        Holder::Ask => turn_of(digits),
        Holder::Idle => check_and_turn(digits),
    }
}

/// The numbers that a word gives to an inner line.
pub fn numbers_of(holder: Holder, word: &[u8]) -> Option<Numbers>
    ensures { result ≡ spec.numbers_of holder word.now }
{
    match word {
        [b'@', digits @ ..] => numbers_behind(holder, digits),
        _ => None,
    }
}

/// Whether the numbers are no lower than those of the sibling before.
pub fn does_not_fall(before: Option<Numbers>, numbers: Numbers) -> bool
    ensures { result ≡ standing.does_not_fall before numbers }
{
    match before {
        None => true,
        Some(before) => {
            before.check < numbers.check
                || (before.check == numbers.check && before.turn <= numbers.turn)
        }
    }
}
