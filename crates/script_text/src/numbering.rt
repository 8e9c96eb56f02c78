//! Finds lines in their text again.

ghost use Rattle.std.specs.Prelude.{◌≡◌};
ghost use Rattle.script_text.specs.Numbering as spec;

use crate::pieces::{cut, is_passed};

/// The number in its text, from 1, of a line that was read, with its index among the lines that were read.
pub fn line_number(text: &str, index: usize) -> u64
    ensures { result ≡ spec.line_number text.now index }
{
    let mut number: u64 = 1;
    let mut before = index;
    let mut left = Some(text.as_bytes());
    while let Some(rest) = left {
        let (bytes, behind) = cut(rest, b'\n');
        if !is_passed(bytes) {
            if before == 0 {
                return number;
            }
            before -= 1;
        }
        number += 1;
        left = behind;
    }
    number
}
