//! Reads one file as a text within its limit.

ghost use Rattle.std.specs.Prelude.{◌≡◌, ◌≤◌, ◌+◌, ◌⊎◌, ℕ, List, length, IfOk, Ok, Err};
ghost use Rattle.session_input.specs.Faults.{CountsFaults};
ghost use Rattle.session_input.specs.Limits as limits;
ghost use Rattle.session_input.specs.Reads.{ComesTo};
ghost use Rattle.session_input.specs.Sources.{accepted, text_reading};

use crate::limits::most_of;
use crate::{Limit, NoInput, Refusal};
use pc_outside::{Files, ReadRefused};
use pc_terms::Text;
use std::alloc::Global;

// The text of a file, of which its limit and one byte more was read.
fn accepted(name: &Text, limit: Limit, bytes: Vec<u8>) -> Result<Text, NoInput>
    ensures comes { (content : List ℕ → _) → ComesTo content (accepted limit name.now bytes.items) result }
    ensures small { IfOk result (λ text. length text ≤ limits.most_of limit) }
{
    let most = most_of(limit);
    if bytes.len() as u64 > most {
        return Err(NoInput::Refused(Refusal::Limit(limit, most + 1)));
    }
    match String::from_utf8(bytes) {
        Ok(string) => Ok(Text::from_string(string)),
        Err(error) => {
            let byte = error.utf8_error().valid_up_to() as u64;
            Err(NoInput::Refused(Refusal::NotUtf8(name.clone()?, byte)))
        }
    }
}

/// The text of a file that is not to be longer than its limit. The name that a fault tells is copied before the file is
/// read, so that no fault is told as out of memory.
pub fn read_text<F: Files>(
    alloc: Global,
    files: &mut F,
    name: &Text,
    limit: Limit,
) -> Result<Text, NoInput>
    ensures comes { ComesTo (F.content files.old) (text_reading limit name.now) result }
    ensures small { IfOk result (λ text. length text ≤ limits.most_of limit) }
    ensures content { (other : List ℕ) → F.content files.new other ≡ F.content files.old other }
    ensures counts { CountsFaults result (F.faults files.old) (F.faults files.new) (F.last_failed files.new) }
{
    let told = name.clone()?;
    match files.read(alloc, name.as_str(), most_of(limit) as usize + 1) {
        Ok(bytes) => accepted(name, limit, bytes),
        Err(ReadRefused::Failed) => Err(NoInput::Refused(Refusal::ReadFault(told))),
        Err(ReadRefused::NoMemory) => Err(NoInput::NoMemory),
    }
}
