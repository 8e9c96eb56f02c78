//! Copies of calls.
ghost use Rattle.std.specs.Prelude.{◌≡◌, IfOk};

use ask_history::Call;
use pc_terms::{NoMemory, Row, Text};
use std::alloc::Global;

fn copied_pairs(alloc: Global, pairs: &[(Text, Text)]) -> Result<Row<(Text, Text)>, NoMemory>
    ensures { IfOk result (λ copy. copy ≡ pairs.now) }
{
    let mut copy = Row::new(alloc);
    for pair in pairs {
        let name = pair.0.clone()?;
        let text = pair.1.clone()?;
        copy.push((name, text))?;
    }
    Ok(copy)
}

fn copied_names(alloc: Global, names: &[Text]) -> Result<Row<Text>, NoMemory>
    ensures { IfOk result (λ copy. copy ≡ names.now) }
{
    let mut copy = Row::new(alloc);
    for name in names {
        copy.push(name.clone()?)?;
    }
    Ok(copy)
}

/// A copy of a call.
pub fn copied(alloc: Global, call: &Call) -> Result<Call, NoMemory>
    ensures { IfOk result (λ copy. copy ≡ call.now) }
{
    Ok(match call {
        Call::Reload(pairs) => Call::Reload(copied_pairs(alloc, pairs.as_slice())?),
        Call::Remove(names) => Call::Remove(copied_names(alloc, names.as_slice())?),
        Call::TypeAt(file, offset) => Call::TypeAt(file.clone()?, *offset),
        Call::MembersAt(file, offset) => Call::MembersAt(file.clone()?, *offset),
        Call::ScopeAt(file, offset) => Call::ScopeAt(file.clone()?, *offset),
        Call::LinkAt(file, offset) => Call::LinkAt(file.clone()?, *offset),
        Call::Structure(file) => Call::Structure(file.clone()?),
        Call::LoadedTyped(file) => Call::LoadedTyped(file.clone()?),
    })
}
