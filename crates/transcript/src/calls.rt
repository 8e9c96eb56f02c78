//! Calls, as scripts have them.

ghost use Rattle.std.specs.List.{flat_map};
ghost use Rattle.std.specs.Prelude.{◌≡◌, ◌++◌, codes, OnOk};
ghost use Rattle.transcript.specs.Printed as spec;

use ask_history::Call;
use pc_terms::{NoMemory, Text};
use std::alloc::Global;

fn push_reloaded(alloc: Global, text: &mut Text, file: &(Text, Text)) -> Result<(), NoMemory>
    ensures { OnOk result (text.new ≡ text.old ++ spec.reloaded_text file.now) }
{
    text.push_str(" ")?;
    text.push_str(file.0.as_str())?;
    text.push_str(" ")?;
    text.push_number(alloc, file.1.len() as u64)
}

fn push_reload(alloc: Global, text: &mut Text, files: &[(Text, Text)]) -> Result<(), NoMemory>
    ensures { OnOk result (text.new ≡ text.old ++ (codes "reload" ++ flat_map spec.reloaded_text files.now)) }
{
    text.push_str("reload")?;
    for file in files {
        push_reloaded(alloc, text, file)?;
    }
    Ok(())
}

fn push_removed(text: &mut Text, name: &Text) -> Result<(), NoMemory>
    ensures { OnOk result (text.new ≡ text.old ++ spec.removed_text name.now) }
{
    text.push_str(" ")?;
    text.push_str(name.as_str())
}

fn push_remove(text: &mut Text, names: &[Text]) -> Result<(), NoMemory>
    ensures { OnOk result (text.new ≡ text.old ++ (codes "remove" ++ flat_map spec.removed_text names.now)) }
{
    text.push_str("remove")?;
    for name in names {
        push_removed(text, name)?;
    }
    Ok(())
}

fn push_at_offset(alloc: Global, text: &mut Text, name: &Text, offset: u32) -> Result<(), NoMemory>
    ensures { OnOk result (text.new ≡ text.old ++ spec.at_offset_text name.now offset) }
{
    text.push_str(name.as_str())?;
    text.push_str(" ")?;
    text.push_number(alloc, offset as u64)
}

pub fn push_call(alloc: Global, text: &mut Text, call: &Call) -> Result<(), NoMemory>
    ensures { OnOk result (text.new ≡ text.old ++ spec.call_text call.now) }
{
    match call {
        Call::Reload(files) => push_reload(alloc, text, files.as_slice()),
        Call::Remove(names) => push_remove(text, names.as_slice()),
        Call::TypeAt(name, offset) => {
            text.push_str("type ")?;
            push_at_offset(alloc, text, name, *offset)
        }
        Call::MembersAt(name, offset) => {
            text.push_str("members ")?;
            push_at_offset(alloc, text, name, *offset)
        }
        Call::ScopeAt(name, offset) => {
            text.push_str("scope ")?;
            push_at_offset(alloc, text, name, *offset)
        }
        Call::LinkAt(name, offset) => {
            text.push_str("link ")?;
            push_at_offset(alloc, text, name, *offset)
        }
        Call::Structure(name) => {
            text.push_str("structure ")?;
            text.push_str(name.as_str())
        }
        Call::LoadedTyped(name) => {
            text.push_str("typed ")?;
            text.push_str(name.as_str())
        }
    }
}
