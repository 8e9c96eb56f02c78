ghost use Rattle.std.specs.Prelude.{◌≡◌, ◌≤◌, ℕ, List, length, All, false, IfOk};
ghost use Rattle.std.specs.List.{list_any};
ghost use Rattle.std.specs.Str.{bytes_eq};
ghost use Rattle.ask_history.specs.Sources.{is_mutation};
ghost use Rattle.compiler_loop.specs.CoreParts.{pairs_of};
ghost use Rattle.pc_terms.specs.Bytes.{max_source_bytes};

use crate::source::Source;
use crate::tasks::{NewFile, Removal};
use ask_history::Call;
use indexmap::IndexSet;
use pc_terms::{NoMemory, Row, Text};
use std::alloc::Global;
use std::collections::VecDeque;

/// Copies an ask.
pub fn copied_ask(call: &Call) -> Result<Call, NoMemory>
    requires { is_mutation call.now ≡ false }
    ensures { IfOk result (λ copy. copy ≡ call.now) }
{
    Ok(match call {
        Call::TypeAt(file, offset) => Call::TypeAt(file.clone()?, *offset),
        Call::MembersAt(file, offset) => Call::MembersAt(file.clone()?, *offset),
        Call::ScopeAt(file, offset) => Call::ScopeAt(file.clone()?, *offset),
        Call::LinkAt(file, offset) => Call::LinkAt(file.clone()?, *offset),
        Call::Structure(file) => Call::Structure(file.clone()?),
        Call::LoadedTyped(file) => Call::LoadedTyped(file.clone()?),
        Call::Reload(_) | Call::Remove(_) => unreachable!(),
    })
}

/// Copies and reads the files of a reload.
#[tactic(auto, using(crate::proofs::CoreLemmas::pairs_of_push, std::proofs::lemmas::Grind::common_steps))]
pub fn new_files(alloc: Global, pairs: &[(Text, Text)]) -> Result<VecDeque<NewFile>, NoMemory>
    requires { All (λ pair. length pair.1 ≤ max_source_bytes) pairs.now }
    ensures { IfOk result (λ files. pairs_of files.items ≡ pairs.now) }
{
    let mut files = VecDeque::new(alloc);
    for (name, text) in pairs {
        files.push_back(new_file(alloc, name, text)?)?;
    }
    Ok(files)
}

fn new_file(alloc: Global, name: &Text, text: &Text) -> Result<NewFile, NoMemory>
    requires { length text.now ≤ max_source_bytes }
    ensures name { IfOk result (λ file. file.name ≡ name.now) }
    ensures text { IfOk result (λ file. file.source.text ≡ text.now) }
{
    Ok(NewFile {
        name: name.clone()?,
        due: name.clone()?,
        source: Source::new(alloc, text)?,
    })
}

/// Copies the names of a removal.
pub fn removal(alloc: Global, names: &[Text]) -> Result<Removal, NoMemory>
    ensures { IfOk result (λ removal. removal.names ≡ names.now) }
{
    Ok(Removal {
        names: copied_names(alloc, names)?,
        gone: name_set(alloc, names)?,
    })
}

/// Copies names.
pub fn copied_names(alloc: Global, names: &[Text]) -> Result<Row<Text>, NoMemory>
    ensures { IfOk result (λ copies. copies ≡ names.now) }
{
    let mut copies = Row::new(alloc);
    for name in names {
        copies.push(name.clone()?)?;
    }
    Ok(copies)
}

#[tactic(auto, using(crate::proofs::NameLemmas::knows_inserted, std::proofs::lemmas::Grind::common_steps))]
fn name_set(alloc: Global, names: &[Text]) -> Result<IndexSet<Text>, NoMemory>
    ensures { IfOk result (λ set. (name : List ℕ) → list_any (bytes_eq name) set.keys ≡ list_any (bytes_eq name) names.now) }
{
    let mut set = IndexSet::new(alloc);
    for name in names {
        let _is_new = set.insert(name.clone()?)?;
    }
    Ok(set)
}
