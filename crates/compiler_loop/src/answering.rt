ghost use Rattle.std.specs.Prelude.{◌≡◌, IfOk};
ghost use Rattle.compiler_loop.specs.LoadedView.{files_of, IsUnchanged};
ghost use Rattle.compiler_loop.specs.ThinAnswer.{thin_answer, tree_answer, unread};
ghost use Rattle.ask_history.specs.Sources.{text_of};

use crate::loaded::LoadedFiles;
use crate::thin::{info_at, located};
use ask_history::{Answer, Call};
use pc_terms::{NoMemory, Text};
use std::alloc::Global;

/// The answer of an ask over the loaded files.
pub fn answer(alloc: Global, loaded: &mut LoadedFiles, call: &Call) -> Result<Answer, NoMemory>
    ensures answer { IfOk result (λ found. found ≡ thin_answer (files_of loaded.old) call.now) }
    ensures files { IsUnchanged loaded.old loaded.new }
{
    match call {
        Call::TypeAt(file, offset) => answer_tree(alloc, loaded, file, *offset),
        Call::MembersAt(file, _) | Call::ScopeAt(file, _) | Call::LinkAt(file, _) => {
            Ok(answer_unread(loaded, file))
        }
        Call::Structure(file) | Call::LoadedTyped(file) => Ok(answer_unread(loaded, file)),
        Call::Reload(_) | Call::Remove(_) => Ok(Answer::NoUnit),
    }
}

fn answer_unread(loaded: &LoadedFiles, file: &Text) -> Answer
    ensures { result ≡ unread (files_of loaded.now) file.now }
{
    if loaded.is_loaded(file) {
        Answer::Unread
    } else {
        Answer::NoUnit
    }
}

#[tactic(auto, using(crate::proofs::LoadedLemmas::text_of_absent))]
fn answer_tree(
    alloc: Global,
    loaded: &mut LoadedFiles,
    file: &Text,
    offset: u32,
) -> Result<Answer, NoMemory>
    ensures answer { IfOk result (λ found. found ≡ tree_answer (files_of loaded.old) offset (text_of (files_of loaded.old) file.now)) }
    ensures files { IsUnchanged loaded.old loaded.new }
{
    if !loaded.is_loaded(file) {
        return Ok(Answer::NoUnit);
    }
    let thin = loaded.is_thin()?;
    let Some(source) = loaded.get(file) else {
        return Ok(Answer::NoUnit);
    };
    if !thin {
        return Ok(Answer::Unread);
    }
    let len = source.text.len() as u32;
    if len < offset {
        return Ok(Answer::NoTree);
    }
    let tree = located(len, offset, &source.unit);
    Ok(Answer::Tree(info_at(alloc, &source.unit, tree)?))
}
