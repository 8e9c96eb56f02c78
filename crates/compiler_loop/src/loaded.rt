ghost use Rattle.std.specs.Prelude.{◌≡◌, ◌+◌, ◌↔◌, ℕ, [], length, take, filter, not, IsTrue, OnOk, IfOk};
ghost use Rattle.std.specs.List.{list_any, IsDistinct};
ghost use Rattle.std.specs.Map.{keys_of};
ghost use Rattle.std.specs.Option.{option_map, ForSome};
ghost use Rattle.std.specs.Str.{bytes_eq};
ghost use Rattle.ask_history.specs.Sources.{is_loaded, put_file, removed, text_of};
ghost use Rattle.compiler_loop.specs.ChecksView.{due_in, outcomes_in};
ghost use Rattle.compiler_loop.specs.Loaded.{is_thin, AreAhead, TakesDue};
ghost use Rattle.compiler_loop.specs.ThinAnswer.{are_thin, units_of};

use crate::checks::{Checks, Outcome};
use crate::copying::copied_names;
use crate::source::Source;
use crate::tasks::{NewFile, Removal};
use crate::thin::ThinUnit;
use indexmap::{IndexMap, IndexSet};
use pc_terms::{NoMemory, Text};
use std::alloc::Global;
use std::collections::VecDeque;

/// The loaded files in load order, with what they were read as, and how far their checks have come.
#[derive(Drop)]
pub struct LoadedFiles {
    alloc: Global,
    files: IndexMap<Text, Source>,
    /// Whether all of them are thin together, once that was asked.
    thin: Option<bool>,
    checks: Checks,
    ghost known: { ForSome thin (λ thin. thin ≡ is_thin files.entries) },
    ghost ahead: { AreAhead (due_in checks) (outcomes_in checks) (keys_of files.entries) },
}

impl LoadedFiles {
    ghost use Rattle.compiler_loop.specs.LoadedView.{files_of, names_of, due_of, outcomes_of, HasRoom, IsUnchanged};

    pub fn new(alloc: Global) -> LoadedFiles
        ensures files { files_of result ≡ [] }
        ensures outcomes { outcomes_of result ≡ [] }
    {
        LoadedFiles {
            alloc,
            files: IndexMap::new(alloc),
            thin: None,
            checks: Checks::new(alloc),
        }
    }

    /// Makes room for so many new files, and for all files to be due again.
    pub fn reserve(&mut self, more: usize) -> Result<(), NoMemory>
        ensures files { files_of self.new ≡ files_of self.old }
        ensures names { names_of self.new ≡ names_of self.old }
        ensures outcomes { outcomes_of self.new ≡ outcomes_of self.old }
        ensures room { OnOk result (HasRoom self.new more) }
    {
        self.files.reserve(more)?;
        self.checks.reserve(more)
    }

    /// The names of the files that were checked or skipped.
    pub fn past_names(&self) -> Result<VecDeque<Text>, NoMemory>
        ensures { IfOk result (λ past. past.items ≡ take (length (outcomes_of self.now)) (names_of self.now)) }
    {
        let names = self.files.keys().as_slice();
        let past = copied_names(self.alloc, &names[..self.checks.past()])?;
        Ok(VecDeque::from_vec(past.into_vec()))
    }

    /// Makes all files due for a check, given the names of those that are not. It takes no memory.
    pub fn restart_checks(&mut self, past: VecDeque<Text>)
        requires names { past.items ≡ take (length (outcomes_of self.old)) (names_of self.old) }
        requires room { HasRoom self.old 0 }
        ensures files { files_of self.new ≡ files_of self.old }
        ensures outcomes { outcomes_of self.new ≡ [] }
        ensures room { (more : ℕ) → HasRoom self.old more → HasRoom self.new more }
    {
        self.checks.restart(past);
    }

    /// Puts a file where the one of its name was, or last. It takes no memory.
    #[tactic(auto, using(crate::proofs::LoadedLemmas::texts_of_insert))]
    pub fn put(&mut self, file: NewFile)
        requires due { outcomes_of self.old ≡ [] }
        requires room { HasRoom self.old 1 }
        ensures files { files_of self.new ≡ put_file (files_of self.old) (file.name, file.source.text) }
        ensures outcomes { outcomes_of self.new ≡ [] }
        ensures room { (more : ℕ) → HasRoom self.old (more + 1) → HasRoom self.new more }
    {
        let NewFile { name, due, source } = file;
        self.thin = None;
        let is_new = !self.files.contains_key(&name);
        self.checks.add(due, is_new);
        let _old = self.files.insert(name, source).unwrap();
    }

    /// Takes out the files of these names. It takes no memory.
    pub fn remove(&mut self, removal: &Removal)
        requires due { outcomes_of self.old ≡ [] }
        ensures files { files_of self.new ≡ removed (files_of self.old) removal.now.names }
        ensures outcomes { outcomes_of self.new ≡ [] }
    {
        let gone = &removal.gone;
        self.thin = None;
        self.checks.remove(gone);
        leave_out(&mut self.files, gone);
    }

    /// Whether every file was checked or skipped.
    pub fn is_all_checked(&self) -> bool
        ensures done { IsTrue result ↔ (due_of self.now ≡ []) }
        ensures distinct { IsDistinct bytes_eq (names_of self.now) }
    {
        self.checks.past() == self.files.len()
    }

    /// Takes the first file that is due, with what its check came to. It takes no memory.
    pub fn take_due(&mut self, outcome: Outcome) -> Option<Text>
        ensures files { files_of self.new ≡ files_of self.old }
        ensures names { names_of self.new ≡ names_of self.old }
        ensures taken { TakesDue result outcome (due_of self.old) (due_of self.new) (outcomes_of self.old) (outcomes_of self.new) }
    {
        self.checks.take(outcome)
    }

    #[tactic(auto, using(crate::proofs::LoadedLemmas::text_of_lookup))]
    pub fn get(&self, name: &Text) -> Option<&Source>
        ensures { option_map (λ source. source.now.text) result ≡ text_of (files_of self.now) name.now }
    {
        self.files.get(name)
    }

    #[tactic(auto, using(crate::proofs::LoadedLemmas::is_loaded_lookup))]
    pub fn is_loaded(&self, name: &Text) -> bool
        ensures { result ≡ is_loaded (files_of self.now) name.now }
    {
        self.files.contains_key(name)
    }

    /// Whether all files are thin together. It is found out once for each change of the files.
    pub fn is_thin(&mut self) -> Result<bool, NoMemory>
        ensures files { IsUnchanged self.old self.new }
        ensures thin { IfOk result (λ thin. thin ≡ are_thin [] (units_of (files_of self.old))) }
    {
        if let Some(thin) = self.thin {
            return Ok(thin);
        }
        let thin = are_thin(self.alloc, &self.files)?;
        self.thin = Some(thin);
        Ok(thin)
    }
}

fn leave_out(files: &mut IndexMap<Text, Source>, gone: &IndexSet<Text>)
    ensures { files.new.entries ≡ filter (λ file. not (list_any (bytes_eq file.0) gone.now.keys)) files.old.entries }
{
    files.retain(|name, _source| !gone.contains(name));
}

fn are_thin(alloc: Global, files: &IndexMap<Text, Source>) -> Result<bool, NoMemory>
    ensures { IfOk result (λ thin. thin ≡ is_thin files.now.entries) }
{
    let mut seen = IndexSet::new(alloc);
    for (_name, source) in files.iter() {
        match &source.unit {
            ThinUnit::Empty => {}
            ThinUnit::Object(object) => {
                let (_, is_new) = seen.insert_full(object.name.clone()?)?;
                if !is_new {
                    return Ok(false);
                }
            }
            ThinUnit::Other => return Ok(false),
        }
    }
    Ok(true)
}
