ghost use Rattle.std.specs.Prelude.{◌≡◌, ◌≤◌, ◌<◌, ◌+◌, ◌^◌, ◌++◌, List, [], ◌∷◌, length, is_some, true, false, ℕ, IfOk, OnOk, OnErr, take};
ghost use Rattle.ask_history.specs.Sources.{Bytes};
ghost use Rattle.indexmap.specs.IndexMap.{get_by_text};
ghost use Rattle.work_queue.specs.Reloads.{longer, longest, usage_of, length_for};

use crate::usage::Usage;
use indexmap::IndexMap;
use pc_terms::{NoMemory, Text};
use std::alloc::Global;

/// What the reloads of a session take up, with the longest text of each name.
#[derive(Debug, Drop)]
pub struct Tally {
    pub usage: Usage,
    /// By name, the length of the longest text, or `None` where room is made for a name that was not reloaded so far.
    pub longest: IndexMap<String, Option<u64>>,
}

/// Up to this many pairs are compared with each other, and an index is made of more.
const FEW: usize = 8;

impl Tally {
    ghost use Rattle.work_queue.specs.Tally.{AreCountable, IsTally, HasRoom, TellsSame, Raises, known, has_room};

    pub fn new(alloc: Global) -> Tally
        ensures { IsTally [] result }
    {
        Tally {
            usage: Usage {
                text: 0,
                names: 0,
                map: 0,
            },
            longest: IndexMap::new(alloc),
        }
    }

    fn known(&self, name: &str) -> Option<u64>
        ensures { result ≡ known self.now name.now }
    {
        self.longest.get(name).copied().flatten()
    }

    /// What the session would take up with these pairs too. It takes no memory: where an index of the pairs
    /// cannot be made, their names are compared with each other.
    pub fn usage_with(&self, pairs: &[(Text, Text)]) -> Usage
        requires { AreCountable self.now.usage pairs.now }
        ensures { (before : List (Bytes × Bytes)) → IsTally before self.now → result ≡ usage_of (before ++ pairs.now) }
    {
        if pairs.len() <= FEW {
            return self.compared_usage(pairs);
        }
        match self.indexed_usage(pairs) {
            Ok(usage) => usage,
            Err(_) => self.compared_usage(pairs),
        }
    }

    /// As `usage_with`, by a comparison of each name with those before it.
    fn compared_usage(&self, pairs: &[(Text, Text)]) -> Usage
        requires { AreCountable self.now.usage pairs.now }
        ensures { (before : List (Bytes × Bytes)) → IsTally before self.now → result ≡ usage_of (before ++ pairs.now) }
    {
        let mut usage = self.usage;
        for (i, pair) in pairs.iter().enumerate() {
            let name = pair.0.as_str();
            let most = longer(self.known(name), longest_among(&pairs[..i], name));
            usage = usage.with_text(most, pair.1.len() as u64);
        }
        usage
    }

    /// As `usage_with`, by an index of the names so far.
    fn indexed_usage(&self, pairs: &[(Text, Text)]) -> Result<Usage, NoMemory>
        requires { AreCountable self.now.usage pairs.now }
        ensures { IfOk result (λ usage. (before : List (Bytes × Bytes)) → IsTally before self.now → usage ≡ usage_of (before ++ pairs.now)) }
    {
        let mut usage = self.usage;
        let mut seen: IndexMap<&str, u64> = IndexMap::new(*self.longest.allocator());
        for (i, pair) in pairs.iter().enumerate() {
            let name = pair.0.as_str();
            let len = pair.1.len() as u64;
            let among = seen.get(name).copied();
            let most = longer(self.known(name), among);
            usage = usage.with_text(most, len);
            seen.insert(name, among.unwrap_or(0).max(len))?;
        }
        Ok(usage)
    }

    /// Makes room for the names of these pairs. The tally tells the same as before; out of memory it keeps no name.
    pub fn make_room(&mut self, pairs: &[(Text, Text)]) -> Result<(), NoMemory>
        ensures same { (before : List (Bytes × Bytes)) → IsTally before self.old → IsTally before self.new }
        ensures room { OnOk result (HasRoom pairs.now self.new) }
        ensures err { OnErr result (self.new.longest.entries ≡ self.old.longest.entries) }
        ensures usage { self.new.usage ≡ self.old.usage }
        ensures names { take (length self.old.longest.entries) self.new.longest.entries ≡ self.old.longest.entries }
    {
        let names = self.longest.len();
        for pair in pairs {
            if self.make_room_for(pair.0.as_str()).is_err() {
                self.longest.truncate(names);
                return Err(NoMemory {});
            }
        }
        Ok(())
    }

    fn make_room_for(&mut self, name: &str) -> Result<(), NoMemory>
        ensures same { TellsSame self.old self.new }
        ensures room { OnOk result (has_room self.new name.now ≡ true) }
        ensures names { (n : ℕ) → n ≤ length self.old.longest.entries → take n self.new.longest.entries ≡ take n self.old.longest.entries }
        ensures more { length self.old.longest.entries ≤ length self.new.longest.entries }
    {
        if !self.longest.contains_key(name) {
            let name = String::from_str(*self.longest.allocator(), name)?;
            self.longest.insert(name, None)?;
        }
        Ok(())
    }

    /// Gives up the room for all but the first names.
    pub fn keep(&mut self, names: usize)
        ensures usage { self.new.usage ≡ self.old.usage }
        ensures names { self.new.longest.entries ≡ take names self.old.longest.entries }
    {
        self.longest.truncate(names);
    }

    /// Takes these pairs in, for whose names room is made. It takes no memory.
    pub fn take_in(&mut self, pairs: &[(Text, Text)], usage: Usage)
        requires { HasRoom pairs.now self.old }
        ensures { (before : List (Bytes × Bytes)) → IsTally before self.old → usage ≡ usage_of (before ++ pairs.now) → IsTally (before ++ pairs.now) self.new }
    {
        for pair in pairs {
            self.raise(pair.0.as_str(), pair.1.len() as u64);
        }
        self.usage = usage;
    }

    fn raise(&mut self, name: &str, len: u64)
        requires { has_room self.old name.now ≡ true }
        ensures { Raises self.old self.new name.now len }
    {
        match self.longest.get_mut(name) {
            Some(most) => *most = longer(*most, Some(len)),
            None => unreachable!(),
        }
    }
}

fn longer(a: Option<u64>, b: Option<u64>) -> Option<u64>
    ensures { result ≡ longer a b }
{
    match (a, b) {
        (None, b) => b,
        (Some(a), None) => Some(a),
        (Some(a), Some(b)) => Some(a.max(b)),
    }
}

/// The length of the longest text of this name.
fn longest_among(pairs: &[(Text, Text)], name: &str) -> Option<u64>
    ensures { result ≡ longest pairs.now name.now }
{
    let mut most = None;
    for pair in pairs {
        most = longer(most, length_for(pair, name));
    }
    most
}

/// The length of a pair's text, where it is of this name.
fn length_for(pair: &(Text, Text), name: &str) -> Option<u64>
    ensures { result ≡ length_for pair.now name.now }
{
    if pair.0.as_str() == name {
        Some(pair.1.len() as u64)
    } else {
        None
    }
}
