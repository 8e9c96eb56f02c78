//! A core that is told act by act what to do, with the tickets of its open asks.

ghost use Rattle.std.specs.Prelude.{◌≡◌, ◌<◌, ◌≤◌, ◌+◌, ◌*◌, ◌==◌, if◌then◌else◌, [], true, false, not, None};
ghost use Rattle.std.specs.Prelude.{map, filter, length, All, OnOk, OnErr};
ghost use Rattle.std.specs.Bool.{OnTrue};
ghost use Rattle.std.specs.List.{list_all, list_any};
ghost use Rattle.ask_history.specs.Engine.{HasFileSizes, has_file_names, is_file_name, is_open_in};
ghost use Rattle.pc_terms.specs.Bytes.{max_source_bytes};
ghost use Rattle.ask_history.specs.Sources.{Sources, is_mutation, mutated};
ghost use Rattle.compiler_loop.specs.CoreState.{state_of};

use ask_history::{Call, Effect, Engine, Fed, Turn};
use compiler_loop::Core;
use pc_terms::{MAX_SOURCE_BYTES, NoMemory, Text};
use std::alloc::Global;

/// Whether a file may have this name.
fn is_name(name: &str) -> bool
    ensures { result ≡ is_file_name name.now }
{
    match name.as_bytes() {
        [] => false,
        [first, ..] => *first != b'<',
    }
}

fn has_file_texts(pairs: &[(Text, Text)]) -> bool
    ensures { OnTrue result (All (λ pair. length pair.1 ≤ max_source_bytes) pairs.now) }
{
    pairs.iter().all(|pair| pair.1.len() <= MAX_SOURCE_BYTES)
}

fn has_pair_names(pairs: &[(Text, Text)]) -> bool
    ensures { OnTrue result (list_all (λ pair. is_file_name pair.0) pairs.now ≡ true) }
{
    for pair in pairs {
        if !is_name(pair.0.as_str()) {
            return false;
        }
    }
    true
}

fn has_names(names: &[Text]) -> bool
    ensures { OnTrue result (list_all is_file_name names.now ≡ true) }
{
    for name in names {
        if !is_name(name.as_str()) {
            return false;
        }
    }
    true
}

// Whether a call may be fed, and loads two files at most.
#[tactic(auto, using(crate::proofs::Sizes::length_reloaded, crate::proofs::Sizes::length_removed))]
fn can_feed(call: &Call) -> bool
    ensures sizes { OnTrue result (HasFileSizes call.now) }
    ensures names { OnTrue result (has_file_names call.now ≡ true) }
    ensures few { OnTrue result ((files : Sources) → length (mutated files call.now) ≤ length files + 2) }
{
    match call {
        Call::Reload(pairs) => {
            let pairs = pairs.as_slice();
            pairs.len() <= 2 && has_file_texts(pairs) && has_pair_names(pairs)
        }
        Call::Remove(names) => has_names(names.as_slice()),
        Call::TypeAt(file, _) | Call::MembersAt(file, _) | Call::ScopeAt(file, _) => is_name(
            file.as_str(),
        ),
        Call::LinkAt(file, _) | Call::Structure(file) | Call::LoadedTyped(file) => is_name(
            file.as_str(),
        ),
    }
}

fn is_change(call: &Call) -> bool
    ensures { result ≡ is_mutation call.now }
{
    match call {
        Call::Reload(_) | Call::Remove(_) => true,
        _ => false,
    }
}

/// A core with nothing staged, the tickets of its open asks, and how often it was fed a mutation of two files at most.
#[derive(Drop)]
pub struct Player {
    core: Core,
    open: Vec<u64>,
    mutations: u32,
    ghost asks: { map (λ ask. ask.0) (state_of core).asks ≡ open.items },
    ghost staged: { (state_of core).staged ≡ None },
    ghost few: { length (state_of core).sources ≤ 2 * mutations },
}

const MUTATION: u64 = 1000;

// What a core is left with, once it was fed a mutation.
fn mutate(core: &mut Core, call: &Call, stops: bool, effect: Effect) -> Result<(), NoMemory>
    requires mutation { is_mutation call.now ≡ true }
    requires staged { (state_of core.old).staged ≡ None }
    requires asks { is_open_in (state_of core.old).asks MUTATION ≡ false }
    requires sizes { HasFileSizes call.now }
    requires names { has_file_names call.now ≡ true }
    requires two { (files : Sources) → length (mutated files call.now) ≤ length files + 2 }
    requires few { length (state_of core.old).sources < 10000 }
    ensures staged { (state_of core.new).staged ≡ None }
    ensures asks { OnOk result ((state_of core.new).asks ≡ (if stops then [] else (state_of core.old).asks)) }
    ensures err { OnErr result (state_of core.new ≡ state_of core.old) }
    ensures few { OnOk result (length (state_of core.new).sources ≤ length (state_of core.old).sources + 2) }
{
    match core.feed(MUTATION, call) {
        Fed::Staged => {
            if stops {
                core.stop();
            }
            core.settled(MUTATION, effect);
            Ok(())
        }
        Fed::NoMemory => Err(NoMemory {}),
        Fed::Taken => unreachable!(),
    }
}

fn is_among(open: &[u64], ticket: u64) -> bool
    ensures { result ≡ list_any (λ other. other == ticket) open.now }
{
    open.iter().any(|other| *other == ticket)
}

fn leave_out(open: &mut Vec<u64>, ticket: u64)
    ensures { open.new.items ≡ filter (λ other. not (other == ticket)) open.old.items }
{
    open.retain(|other| *other != ticket);
}

impl Player {
    pub fn new(alloc: Global) -> Result<Player, NoMemory> {
        Ok(Player {
            core: Core::new(alloc)?,
            open: Vec::new(alloc),
            mutations: 0,
        })
    }

    fn is_open(&self, ticket: u64) -> bool
        ensures { result ≡ is_open_in (state_of self.now.core).asks ticket }
    {
        is_among(self.open.as_slice(), ticket)
    }

    fn put(&mut self, call: &Call, stops: bool, effect: Effect) -> Result<(), NoMemory>
        requires mutation { is_mutation call.now ≡ true }
        requires sizes { HasFileSizes call.now }
        requires names { has_file_names call.now ≡ true }
        requires few { (files : Sources) → length (mutated files call.now) ≤ length files + 2 }
    {
        if self.mutations >= 1000 || self.is_open(MUTATION) {
            return Err(NoMemory {});
        }
        mutate(&mut self.core, call, stops, effect)?;
        if stops {
            self.open.clear();
        }
        self.mutations += 1;
        Ok(())
    }

    fn ask(&mut self, ticket: u64, call: &Call) -> Result<(), NoMemory>
        requires ask { is_mutation call.now ≡ false }
        requires sizes { HasFileSizes call.now }
        requires names { has_file_names call.now ≡ true }
        requires few { (files : Sources) → length (mutated files call.now) ≤ length files + 2 }
    {
        if self.mutations >= 1000 || self.is_open(ticket) {
            return Err(NoMemory {});
        }
        self.open.reserve(1)?;
        match self.core.feed(ticket, call) {
            Fed::Taken => {
                self.open.push_reserved(ticket);
                Ok(())
            }
            Fed::NoMemory => Err(NoMemory {}),
            Fed::Staged => unreachable!(),
        }
    }

    /// Settles an ask, which is `false` where it is not open.
    pub fn settle(&mut self, ticket: u64) -> bool {
        if !self.is_open(ticket) {
            return false;
        }
        self.core.settled(ticket, Effect::Dropped);
        leave_out(&mut self.open, ticket);
        true
    }

    pub fn stop(&mut self) {
        self.core.stop();
        self.open.clear();
    }

    /// Has the core stage a mutation, stop if so wanted, and settle it. `false` where the call may not be fed.
    pub fn change(&mut self, call: &Call, stops: bool, effect: Effect) -> Result<bool, NoMemory> {
        if !can_feed(call) || !is_change(call) {
            return Ok(false);
        }
        self.put(call, stops, effect)?;
        Ok(true)
    }

    /// Feeds an ask. `false` where the call may not be fed.
    pub fn feed(&mut self, ticket: u64, call: &Call) -> Result<bool, NoMemory> {
        if !can_feed(call) || is_change(call) {
            return Ok(false);
        }
        self.ask(ticket, call)?;
        Ok(true)
    }

    pub fn turn(&mut self) -> Turn {
        self.core.turn(1)
    }
}
