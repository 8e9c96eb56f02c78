ghost use Rattle.std.specs.Prelude.{◌≡◌, ◌≤◌, ◌≢◌, ℕ, List, if◌then◌else◌, is_ok, IfOk, OnOk, OnErr, vec_len, take};

use crate::failure_plan::FailurePlan;
use crate::{Files, ReadRefused};
use pc_terms::NoMemory;
use std::alloc::{AllocError, Global};
use std::collections::BTreeMap;

/// Files in memory. A name that is not among them cannot be read, and neither can any name at the calls that
/// are to fail.
#[derive(Drop)]
pub struct MemoryFiles {
    alloc: Global,
    contents: BTreeMap<String, Vec<u8>>,
    plan: FailurePlan,
    faults: u64,
    last_failed: Option<String>,
}

impl MemoryFiles {
    ghost use Rattle.std.specs.Option.{option_copied};
    ghost use Rattle.pc_outside.specs.Counting.{one_more};
    ghost use Rattle.pc_outside.specs.MemoryFiles.{content_of, failing_of, calls_of, faults_of, last_failed_of, SameContents, SameCalls};

    /// No files. `failing` has the numbers of the calls of `read` that are to fail; the first call has the number 1.
    pub fn new(alloc: Global, failing: Vec<u64>) -> MemoryFiles
        ensures contents { (name : List ℕ) → content_of result name ≡ None }
        ensures failing { failing_of result ≡ failing.items }
        ensures calls { calls_of result ≡ 0 }
        ensures faults { faults_of result ≡ 0 }
        ensures last_failed { last_failed_of result ≡ None }
    {
        MemoryFiles {
            alloc,
            contents: BTreeMap::new(alloc),
            plan: FailurePlan::new(failing),
            faults: 0,
            last_failed: None,
        }
    }

    /// Adds a file, or replaces its content.
    #[tactic(auto, using(std::proofs::lemmas::Map::Text::text_keys))]
    pub fn insert(&mut self, name: &str, content: Vec<u8>) -> Result<(), NoMemory>
        ensures ok { OnOk result (content_of self.new name.now ≡ Some content.items) }
        ensures err { OnErr result (content_of self.new name.now ≡ content_of self.old name.now) }
        ensures others { (other : List ℕ) → other ≢ name.now → content_of self.new other ≡ content_of self.old other }
        ensures calls { SameCalls self.old self.new }
    {
        let key = String::from_str(self.alloc, name)?;
        self.contents.insert(key, content)?;
        Ok(())
    }

    /// The name of the last call of `read` that failed.
    pub fn last_failed(&self) -> Option<&str>
        ensures { option_copied result ≡ last_failed_of self.now }
    {
        match &self.last_failed {
            Some(name) => Some(name.as_str()),
            None => None,
        }
    }

    /// How many calls of `read` failed.
    pub fn faults(&self) -> u64
        ensures { result ≡ faults_of self.now }
    {
        self.faults
    }

    // Counts a failed call and keeps its name. Without memory for the name it changes nothing.
    fn fail(&mut self, name: &str) -> Result<(), AllocError>
        ensures contents { SameContents self.old self.new }
        ensures failing { failing_of self.new ≡ failing_of self.old }
        ensures calls { calls_of self.new ≡ calls_of self.old }
        ensures faults { faults_of self.new ≡ (if is_ok result then one_more (faults_of self.old) else faults_of self.old) }
        ensures never_falls { faults_of self.old ≤ faults_of self.new }
        ensures last_failed { last_failed_of self.new ≡ (if is_ok result then Some name.now else last_failed_of self.old) }
    {
        let kept = String::from_str(self.alloc, name)?;
        self.last_failed = Some(kept);
        self.faults = self.faults.saturating_add(1);
        Ok(())
    }
}

fn beginning(alloc: Global, content: &[u8], most: usize) -> Result<Vec<u8>, AllocError>
    ensures { IfOk result (λ bytes. bytes.items ≡ take most content.now) }
{
    Vec::from_slice(alloc, &content[..most.min(content.len())])
}

impl Files for MemoryFiles {
    ghost use Rattle.pc_outside.specs.Outside.{IsBeginning, ReadCounts};
    ghost use Rattle.pc_outside.specs.MemoryFiles.{content_of, faults_of, last_failed_of, next_is_planned, answer_of, AnswersUnlessNoMemory, SameContents, Counts};

    ghost faults = { faults_of };

    ghost content = { content_of };

    ghost last_failed = { last_failed_of };

    fn read(&mut self, alloc: Global, name: &str, most: usize) -> Result<Vec<u8>, ReadRefused>
        ensures bytes { IfOk result (λ bytes. IsBeginning (content_of self.old name.now) most bytes.items) }
        ensures most { IfOk result (λ bytes. vec_len bytes ≤ most) }
        ensures content { SameContents self.old self.new }
        ensures counts { ReadCounts result name.now (faults_of self.old) (faults_of self.new)
            (last_failed_of self.old) (last_failed_of self.new) }

        // In memory the answer is determined, unless there is no memory, and so is what is kept of it.
        ensures answer { AnswersUnlessNoMemory result
            (answer_of (next_is_planned self.old) (content_of self.old name.now) most) }
        ensures kept { Counts result name.now self.old self.new }
    {
        let planned = self.plan.begin_call();
        match self.contents.get(name) {
            Some(content) if !planned => Ok(beginning(alloc, content, most)?),
            _ => {
                self.fail(name)?;
                Err(ReadRefused::Failed)
            }
        }
    }
}
