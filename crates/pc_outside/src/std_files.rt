ghost use Rattle.std.specs.Prelude.{◌≡◌, ◌≤◌, IfOk, IfSome, vec_len, take};

use crate::{Files, ReadRefused};
use std::alloc::Global;
use std::io::Read;
use std::{fs, rt};

/// The most bytes that one call of the system is asked for.
const PIECE: usize = 16384;

/// The files of the system, by their paths. What they hold is not told, and neither is the name of a failed read.
/// Each error of the system, also an interrupted call, makes the read `Failed`.
#[derive(Drop)]
pub struct StdFiles<R> {
    runtime: R,
    faults: u64,
}

impl<R: rt::Files> StdFiles<R> {
    ghost use Rattle.pc_outside.specs.StdFiles.{faults_of};

    /// The files that a runtime, or a reference to one, can open.
    pub fn new(runtime: R) -> StdFiles<R>
        ensures { faults_of result ≡ 0 }
    {
        StdFiles { runtime, faults: 0 }
    }

    /// How many calls of `read` failed.
    pub fn faults(&self) -> u64
        ensures { result ≡ faults_of self.now }
    {
        self.faults
    }

    fn open_and_read(&self, alloc: Global, name: &str, most: usize) -> Result<Vec<u8>, ReadRefused>
        ensures { IfOk result (λ bytes. vec_len bytes ≤ most) }
    {
        match fs::open(&self.runtime, name) {
            Ok(mut file) => read_beginning(alloc, &mut file, most),
            Err(_) => Err(ReadRefused::Failed),
        }
    }
}

// Each turn but the last adds a byte or more, so `most` turns are enough, and none can end too early.
fn read_beginning<R: Read>(
    alloc: Global,
    reader: &mut R,
    most: usize,
) -> Result<Vec<u8>, ReadRefused>
    ensures most { IfOk result (λ bytes. vec_len bytes ≤ most) }
    ensures beginning { IfOk result (λ bytes. IfSome (R.remaining reader.old) (λ left. bytes.items ≡ take most left)) }
{
    let mut bytes = Vec::new(alloc);
    let mut piece = [0; PIECE];
    while bytes.len() < most {
        let room = PIECE.min(most - bytes.len());
        let Ok(count) = reader.read(&mut piece[..room]) else {
            return Err(ReadRefused::Failed);
        };
        if count == 0 {
            break;
        }
        bytes.extend_from_slice(&piece[..count])?;
    }
    Ok(bytes)
}

impl<R: rt::Files> Files for StdFiles<R> {
    ghost use Rattle.std.specs.Prelude.{None};
    ghost use Rattle.pc_outside.specs.Outside.{IsBeginning, ReadCounts};
    ghost use Rattle.pc_outside.specs.Counting.{faults_after_read};
    ghost use Rattle.pc_outside.specs.StdFiles.{faults_of};

    ghost faults = { faults_of };

    ghost content = { λ files name. None };

    ghost last_failed = { λ files. None };

    fn read(&mut self, alloc: Global, name: &str, most: usize) -> Result<Vec<u8>, ReadRefused>
        ensures bytes { IfOk result (λ bytes. IsBeginning None most bytes.items) }
        ensures most { IfOk result (λ bytes. vec_len bytes ≤ most) }
        ensures counts { ReadCounts result name.now (faults_of self.old) (faults_of self.new) None None }
        ensures faults { faults_of self.new ≡ faults_after_read result (faults_of self.old) }
    {
        let outcome = self.open_and_read(alloc, name, most);
        if let Err(ReadRefused::Failed) = outcome {
            self.faults = self.faults.saturating_add(1);
        }
        outcome
    }
}
