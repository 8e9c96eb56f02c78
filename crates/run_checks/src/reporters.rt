//! A reporter that writes down which files it is told.

ghost use Rattle.std.specs.Prelude.{◌≡◌, [], ◌∷◌, ◌++◌, OnOk, OnErr};

use pc_terms::{Failed, NoMemory, Problem, Row, Text};
use report_hub::Reporter;
use std::alloc::Global;
use std::sync::Arc;
use std::sync::atomic::{AtomicU64, Ordering};

// It writes a digit for each finding at the end of the log: 1 for a file whose name begins with `A`, and 2 for another.
// It takes no problems.
pub struct Listener {
    told: Row<(Text, Row<Problem>)>,
    faults: u64,
    alloc: Global,
    log: Arc<AtomicU64>,
}

impl Listener {
    pub fn new(alloc: Global, log: Arc<AtomicU64>) -> Listener {
        Listener {
            told: Row::new(alloc),
            faults: 0,
            alloc,
            log,
        }
    }

    fn keep(&mut self, file: &Text, problems: &Row<Problem>) -> Result<(), NoMemory>
        ensures ok { OnOk result ((self.new.told ≡ self.old.told ++ (file.now, problems.now) ∷ [])
            × (self.new.faults ≡ self.old.faults)) }
        ensures err { OnErr result ((self.new.told ≡ self.old.told) × (self.new.faults ≡ self.old.faults)) }
    {
        if !problems.is_empty() {
            return Err(NoMemory {});
        }
        let file = Text::new(self.alloc, file.as_str())?;
        self.told.push((file, Row::new(self.alloc)))
    }

    fn write(&self, file: &Text) {
        let digit = match file.as_str().as_bytes().first() {
            Some(b'A') => 1,
            _ => 2,
        };
        let written = self.log.load(Ordering::SeqCst);
        self.log.store(
            written.wrapping_mul(10).wrapping_add(digit),
            Ordering::SeqCst,
        );
    }
}

impl Reporter for Listener {
    ghost told = { λ it. it.told };

    ghost faults = { λ it. it.faults };

    fn report(&mut self, file: &Text, problems: &Row<Problem>) -> Result<(), Failed> {
        if self.keep(file, problems).is_err() {
            self.faults = self.faults.saturating_add(1);
            return Err(Failed {});
        }
        self.write(file);
        Ok(())
    }
}

impl Drop for Listener {
    fn drop(self) {
        let Listener {
            told: _,
            faults: _,
            alloc: _,
            log: _,
        } = self;
    }
}
