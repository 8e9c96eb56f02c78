//! A reporter that writes down which files it is told.

ghost use Rattle.std.specs.Prelude.{◌≡◌, [], ◌∷◌, ◌++◌, OnOk, OnErr};

use pc_terms::{Failed, NoMemory, Problem, Row, Text};
use report_hub::Reporter;
use std::alloc::Global;
use std::sync::Arc;
use std::sync::atomic::{AtomicU64, Ordering};

/// It adds a digit to the log for each finding: its own for a file whose name begins with `A`, and the next one for
/// another file. It takes no problems.
pub struct Listener {
    pub digit: u64,
    pub told: Row<(Text, Row<Problem>)>,
    pub faults: u64,
    pub alloc: Global,
    pub log: Arc<AtomicU64>,
}

impl Listener {
    fn keep(&mut self, file: &Text, problems: &Row<Problem>) -> Result<(), NoMemory>
        ensures ok { OnOk result
            ((self.new.told ≡ self.old.told ++ (file.now, problems.now) ∷ []) × (self.new.faults ≡ self.old.faults)) }
        ensures err { OnErr result ((self.new.told ≡ self.old.told) × (self.new.faults ≡ self.old.faults)) }
    {
        if !problems.is_empty() {
            return Err(NoMemory {});
        }
        let file = Text::new(self.alloc, file.as_str())?;
        self.told.push((file, Row::new(self.alloc)))
    }

    fn write(&self, file: &Text) {
        let own = file.as_str().as_bytes().first() == Some(&b'A');
        let digit = self.digit.wrapping_add(u64::from(!own));
        let log = self.log.load(Ordering::SeqCst);
        self.log
            .store(log.wrapping_mul(10).wrapping_add(digit), Ordering::SeqCst);
    }
}

impl Reporter for Listener {
    ghost told = { λ it. it.told };

    ghost faults = { λ it. it.faults };

    fn report(&mut self, file: &Text, problems: &Row<Problem>) -> Result<(), Failed> {
        if self.keep(file, problems).is_err() {
            self.faults = self.faults.saturating_add(1);
            return Err(Failed {});
        }
        self.write(file);
        Ok(())
    }
}

impl Drop for Listener {
    fn drop(self) {
        let Listener {
            digit: _,
            told: _,
            faults: _,
            alloc: _,
            log: _,
        } = self;
    }
}
