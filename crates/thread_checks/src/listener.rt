//! A reporter that writes down which files it is told.

use crate::sources::{File, file_named};
use crate::steps::Step;
use pc_outside::MemorySink;
use pc_terms::{Failed, Problem, Row, Text};
use report_hub::Reporter;
use session_run::SinkReporter;
use std::alloc::Global;
use std::sync::Arc;
use std::sync::atomic::{AtomicU64, Ordering};

/// A reporter on a sink in memory, which also adds each file that it is told to a log.
#[derive(Drop)]
pub struct Listener {
    inner: SinkReporter<MemorySink>,
    log: Arc<AtomicU64>,
}

impl Listener {
    /// Its reports of these numbers fail; the first has the number 1.
    pub fn new(alloc: Global, failing: Vec<u64>, log: Arc<AtomicU64>) -> Listener {
        Listener {
            inner: SinkReporter::new(alloc, MemorySink::new(alloc, failing)),
            log,
        }
    }
}

impl Reporter for Listener {
    ghost use Rattle.session_run.specs.Reporters.{told_of, faults_of};

    ghost told = { λ it. told_of it.inner };

    ghost faults = { λ it. faults_of it.inner };

    fn report(&mut self, file: &Text, problems: &Row<Problem>) -> Result<(), Failed> {
        match self.inner.report(file, problems) {
            Ok(()) => {
                let log = self.log.load(Ordering::SeqCst);
                self.log
                    .store(logged(log, file_named(file.as_str())), Ordering::SeqCst);
                Ok(())
            }
            Err(failed) => Err(failed),
        }
    }
}

// The log with one file more.
fn logged(log: u64, file: Option<File>) -> u64 {
    let number = match file {
        Some(File::A) => 1,
        Some(File::B) => 2,
        Some(File::C) => 3,
        Some(File::D) => 4,
        None => 5,
    };
    log.wrapping_mul(31).wrapping_add(number)
}

/// The log of the checks among these events, but for the reports of these numbers.
pub fn log_of(steps: &[Step], failing: &[u64]) -> u64 {
    let mut number: u64 = 0;
    let mut log = 0;
    for step in steps {
        if let Step::Checked(file) = step {
            number = number.saturating_add(1);
            if !failing.contains(&number) {
                log = logged(log, Some(*file));
            }
        }
    }
    log
}
