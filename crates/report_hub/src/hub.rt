ghost use Rattle.std.specs.Prelude.{◌≡◌, [], ◌∷◌, ◌++◌, length, None, Some, slice_set, IfOk, IfErr, OnOk, OnErr};
ghost use Rattle.report_hub.specs.Hub.{reporters_of, attached_at, IsTold, OfEach};

use crate::Reporter;
use pc_terms::{NoMemory, Problem, Row, Text};
use std::alloc::Global;

/// The reporters that are attached, each under a number. Contracts see them as the list `reporters_of`. What
/// is still attached is dropped with the hub.
#[derive(Drop)]
pub struct Hub {
    reporters: Vec<Option<Box<dyn Reporter + Send>>>,
}

// Whether the report fails or not, the hub goes on.
fn tell_one(reporter: &mut Box<dyn Reporter + Send>, file: &Text, problems: &Row<Problem>)
    ensures { IsTold told faults (file.now, problems.now) reporter.old reporter.new }
{
    let _ = reporter.report(file, problems);
}

impl Hub {
    /// A hub without reporters.
    pub fn new(alloc: Global) -> Result<Hub, NoMemory>
        ensures { IfOk result (λ hub. reporters_of hub ≡ []) }
    {
        Ok(Hub {
            reporters: Vec::new(alloc),
        })
    }

    /// Attaches a reporter, and gives its number. Numbers count up from 0, and none is given twice. Out of
    /// memory it hands the reporter back.
    pub fn attach(
        &mut self,
        reporter: Box<dyn Reporter + Send>,
    ) -> Result<usize, Box<dyn Reporter + Send>>
        ensures number { IfOk result (λ number. number ≡ length (reporters_of self.old)) }
        ensures ok { OnOk result (reporters_of self.new ≡ reporters_of self.old ++ Some reporter ∷ []) }
        ensures handed_back { IfErr result (λ back. back ≡ reporter) }
        ensures err { OnErr result (reporters_of self.new ≡ reporters_of self.old) }
    {
        let number = self.reporters.len();
        if self.reporters.push(None).is_err() {
            return Err(reporter);
        }
        self.reporters[number] = Some(reporter);
        Ok(number)
    }

    /// Takes a reporter out of the hub and gives it back. It takes no memory.
    pub fn detach(&mut self, number: usize) -> Option<Box<dyn Reporter + Send>>
        ensures given { result ≡ attached_at (reporters_of self.old) number }
        ensures rest { reporters_of self.new ≡ slice_set (reporters_of self.old) number None }
    {
        self.reporters.get_mut(number)?.take()
    }

    /// Reports to every attached reporter in the order of attaching, once each, and goes on where one fails.
    pub fn tell(&mut self, file: &Text, problems: &Row<Problem>)
        ensures { OfEach (IsTold told faults (file.now, problems.now)) (reporters_of self.old) (reporters_of self.new) }
    {
        for slot in self.reporters.iter_mut() {
            if let Some(reporter) = slot {
                tell_one(reporter, file, problems);
            }
        }
    }
}
