//! A reporter that writes on a sink.

ghost use Rattle.std.specs.Prelude.{◌≡◌, ◌++◌, ◌∷◌, [], IfOk};
ghost use Rattle.session_run.specs.Reporters.{WroteText};
ghost use Rattle.transcript.specs.Printed.{checked_text};

use pc_outside::Sink;
use pc_terms::{Failed, NoMemory, Problem, Row, Text};
use report_hub::Reporter;
use std::alloc::Global;
use transcript::print_checked;

/// A reporter that writes each finding that it is told on a sink, and keeps it. Where it cannot be written, or memory is
/// missing, it is not told, and the count of faults rises. As long as each put is whole, the sink has what was told, in order,
/// and nothing else of the reporter's.
#[derive(Drop)]
pub struct SinkReporter<O> {
    alloc: Global,
    out: O,
    told: Vec<(Text, Row<Problem>)>,
    faults: u64,
}

fn copy_of(problem: &Problem) -> Result<Problem, NoMemory>
    ensures { IfOk result (λ copy. copy ≡ problem.now) }
{
    Ok(Problem {
        code: problem.code,
        span: problem.span,
        text: problem.text.clone()?,
    })
}

fn copies_of(alloc: Global, problems: &[Problem]) -> Result<Row<Problem>, NoMemory>
    ensures { IfOk result (λ copies. copies ≡ problems.now) }
{
    let mut copies = Row::new(alloc);
    for problem in problems {
        copies.push(copy_of(problem)?)?;
    }
    Ok(copies)
}

fn write_finding<O: Sink>(
    alloc: Global,
    out: &mut O,
    file: &Text,
    problems: &Row<Problem>,
) -> Result<(), Failed>
    ensures { WroteText result (checked_text file.now problems.now) (O.whole out.new) (O.written out.old) (O.written out.new) }
{
    match print_checked(alloc, file, problems.as_slice()) {
        Ok(text) => match out.put(text.as_str().as_bytes()) {
            Ok(()) => Ok(()),
            Err(_) => Err(Failed {}),
        },
        Err(NoMemory {}) => Err(Failed {}),
    }
}

fn finding_of(
    alloc: Global,
    file: &Text,
    problems: &Row<Problem>,
) -> Result<(Text, Row<Problem>), NoMemory>
    ensures { IfOk result (λ finding. finding ≡ (file.now, problems.now)) }
{
    Ok((file.clone()?, copies_of(alloc, problems.as_slice())?))
}

impl<O: Sink> SinkReporter<O> {
    ghost use Rattle.std.specs.Prelude.{OnOk, OnErr};
    ghost use Rattle.session_run.specs.Reporters.{told_of, faults_of, sink_of};

    /// A reporter that was told nothing.
    pub fn new(alloc: Global, out: O) -> SinkReporter<O>
        ensures told { told_of result ≡ [] }
        ensures faults { faults_of result ≡ 0 }
        ensures sink { sink_of result ≡ out }
    {
        SinkReporter {
            alloc,
            out,
            told: Vec::new(alloc),
            faults: 0,
        }
    }

    // Writes a finding and keeps it. Memory for it is found first, so that what is written is kept.
    fn keep(&mut self, file: &Text, problems: &Row<Problem>) -> Result<(), Failed>
        ensures ok { OnOk result (told_of self.new ≡ told_of self.old ++ (file.now, problems.now) ∷ []) }
        ensures err { OnErr result (told_of self.new ≡ told_of self.old) }
        ensures faults { faults_of self.new ≡ faults_of self.old }
        ensures wrote { WroteText result (checked_text file.now problems.now) (O.whole (sink_of self.new))
            (O.written (sink_of self.old)) (O.written (sink_of self.new)) }
    {
        let finding = match finding_of(self.alloc, file, problems) {
            Ok(finding) => finding,
            Err(NoMemory {}) => return Err(Failed {}),
        };
        if self.told.reserve(1).is_err() {
            return Err(Failed {});
        }
        write_finding(self.alloc, &mut self.out, file, problems)?;
        self.told.push_reserved(finding);
        Ok(())
    }
}

impl<O: Sink + Drop> Reporter for SinkReporter<O> {
    ghost use Rattle.report_hub.specs.Telling.{Appends, ReportCounts};
    ghost use Rattle.session_run.specs.Reporters.{told_of, faults_of, sink_of};

    ghost told = { told_of };

    ghost faults = { faults_of };

    fn report(&mut self, file: &Text, problems: &Row<Problem>) -> Result<(), Failed>
        ensures told { Appends result (file.now, problems.now) (told_of self.old) (told_of self.new) }
        ensures counts { ReportCounts result (faults_of self.old) (faults_of self.new) }

        ensures wrote { WroteText result (checked_text file.now problems.now) (O.whole (sink_of self.new))
            (O.written (sink_of self.old)) (O.written (sink_of self.new)) }
    {
        if self.keep(file, problems).is_err() {
            self.faults = self.faults.saturating_add(1);
            return Err(Failed {});
        }
        Ok(())
    }
}
