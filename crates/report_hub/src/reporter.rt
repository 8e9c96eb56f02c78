ghost use Rattle.std.specs.Prelude.{ℕ, List};

use pc_terms::{Failed, Problem, Row, Text};

/// Who is told what the checks in the background find.
pub trait Reporter: Drop {
    ghost use Rattle.report_hub.specs.Telling.{Finding, Appends, ReportCounts};

    /// What it was told, in order.
    ghost told: { Self → List Finding };

    /// How many reports have failed. It never falls.
    ghost faults: { Self → ℕ };

    /// Tells the problems that a file was found to have. A report that fails is not told.
    fn report(&mut self, file: &Text, problems: &Row<Problem>) -> Result<(), Failed>
        ensures told { Appends result (file.now, problems.now) (told self.old) (told self.new) }
        ensures counts { ReportCounts result (faults self.old) (faults self.new) };
}
