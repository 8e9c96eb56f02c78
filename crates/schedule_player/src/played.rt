use ask_history::{Answer, Journal};
use pc_terms::{Problem, Row};

/// What came of playing a schedule.
#[derive(Debug, Drop)]
pub struct Played {
    pub journal: Journal,
    /// The answers of the accepted calls, in the order in which they were accepted.
    pub answers: Row<Answer>,
    /// The problems of each checked file, in the order of the checks.
    pub problems: Row<Row<Problem>>,
    /// Whether every line was played. Else memory ran out, and what was open is settled so.
    pub whole: bool,
}
