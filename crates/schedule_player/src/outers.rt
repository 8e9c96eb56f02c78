/// What becomes of the lines that stand under a line.
#[derive(Clone, Copy, Debug)]
pub enum Work {
    /// They are played, and then the ask of this ticket is settled. `is_fed` says whether the engine has it, and `turns` how
    /// many turns it had.
    Ask {
        ticket: u64,
        is_fed: bool,
        turns: u64,
    },
    /// They are played in checks. The next check to begin has this number.
    Checks {
        next: u64,
    },
    /// They are played in checks. The one of this number has begun, and had so many turns.
    Check {
        number: u32,
        turns: u64,
    },
    /// They are played in the place of their line.
    Beside,
    /// They are passed over.
    Passed,
}

/// A line with lines under it that are still to come.
#[derive(Clone, Copy, Debug)]
pub struct Outer {
    pub level: u32,
    /// Whether it is an ask, or stands under one.
    pub under_ask: bool,
    pub work: Work,
}
