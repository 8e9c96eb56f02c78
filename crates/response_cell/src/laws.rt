ghost use Rattle.std.specs.Prelude.{ℕ, List};
ghost use Rattle.response_cell.specs.History.{Change, after, AreAllowed, answer_at, set_for, taken_for, OneAnswer};

/// An answer is set once and taken once, and the taken answer is the one that was set.
pub fn law_one_answer()
    ensures { (calls : List Change) (ticket : ℕ) → AreAllowed calls
        → OneAnswer (set_for calls ticket) (taken_for calls ticket) (answer_at (after calls) ticket) }
{}
