ghost use Rattle.std.specs.Prelude.{◌≡◌, ℕ, List, true};
ghost use Rattle.safe_points.specs.Stack.{is_on, has_stale};
ghost use Rattle.safe_points.specs.History.{Change, after, AreAllowed, must_restart};

/// A task is stale exactly where `stale_all` came after its push and after the last `refresh_top` on it.
pub fn law_stale_marks<T>()
    ensures { (calls : List (Change T)) (ticket : ℕ) → AreAllowed calls → is_on (after calls) ticket ≡ true
        → has_stale (after calls) ticket ≡ must_restart calls ticket }
{}
