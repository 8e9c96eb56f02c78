ghost use Rattle.std.specs.Prelude.{◌≡◌};
ghost use Rattle.pc_outside.specs.Counting.{one_more};
ghost use Rattle.pc_outside.specs.FailurePlan.{is_planned};

/// The numbers of the calls on a form in memory that are to fail, and how many calls there were.
#[derive(Drop)]
pub(crate) struct FailurePlan {
    pub(crate) failing: Vec<u64>,
    pub(crate) calls: u64,
}

impl FailurePlan {
    pub(crate) fn new(failing: Vec<u64>) -> FailurePlan
        ensures failing { result.failing.items ≡ failing.items }
        ensures calls { result.calls ≡ 0 }
    {
        FailurePlan { failing, calls: 0 }
    }

    /// Counts a call, and says whether it is to fail.
    pub(crate) fn begin_call(&mut self) -> bool
        ensures planned { result ≡ is_planned self.old.failing.items self.old.calls }
        ensures failing { self.new.failing.items ≡ self.old.failing.items }
        ensures calls { self.new.calls ≡ one_more self.old.calls }
    {
        self.calls = self.calls.saturating_add(1);
        self.failing.contains(&self.calls)
    }
}
