ghost use Rattle.std.specs.Prelude.{◌≡◌, false, IfSome, IfNone, Some, All, slice_get};
ghost use Rattle.std.specs.Option.{option_map};
ghost use Rattle.safe_points.specs.Stack.{ticket_of, has_ticket};

/// A task on the stack, as contracts see it. A stale one has to start again before it goes on.
#[derive(Drop)]
pub struct Ticketed<T> {
    pub ticket: u64,
    pub task: T,
    pub stale: bool,
}

// Where the task of this ticket is. It is looked for from the top, where it mostly is.
pub(crate) fn index_of<T>(tasks: &[Ticketed<T>], ticket: u64) -> Option<usize>
    ensures found { IfSome result (λ index. option_map ticket_of (slice_get tasks.now index) ≡ Some ticket) }
    ensures absent { IfNone result (All (λ ticketed. has_ticket ticket ticketed ≡ false) tasks.now) }
{
    tasks.iter().rposition(|ticketed| ticketed.ticket == ticket)
}
