ghost use Rattle.history_checks.specs.Rows as rows;

/// What the definitions say of schedules with cancels.
pub fn rows_of_cancels()
    ensures inside { rows.CancelInside }
    ensures after { rows.CancelAfter }
    ensures ahead { rows.CancelAhead }
    ensures outer { rows.CancelOuter }
{}

/// What the definitions say of schedules with shutdowns.
pub fn rows_of_shutdowns()
    ensures inside { rows.CloseInside }
    ensures cancel { rows.CancelAfterClose }
    ensures after { rows.AfterClose }
{}

/// What the definitions say of schedules with lines inside asks.
pub fn rows_of_inner_lines()
    ensures mutations { rows.MutationsInside }
    ensures memory { rows.OutOfMemory }
{}

/// What the definitions say of schedules with checks.
pub fn rows_of_checks()
    ensures twice { rows.IdleTwice }
    ensures reload { rows.ReloadInCheck }
    ensures none { rows.NoSuchCheck }
    ensures remove { rows.RemoveInCheck }
    ensures ask { rows.IdleInAsk }
{}
