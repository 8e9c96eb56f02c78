ghost use Rattle.std.specs.Prelude.{◌≡◌, ℕ, nat_lt, List, [], ◌∷◌, ◌++◌, map, true, false, is_some, IsTrue};
ghost use Rattle.ask_history.specs.declared.calls.Call.{Call};
ghost use Rattle.ask_history.specs.declared.events.Event.{Event};
ghost use Rattle.ask_history.specs.declared.events.Event.TheVariants.{Settle};
ghost use Rattle.ask_history.specs.declared.events.Mark.{Mark};
ghost use Rattle.ask_history.specs.declared.script.Line.{Line};
ghost use Rattle.ask_history.specs.Legal.{is_legal, may_follow};
ghost use Rattle.ask_history.specs.Journal.{accepted, call_of, is_settled, all_settled};
ghost use Rattle.ask_history.specs.Checks.{check_begins};
ghost use Rattle.ask_history.specs.Nested.{nested, in_order};
ghost use Rattle.ask_history.specs.Schedule.{journal_of, play_checks};
ghost use Rattle.ask_history.specs.Plain.{plain_line, plain_journal};

/// Every prefix of a legal journal is legal.
pub fn law_legal_prefixes()
    ensures { (front rest : List Event) → IsTrue (is_legal (front ++ rest)) → IsTrue (is_legal front) }
{}

/// Whatever its lines are, and whichever tickets are marked out of memory, the journal of a schedule is legal, and
/// every accepted call is settled in it.
pub fn law_schedules_are_legal()
    ensures legal { (without : List ℕ) (lines : List Line) → IsTrue (is_legal (journal_of without lines)) }
    ensures settled { (without : List ℕ) (lines : List Line) → all_settled (journal_of without lines) ≡ true }
{}

/// Where the lines are calls without inner lines, each call is accepted and settled, one after another.
pub fn law_plain_schedules()
    ensures { (without : List ℕ) (calls : List Call) → journal_of without (map plain_line calls) ≡ plain_journal without calls }
{}

/// No line is lost or moved where lines are put under others.
pub fn law_lines_keep_their_order()
    ensures { (number : ℕ) (lines : List Line) → in_order (nested number lines) ≡ lines }
{}

/// After an `idle` without inner lines no check can begin.
pub fn law_idle_leaves_nothing_due()
    ensures { (journal : List Event) → check_begins (play_checks 0 [] journal) ≡ false }
{}

/// In a legal journal the accepted tickets are those below the number of accepted calls, so the next one is not
/// accepted yet, and a ticket is settled only where it is accepted.
pub fn law_accepted_tickets()
    ensures accepted { (journal : List Event) → IsTrue (is_legal journal) → (t : ℕ) → is_some (call_of journal t) ≡ nat_lt t (accepted journal) }
    ensures settled { (journal : List Event) → IsTrue (is_legal journal) → (t : ℕ) → IsTrue (is_settled journal t) → IsTrue (is_some (call_of journal t)) }
{}

/// A settling stands after none of its ticket.
pub fn law_settled_once()
    ensures { (journal : List Event) (t : ℕ) (mark : Mark) → IsTrue (may_follow journal (Settle t mark)) → is_settled journal t ≡ false }
{}
