ghost use Rattle.std.specs.Prelude.{◌≡◌, ◌≤◌, ◌+◌, ◌==◌, ◌||◌, ℕ, List, [], ◌∷◌, ◌++◌, Some, is_none, is_some, true, false, IsTrue};
ghost use Rattle.ask_history.specs.Sources.{Sources, is_mutation};
ghost use Rattle.ask_history.specs.declared.answers.Answer.{Answer};
ghost use Rattle.ask_history.specs.declared.calls.Call.{Call};
ghost use Rattle.ask_history.specs.declared.events.Event.{Event};
ghost use Rattle.ask_history.specs.declared.events.Event.TheVariants.{Accept, Settle, Checked};
ghost use Rattle.ask_history.specs.declared.events.Mark.{Mark};
ghost use Rattle.ask_history.specs.Journal.{accepted, after, checked, call_of, is_closed, is_settled, forestalled, taking_effect, changed, reply};
ghost use Rattle.ask_history.specs.Legal.{is_legal, is_next, may_follow};
ghost use Rattle.journal_laws.specs.Others.{are_others};
ghost use Rattle.journal_laws.specs.Stays.{Stays};

/// What others do, before the shutdown and after it, leaves the sources and the checked files.
pub fn law_others_leave_sources()
    ensures sources { (journal events : List Event) → IsTrue (are_others (is_closed journal) events) → after (journal ++ events) ≡ after journal }
    ensures files { (journal events : List Event) → IsTrue (are_others (is_closed journal) events) → checked (journal ++ events) ≡ checked journal }
{}

/// What others do to a legal journal before the shutdown leaves, besides, who is settled, the calls, who is cancelled, and
/// which calls may be settled.
pub fn law_others_leave_the_rest()
    ensures { (journal events : List Event) → IsTrue (is_legal (journal ++ events)) → IsTrue (are_others (is_closed journal) events)
        → is_closed (journal ++ events) ≡ false → Stays journal (journal ++ events) }
{}

/// What one settling or one check does to the sources, to who is settled, and to the checked files.
pub fn law_one_event()
    ensures sources { (journal : List Event) (t : ℕ) (mark : Mark)
        → after (journal ++ Settle t mark ∷ []) ≡ changed (after journal) (taking_effect journal t mark) }
    ensures settled { (journal : List Event) (t u : ℕ) (mark : Mark) → is_settled (journal ++ Settle t mark ∷ []) u ≡ (is_settled journal u || (t == u)) }
    ensures files { (journal : List Event) (file : List ℕ) → checked (journal ++ Checked file ∷ []) ≡ checked journal ++ file ∷ [] }
{}

/// Where a ticket may be settled, so may each below it, and so it may after every event that may follow. Where its call is
/// settled, or is an ask, the next one may be settled too.
pub fn law_next_tickets()
    ensures below { (journal : List Event) (t u : ℕ) → t ≤ u → IsTrue (is_next journal u) → IsTrue (is_next journal t) }
    ensures kept { (journal : List Event) (event : Event) (t : ℕ) → IsTrue (may_follow journal event) → t ≤ accepted journal → IsTrue (is_next journal t)
        → IsTrue (is_next (journal ++ event ∷ []) t) }
    ensures settled { (journal : List Event) (t : ℕ) → IsTrue (is_next journal t) → IsTrue (is_settled journal t) → IsTrue (is_next journal (t + 1)) }
    ensures ask { (journal : List Event) (t : ℕ) (call : Call) → IsTrue (is_legal journal) → IsTrue (is_next journal t) → call_of journal t ≡ Some call
        → is_mutation call ≡ false → IsTrue (is_next journal (t + 1)) }
{}

/// In a legal journal each ticket is accepted once. So there is one call that it has, and one client whose it is.
pub fn law_tickets_have_one_call()
    ensures before { (front back : List Event) (t client tag : ℕ) (call : Call) → IsTrue (is_legal (front ++ Accept t client tag call ∷ back))
        → is_some (call_of front t) ≡ false }
    ensures behind { (front back : List Event) (t client tag : ℕ) (call : Call) → IsTrue (is_legal (front ++ Accept t client tag call ∷ back))
        → is_some (call_of back t) ≡ false }
    ensures call { (front back : List Event) (t client tag : ℕ) (call : Call) → IsTrue (is_legal (front ++ Accept t client tag call ∷ back))
        → call_of (front ++ Accept t client tag call ∷ back) t ≡ Some call }
{}

/// Where an answer is forestalled, it does not depend on what is found.
pub fn law_forestalled_replies()
    ensures { (f g : Sources → Call → Answer) (journal : List Event) (t : ℕ) (mark : Mark) → is_none (forestalled journal t mark) ≡ false
        → reply f journal t mark ≡ reply g journal t mark }
{}
