ghost use Rattle.std.specs.Prelude.{◌≡◌, ◌≤◌, ℕ, true, false, List, ◌∷◌, ◌++◌, Some, IsTrue};
ghost use Rattle.ask_history.specs.Journal.{is_closed, is_cancelled, ticket_of};
ghost use Rattle.ask_history.specs.Legal.{is_legal};
ghost use Rattle.ask_history.specs.declared.calls.Call.{Call};
ghost use Rattle.ask_history.specs.declared.events.Event.{Event};
ghost use Rattle.ask_history.specs.declared.events.Event.TheVariants.{Accept};
ghost use Rattle.ask_history.specs.declared.script.Line.{Line};
ghost use Rattle.ask_history.specs.declared.script.Order.TheVariants as order;
ghost use Rattle.ask_history.specs.declared.script.Script.{Script};
ghost use Rattle.client_scripts.specs.Lines.{next_number};
ghost use Rattle.client_scripts.specs.Clients.{is_answered};
ghost use Rattle.client_scripts.specs.OfScripts.{OfScript, OfScripts};
ghost use Rattle.client_scripts.specs.History.{Entry, journal_of};
ghost use Rattle.client_scripts.specs.Runs.{AllPlayed};

/// Where each client has played its script, whoever is no client made only what it may, and the session is shut down, the
/// journal is that of clients that play these scripts.
pub fn law_clients_play_their_scripts()
    ensures { (scripts : List Script) (history : List Entry) (seen : ℕ → List Entry) → IsTrue (is_legal (journal_of history)) → AllPlayed scripts seen history
        → is_closed (journal_of history) ≡ true → OfScripts scripts (journal_of history) }
{}

/// What a line waits for comes before the calls of all lines below it: the settling of the call of a `wait`, and that of the call
/// of a `cancel`, where the journal has no cancel of it.
pub fn law_waits_come_first()
    ensures waits { (c k : ℕ) (lines above below : List Line) (line : Line) (journal before behind : List Event) (t tag : ℕ) (call : Call) → OfScript c lines journal
        → lines ≡ above ++ line ∷ below → line.order ≡ order.Wait k → journal ≡ before ++ Accept t c tag call ∷ behind → next_number 1 above ≤ tag
        → is_answered c before k ≡ true }
    ensures cancels { (c k : ℕ) (lines above below : List Line) (line : Line) (journal before behind : List Event) (t tag : ℕ) (call : Call) → OfScript c lines journal
        → lines ≡ above ++ line ∷ below → line.order ≡ order.Cancel k → journal ≡ before ++ Accept t c tag call ∷ behind → next_number 1 above ≤ tag
        → ((u : ℕ) → ticket_of journal c k ≡ Some u → is_cancelled journal u ≡ false) → is_answered c before k ≡ true }
{}
