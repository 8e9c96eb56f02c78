//! Questions that may first need items, and the rounds that answer them for a whole list of items. All of it is
//! definitions and their laws: nothing here runs.
#![tactic(auto)]

ghost use Rattle.item_questions.specs.Laws.{StaysDone, CyclicNeed, EndsInTime, EndsAtOnce, IsSettled};

/// A typing that is done stays done, with the same result, under every map that knows more.
pub fn law_larger_map<K, V, A>()
    ensures { StaysDone K V A }
{}

/// An item that in the end needs a cyclic item is cyclic.
pub fn law_cyclic_need<K, V>()
    ensures { CyclicNeed K V }
{}

/// After as many rounds as there are items, no further round adds anything.
pub fn law_rounds_end<K, V>()
    ensures { EndsInTime K V }
{}

/// Once a round adds no item, the rounds have ended.
pub fn law_idle_round<K, V>()
    ensures { EndsAtOnce K V }
{}

/// In the end an item has exactly the value that its typing gives then.
pub fn law_settled<K, V>()
    ensures { IsSettled K V }
{}
