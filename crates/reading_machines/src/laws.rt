//! What holds of the definitions. The functions do nothing; their clauses are the laws.

ghost use Rattle.std.specs.Prelude.{◌≡◌, ℕ, Bool, List, take, Option};
ghost use Rattle.reading_machines.specs.Laws.{ReadsExactly, LeadsToWhole};
ghost use Rattle.reading_machines.specs.Machines.{Machine, reading_of};
ghost use Rattle.reading_machines.specs.Parts.{IsBest, IsStuckAt};

/// A grammar of one part: which lists of tokens are one.
pub trait Grammar<T> {
    ghost is_part: { List T → Type 0 };
}

/// What a machine notes last is the longest part before what may follow, and where it notes none there is none.
pub fn law_longest<S, T, G: Grammar<T>>()
    ensures { (m : Machine S T) (follows : List T → Bool) (ts : List T)
        → ReadsExactly G.is_part m → IsBest G.is_part follows ts (reading_of m follows ts).best }
{}

/// Where a machine stops is the first token that no part admits.
pub fn law_stuck<S, T, G: Grammar<T>>()
    ensures { (m : Machine S T) (follows : List T → Bool) (ts : List T)
        → ReadsExactly G.is_part m → IsStuckAt G.is_part ts (reading_of m follows ts).reached }
{}

/// The tokens that a machine notes last, read alone, lead to a whole state.
pub fn law_longest_alone<S, T>()
    ensures { (m : Machine S T) (follows : List T → Bool) (ts : List T) (count : ℕ)
        → (reading_of m follows ts).best ≡ Some count → LeadsToWhole m (take count ts) }
{}
