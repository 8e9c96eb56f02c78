ghost use Rattle.std.specs.Prelude.{◌≡◌, ◌⊎◌, Option, Some, Ok, Err};
ghost use Rattle.pc_terms.specs.Bytes.{Bytes};
ghost use Rattle.session_input.specs.Reads.{Reading, ComesTo, told};
ghost use Rattle.session_input.specs.declared.refusal.Refusal.{Refusal as Why};
ghost use Rattle.session_input.specs.declared.refusal.Refusal.TheVariants.{ReadFault};
ghost use Rattle.session_input.specs.declared.refusal.NoInput.TheVariants.{Refused};

/// Where all contents that matter are told, a reading comes to what they say, or to a fault of reading, or memory runs out.
pub fn law_told_readings<A>()
    ensures given { (content : Bytes → Option Bytes) (reading : Reading A) (a b : A) → told content reading ≡ Some (Ok b) → ComesTo content reading (Ok a) → a ≡ b }
    ensures not_given { (content : Bytes → Option Bytes) (reading : Reading A) (a : A) (why : Why) → told content reading ≡ Some (Err why) → ComesTo content reading (Ok a) → ⊥ }
    ensures refused { (content : Bytes → Option Bytes) (reading : Reading A) (why other : Why) → told content reading ≡ Some (Err other)
        → ComesTo {A = A} content reading (Err (Refused why)) → (why ≡ other) ⊎ ((name : Bytes) × (why ≡ ReadFault name)) }
    ensures not_refused { (content : Bytes → Option Bytes) (reading : Reading A) (a : A) (why : Why) → told content reading ≡ Some (Ok a)
        → ComesTo {A = A} content reading (Err (Refused why)) → (name : Bytes) × (why ≡ ReadFault name) }
{}
