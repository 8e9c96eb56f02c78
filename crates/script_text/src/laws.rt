ghost use Rattle.std.specs.Prelude.{◌≡◌, ℕ, List, Ok, Err};
ghost use Rattle.ask_history.specs.declared.script.Line.{Line};
ghost use Rattle.script_text.specs.declared.kinds.ScriptKind.{ScriptKind};
ghost use Rattle.script_text.specs.Words.{Bytes};
ghost use Rattle.script_text.specs.Grammar.{IsScript, IsFirstBad};
ghost use Rattle.script_text.specs.Reading.{lines_read};

/// A text says one list of lines at most, and it says none where a line is the first outside the grammar: what it says,
/// and which line that is, is what is read.
#[tactic(auto, using(crate::proofs::GrammarLemmas::reading_from_script, crate::proofs::GrammarLemmas::reading_from_bad))]
pub fn law_one_reading()
    ensures one { (script : ScriptKind) (text : Bytes) (a b : List Line) → IsScript script text a → IsScript script text b → a ≡ b }
    ensures lines { (script : ScriptKind) (text : Bytes) (lines : List Line) → IsScript script text lines → lines_read script text ≡ Ok lines }
    ensures bad { (script : ScriptKind) (text : Bytes) (number : ℕ) → IsFirstBad script text number → lines_read script text ≡ Err number }
{}
