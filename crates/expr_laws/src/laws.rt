//! What the reader of expressions owes to the grammar, one pair of braces being one item. The functions do nothing: their
//! clauses are the laws.

ghost use Rattle.std.specs.Prelude.{◌≡◌, Bool, true, List, [], Some};
ghost use Rattle.reading_machines.specs.Laws.{ReadsExactly};
ghost use Rattle.reading_machines.specs.Machines.{run, reading_of};
ghost use Rattle.reading_machines.specs.Parts.{IsBest, IsStuckAt};
ghost use Rattle.scan_tokens.specs.Scanned.{scanned};
ghost use Rattle.scan_tokens.specs.Words.{Bytes};
ghost use Rattle.source_grammar.specs.Brackets.{has_no_arrow};
ghost use Rattle.source_grammar.specs.Expressions.{InfixExpr};
ghost use Rattle.source_grammar.specs.ExpressionTrees.{expr_built};
ghost use Rattle.source_grammar.specs.Lexemes.{lexemes};
ghost use Rattle.source_grammar.specs.Statements.{longest};
ghost use Rattle.expr_tails.specs.declared.states.Limit.TheVariants as limit;
ghost use Rattle.expr_tails.specs.declared.states.State.{State};
ghost use Rattle.expr_steps.specs.Reading.{built_at, is_read, reader, stepped};
ghost use Rattle.expr_steps.specs.Reading.{Item as Picture};
ghost use Rattle.expr_laws.specs.Exactly.{AreOfExpr, AreOfGuard, InLines, ReadItem, items_of, pictures_of, reader_in_lines};
ghost use Rattle.expr_laws.specs.Items.{items_tokens};
ghost use Rattle.expr_laws.specs.Newlines.{NewlinesEnd};
ghost use Rattle.expr_laws.specs.Pictures.{built_shown};

/// In the tokens of a text each newline that counts stands after a token that can end a statement.
pub fn law_newlines()
    ensures { (text : Bytes) → NewlinesEnd (lexemes (scanned text)) }
{}

/// The reader reads exactly the items of expressions. Each list of items has one derivation at most, and the reader has its
/// tree.
pub fn law_items()
    ensures exact { ReadsExactly (AreOfExpr longest) (reader_in_lines longest) }
    ensures one { (is : List (ReadItem longest)) (a b : AreOfExpr longest is) → a.derivation ≡ b.derivation }
    ensures tree { (is : List (ReadItem longest)) (a : AreOfExpr longest is) (s : InLines State)
        → run (reader_in_lines longest).step is (reader_in_lines longest).start ≡ Some s → built_at s.state ≡ built_shown (expr_built a.derivation) }
{}

/// Where newlines count as the scanner has them, the reader notes the longest expression that the items begin with, and stops
/// at the first item that no expression admits.
pub fn law_longest_items()
    ensures best { (follows : List Picture → Bool) (is : List (ReadItem longest)) → NewlinesEnd (items_tokens (items_of longest is))
        → IsBest (AreOfExpr longest) (λ js. follows (pictures_of longest js)) is (reading_of (reader limit.Expr) follows (pictures_of longest is)).best }
    ensures stuck { (follows : List Picture → Bool) (is : List (ReadItem longest)) → NewlinesEnd (items_tokens (items_of longest is))
        → IsStuckAt (AreOfExpr longest) is (reading_of (reader limit.Expr) follows (pictures_of longest is)).reached }
{}

/// The same of the guard of a case, in which no arrow stands outside brackets.
pub fn law_guards()
    ensures complete { (is : List (ReadItem longest)) (a : AreOfGuard longest is)
        → (s : State) × (run stepped (pictures_of longest is) (reader limit.CaseGuard).start ≡ Some s) × (is_read s ≡ true)
        × (built_at s ≡ built_shown (expr_built (InfixExpr a.derivation))) }
    ensures one { (is : List (ReadItem longest)) (a b : AreOfGuard longest is) → a.derivation ≡ b.derivation }
    ensures sound { (is : List (ReadItem longest)) (s : State) → NewlinesEnd (items_tokens (items_of longest is))
        → has_no_arrow [] (items_tokens (items_of longest is)) ≡ true
        → run stepped (pictures_of longest is) (reader limit.CaseGuard).start ≡ Some s → is_read s ≡ true → AreOfGuard longest is }
{}
