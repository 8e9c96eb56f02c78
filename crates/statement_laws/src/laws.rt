//! What the reader of one statement of a block owes to the grammar, one pair of braces being one item. The functions do nothing; their
//! clauses are the laws.

ghost use Rattle.std.specs.Prelude.{◌≡◌, ◌≤◌, Bool, false, true, length, map, List, [], ◌∷◌, Some};
ghost use Rattle.reading_machines.specs.Laws.{ReadsExactly};
ghost use Rattle.reading_machines.specs.Machines.{run, reading_of};
ghost use Rattle.reading_machines.specs.Parts.{IsBest, IsStuckAt};
ghost use Rattle.positioned_trees.specs.Trees.{max_number};
ghost use Rattle.source_grammar.specs.ExpressionTokens.{bstat_tokens};
ghost use Rattle.source_grammar.specs.ExpressionTrees.{bstat_built};
ghost use Rattle.source_grammar.specs.Statements.{is_whole_bstat, longest};
ghost use Rattle.expr_steps.specs.Reading.{Item as Picture};
ghost use Rattle.parse_exprs.specs.declared.statements.Statement.{Statement};
ghost use Rattle.parse_exprs.specs.Statements.{built, statements};
ghost use Rattle.expr_laws.specs.Exactly.{InLines};
ghost use Rattle.expr_laws.specs.Items.{items_tokens};
ghost use Rattle.expr_laws.specs.Newlines.{NewlinesEnd};
ghost use Rattle.expr_laws.specs.Pictures.{built_shown};
ghost use Rattle.statement_laws.specs.Statements.{AreOfStatement, BehindDot, ReadStatement, ReadStatementItem, dots_told, statement_items, statement_of, statement_pictures, statements_in_lines};

/// The reader reads exactly the items of a statement of a block that is not the empty one: an import, a definition with its modifiers, or an
/// expression. Each list of items has one derivation at most, and the reader has its tree, where there are no more tokens than a tree
/// can count.
pub fn law_statements()
    ensures exact { ReadsExactly (AreOfStatement longest) (statements_in_lines longest) }
    ensures whole { (d : ReadStatement) → is_whole_bstat (statement_of d) ≡ true }
    ensures one { (is : List (ReadStatementItem longest)) (a b : AreOfStatement longest is) → a.derivation ≡ b.derivation }
    ensures tokens { (is : List (ReadStatementItem longest)) (a : AreOfStatement longest is)
        → items_tokens (statement_items longest is) ≡ bstat_tokens (statement_of a.derivation) }
    ensures tree { (is : List (ReadStatementItem longest)) (a : AreOfStatement longest is) (s : InLines (BehindDot Statement))
        → length (items_tokens (statement_items longest is)) ≤ max_number → run (statements_in_lines longest).step is (statements_in_lines longest).start ≡ Some s
        → map built_shown (bstat_built (statement_of a.derivation)) ≡ built s.state.state ∷ [] }
{}

/// Where newlines count as the scanner has them, and the selectors behind each `.` were read, the reader notes the longest statement that the
/// items begin with and behind which what follows may stand, and stops at the first item that no statement admits.
pub fn law_longest_statement()
    ensures best { (follows : List Picture → Bool) (is : List (ReadStatementItem longest)) → NewlinesEnd (items_tokens (statement_items longest is))
        → dots_told longest false is ≡ true
        → IsBest (AreOfStatement longest) (λ js. follows (statement_pictures longest js)) is (reading_of statements follows (statement_pictures longest is)).best }
    ensures stuck { (follows : List Picture → Bool) (is : List (ReadStatementItem longest)) → NewlinesEnd (items_tokens (statement_items longest is))
        → dots_told longest false is ≡ true
        → IsStuckAt (AreOfStatement longest) is (reading_of statements follows (statement_pictures longest is)).reached }
{}
