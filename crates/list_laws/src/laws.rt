//! What the reader of the list of a block owes to the grammar, one pair of braces being one item. The function does nothing; its clauses
//! are the law.

ghost use Rattle.std.specs.Prelude.{◌≡◌, ◌≤◌, false, true, length, List, map};
ghost use Rattle.positioned_trees.specs.Trees.{max_number};
ghost use Rattle.source_grammar.specs.Statements.{longest};
ghost use Rattle.parse_exprs.specs.Lists.{of_items, pieces};
ghost use Rattle.parse_exprs.specs.Statements.{block_list, built_until, statements};
ghost use Rattle.expr_laws.specs.Items.{items_tokens};
ghost use Rattle.expr_laws.specs.Newlines.{NewlinesEnd};
ghost use Rattle.statement_laws.specs.Statements.{ReadStatementItem, dots_told, statement_items, statement_pictures};
ghost use Rattle.list_laws.specs.Lists.{AreOfList, DividedList, bstats_of, items_of_part, list_shown, parts_of, piece_of, written_parts};

/// Where newlines count as the scanner has them, and the selectors after each `.` were read, the items of a list are divided into `;`,
/// statements, each the longest beginning of what is left that is one and has a separator or the end after it, and, where no beginning
/// is, the items up to the next separator outside brackets. They are so divided in one way, and the reader divides them so.
pub fn law_division()
    ensures divided { (is : List (ReadStatementItem longest)) → NewlinesEnd (items_tokens (statement_items longest is)) → dots_told longest false is ≡ true
        → DividedList longest is }
    ensures one { (is : List (ReadStatementItem longest)) (a b : DividedList longest is) → parts_of longest a ≡ parts_of longest b }
    ensures reader { (is : List (ReadStatementItem longest)) → NewlinesEnd (items_tokens (statement_items longest is)) → dots_told longest false is ≡ true
        → (a : DividedList longest is) → pieces of_items statements built_until (statement_pictures longest is) ≡ map (piece_of longest) (parts_of longest a) }
{}

/// Each way in which the grammar has the items of a list as one divides them as the reader does: its statements that are not empty are the
/// same, and so are those that are broken. The reader has the trees of all of them, the placeholders that nothing in them binds, and where
/// they stand, where there are no more tokens than a tree can count.
pub fn law_lists()
    ensures division { (is : List (ReadStatementItem longest)) (a : AreOfList longest is) (d : DividedList longest is)
        → map (items_of_part longest) (parts_of longest d) ≡ written_parts a.derivation (statement_items longest is) a.items }
    ensures tree { (is : List (ReadStatementItem longest)) (a : AreOfList longest is) → length (items_tokens (statement_items longest is)) ≤ max_number
        → block_list (statement_pictures longest is) ≡ list_shown (bstats_of a.derivation) }
{}
