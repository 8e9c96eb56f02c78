//! What holds of the definitions. The functions do nothing; their clauses are the laws.

ghost use Rattle.std.specs.Prelude.{◌≡◌, ◌≢◌, ℕ, List, [], ◌∷◌, ◌++◌};
ghost use Rattle.positioned_trees.specs.declared.trees.Tree.{Tree};
ghost use Rattle.source_grammar.specs.Expressions.{Expr};
ghost use Rattle.source_grammar.specs.ExpressionRules.{ProperExpr};
ghost use Rattle.source_grammar.specs.ExpressionTokens.{expr_tokens};
ghost use Rattle.source_grammar.specs.ExpressionTrees.{expr_built};
ghost use Rattle.source_grammar.specs.Lexemes.{Lexeme};
ghost use Rattle.source_grammar.specs.Parts.{IsExpr};
ghost use Rattle.source_grammar.specs.Patterns.{Pat, ProperPat, pat_tokens, pat_tree, IsPattern};
ghost use Rattle.source_grammar.specs.Precedence.{Operand, Joining, Chain, joined};
ghost use Rattle.source_grammar.specs.Statements.{longest};
ghost use Rattle.source_grammar.specs.Types.{WrittenType, type_tokens, type_tree, IsType, IsSimpleType};
ghost use Rattle.source_grammar.specs.Units.{IsUnit};

/// A derivation of a type is one, and no type is without tokens.
pub fn law_types()
    ensures derived { (d : WrittenType) → IsType (type_tokens d) (type_tree d) }
    ensures tokens { (xs : List Lexeme) (tree : Tree) → IsType xs tree → xs ≢ [] }
{}

/// A derivation of a pattern is one, and no pattern is without tokens.
pub fn law_patterns()
    ensures derived { (d : Pat) → ProperPat d → IsPattern (pat_tokens d) (pat_tree d) }
    ensures tokens { (xs : List Lexeme) (tree : Tree) → IsPattern xs tree → xs ≢ [] }
{}

/// A derivation of an expression is one.
pub fn law_expressions()
    ensures { (d : Expr) → ProperExpr longest d → IsExpr (expr_tokens d) (expr_built d).tree }
{}

/// An operand alone stays as it is.
pub fn law_one_operand()
    ensures { (join : Joining Tree) (a : Operand Tree) → joined join (record { first = a; operations = [] }) ≡ a }
{}
