//! What holds of the grammar of patterns, as its reader shows. The functions do nothing; their clauses are the laws.

ghost use Rattle.std.specs.Prelude.{◌≡◌, ℕ, List};
ghost use Rattle.positioned_trees.specs.declared.trees.Tree.{Tree};
ghost use Rattle.source_grammar.specs.Lexemes.{Lexeme};
ghost use Rattle.source_grammar.specs.Patterns.{IsPattern};
ghost use Rattle.parse_parts.specs.declared.parts.Part.{Part};
ghost use Rattle.parse_patterns.specs.Parting.{IsPatternAt};

/// The tokens of a pattern have one tree.
pub fn law_one_pattern_tree()
    ensures { (xs : List Lexeme) (t u : Tree) → IsPattern xs t → IsPattern xs u → t ≡ u }
{}

/// The answer at a token is one: the three kinds exclude each other, and the tree and the number are determined.
pub fn law_one_pattern()
    ensures { (ts : List Lexeme) (at : ℕ) (p q : Part) → IsPatternAt ts at p → IsPatternAt ts at q → p ≡ q }
{}
