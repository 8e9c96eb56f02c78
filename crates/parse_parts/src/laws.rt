//! What holds of the grammar of types, as its reader shows. The functions do nothing; their clauses are the laws.

ghost use Rattle.std.specs.Prelude.{◌≡◌, ℕ, List};
ghost use Rattle.positioned_trees.specs.declared.trees.Tree.{Tree};
ghost use Rattle.source_grammar.specs.Lexemes.{Lexeme};
ghost use Rattle.source_grammar.specs.Types.{IsType};
ghost use Rattle.parse_parts.specs.Parting.{IsTypeAt};
ghost use Rattle.parse_parts.specs.declared.parts.Part.{Part};

/// The tokens of a type have one tree.
pub fn law_one_tree()
    ensures { (xs : List Lexeme) (t u : Tree) → IsType xs t → IsType xs u → t ≡ u }
{}

/// The answer at a token is one: the three kinds exclude each other, and the tree and the number are determined.
pub fn law_one_part()
    ensures { (ts : List Lexeme) (at : ℕ) (p q : Part) → IsTypeAt ts at p → IsTypeAt ts at q → p ≡ q }
{}
