//! What is rewritten is what the grammar says, as far as trees are kept. The functions do nothing; their clauses are the laws.

ghost use Rattle.std.specs.Prelude.{◌≡◌, ◌∷◌, Bool, List, map};
ghost use Rattle.pc_terms.specs.declared.problems.Span.{Span};
ghost use Rattle.positioned_trees.specs.declared.trees.Tree.{Tree};
ghost use Rattle.source_grammar.specs.Comprehensions as grammar;
ghost use Rattle.source_grammar.specs.ExpressionTrees.{join_built, prefixed as prefixed_tree, sign_span, updated as updated_tree};
ghost use Rattle.source_grammar.specs.Expressions.{PrefixSign};
ghost use Rattle.source_grammar.specs.Lexemes.{Id, Lexeme, Place};
ghost use Rattle.source_grammar.specs.Placeholders.{Built, bound_over, trees_of};
ghost use Rattle.source_grammar.specs.Precedence.{Operand};
ghost use Rattle.source_grammar.specs.Spans.{from_to, span_of};
ghost use Rattle.tree_lower.specs.Comprehending.{comprehension};
ghost use Rattle.parse_parts.specs.Keeping.{kept, kept_all};
ghost use Rattle.tree_lower.specs.Keeping.{generator_shown, name_of, operand_shown, places_shown, sign_name};
ghost use Rattle.tree_lower.specs.Lowering.{operation, prefixed, updated, bound};

/// `a op b`.
pub fn law_operation()
    ensures { (id : Id) (a b : Operand Built) → operation (name_of id) (operand_shown a) (operand_shown b) ≡ operand_shown (join_built id a b) }
{}

/// `-x`, of these tokens.
pub fn law_prefixed()
    ensures { (sign : PrefixSign) (tokens : List Lexeme) (span : Span) (operand : Built) → span_of tokens ≡ from_to (sign_span sign) span
        → prefixed (sign_name sign) (record { tall = kept operand.tree; span = span }) ≡ record { tall = kept (prefixed_tree sign tokens operand).tree; span = span_of tokens } }
{}

/// `a(i) = v`, of these tokens.
pub fn law_updated()
    ensures { (tokens : List Lexeme) (receiver : Built) (args : List Built) (right : Built)
        → updated (span_of tokens) (kept receiver.tree) (kept_all (trees_of args)) (kept right.tree) ≡ kept (updated_tree tokens receiver args right).tree }
{}

/// The function of placeholders over a tree of these tokens.
pub fn law_bound()
    ensures { (tokens : List Lexeme) (tree : Tree) (places : List Place)
        → bound (places_shown places) (span_of tokens) (kept tree) ≡ kept (bound_over tokens tree places).tree }
{}

/// `for`.
pub fn law_comprehension()
    ensures { (yields : Bool) (span : Span) (gen : grammar.Generator) (gens : List grammar.Generator) (body : Built)
        → comprehension yields span (generator_shown gen ∷ map generator_shown gens) (kept body.tree) ≡ kept (grammar.comprehension yields span gen gens body).tree }
{}
