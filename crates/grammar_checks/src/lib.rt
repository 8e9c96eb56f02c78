//! Checks of the grammar: the trees of short texts are those that the rules of the language give. The functions do
//! nothing; their clauses are the checks.
#![tactic(auto)]

ghost use Rattle.std.specs.Prelude.{◌≡◌};
ghost use Rattle.grammar_checks.specs.Samples as sample;
ghost use Rattle.grammar_checks.specs.Trees as expected;
ghost use Rattle.source_grammar.specs.ExpressionTrees.{expr_built};
ghost use Rattle.source_grammar.specs.Patterns.{pat_tree};
ghost use Rattle.source_grammar.specs.Types.{type_tree};

/// `A => B => C`, `(A, B) => C`, `A => (B)`, `a.b.type`
pub fn check_types()
    ensures twice { type_tree sample.function_twice ≡ expected.function_twice }
    ensures two { type_tree sample.function_of_two ≡ expected.function_of_two }
    ensures parentheses { type_tree sample.result_in_parentheses ≡ expected.result_in_parentheses }
    ensures singleton { type_tree sample.singleton ≡ expected.singleton }
{}

/// `a :: b :: N`
pub fn check_infix_pattern()
    ensures { pat_tree sample.list_pattern ≡ expected.list_pattern }
{}

/// `a + b * c`, `a - b - c`, `1 :: xs`, `a += b + c`
pub fn check_operators()
    ensures precedence { (expr_built sample.sum_of_product).tree ≡ expected.sum_of_product }
    ensures left { (expr_built sample.differences).tree ≡ expected.differences }
    ensures right { (expr_built sample.right_associative).tree ≡ expected.right_associative }
    ensures assignment { (expr_built sample.assigned_sum).tree ≡ expected.assigned_sum }
{}

/// `-x`, `a(1) = 2`
pub fn check_rewritings()
    ensures prefix { (expr_built sample.negated).tree ≡ expected.negated }
    ensures update { (expr_built sample.update).tree ≡ expected.update }
{}

/// `f(_)`
pub fn check_placeholders()
    ensures { (expr_built sample.placeholder_argument).tree ≡ expected.placeholder_argument }
{}
