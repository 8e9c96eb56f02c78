//! How far a statement goes does not depend on the trees in its braces. The functions do nothing: their clauses are the laws.

ghost use Rattle.std.specs.Prelude.{◌≡◌, List, map};
ghost use Rattle.std.specs.Option.{option_map};
ghost use Rattle.reading_machines.specs.Machines.{run, reading_of};
ghost use Rattle.expr_steps.specs.Reading.{Item};
ghost use Rattle.parse_exprs.specs.declared.statements.Statement.{Statement};
ghost use Rattle.parse_exprs.specs.Items.{shape_of};
ghost use Rattle.parse_exprs.specs.Lists.{ends_statement, of_items};
ghost use Rattle.parse_exprs.specs.Statements.{statements};

/// From any state the reader of a statement goes over items exactly where it goes over them without the trees in their braces,
/// and what it has read is a statement at the same places. So the longest statement that ends before a separator, or with the
/// list, has as many items, and the reader stops at the same item.
pub fn law_shapes()
    ensures runs { (is : List Item) (s : Statement)
        → option_map statements.whole (run statements.step (map shape_of is) s) ≡ option_map statements.whole (run statements.step is s) }
    ensures best { (is : List Item)
        → (reading_of statements (ends_statement of_items) (map shape_of is)).best ≡ (reading_of statements (ends_statement of_items) is).best }
    ensures reached { (is : List Item)
        → (reading_of statements (ends_statement of_items) (map shape_of is)).reached ≡ (reading_of statements (ends_statement of_items) is).reached }
{}
