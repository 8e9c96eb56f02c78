//! The order of a linearisation, against those of the class's parents. The functions do nothing: their clauses are the laws.

ghost use Rattle.parent_laws.specs.Order.{ParentsInOrder, RefinesInheritance};

/// Where a class of a linearisation is derived from another, it stands before that (SLS 5.1.2).
pub fn law_refines_inheritance()
    ensures { RefinesInheritance }
{}

/// The linearisation of a parent stands in that of the class, in its order, exactly where it agrees with the parents before it.
pub fn law_parents_in_order()
    ensures { ParentsInOrder }
{}
