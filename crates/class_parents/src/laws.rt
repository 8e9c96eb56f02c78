//! What is so of linearisations.

ghost use Rattle.class_parents.specs.Laws.{BeginsWithClass, HasEachOnce, EndsWithFirstParent};

/// A linearisation begins with the class itself.
pub fn law_begins_with_class()
    ensures { BeginsWithClass }
{}

/// It has each class once.
pub fn law_each_class_once()
    ensures { HasEachOnce }
{}

/// It ends with the linearisation of the first parent of the class, as that is followed.
pub fn law_ends_with_first_parent()
    ensures { EndsWithFirstParent }
{}
