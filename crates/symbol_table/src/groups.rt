//! Parts of a list.

ghost use Rattle.std.specs.Prelude.{◌≡◌};
ghost use Rattle.symbol_table.specs.Groups as spec;

/// The positions from the start on and before the end.
#[derive(Clone, Copy, Debug, PartialEq, Eq)]
pub struct Group {
    pub start: usize,
    pub end: usize,
}

pub const NO_GROUP: Group = Group { start: 0, end: 0 };

/// The elements at these positions; none where there are fewer. It takes no memory.
pub fn part<T>(items: &[T], group: Group) -> &[T]
    ensures { result.now ≡ spec.part items.now group }
{
    if group.start <= group.end && group.end <= items.len() {
        &items[group.start..group.end]
    } else {
        &[]
    }
}
