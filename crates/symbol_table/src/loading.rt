use pc_terms::Text;
use positioned_trees::SourceUnit;

/// A source under its name.
#[derive(Clone, Copy, Debug)]
pub struct Loaded<'a> {
    pub name: &'a Text,
    pub unit: &'a SourceUnit,
}
