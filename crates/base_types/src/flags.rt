/// What a definition says by its modifiers, by what it lacks, and by its place.
#[derive(Clone, Copy, Debug, PartialEq, Eq)]
pub struct Flags {
    /// Of a class with this modifier, and of a `val`, `var` or `def` outside the prelude that has no right side.
    pub abstract_: bool,
    pub final_: bool,
    pub sealed_: bool,
    pub case_: bool,
    pub override_: bool,
    /// Also of a parameter of a class that is no case class, where neither `val` nor `var` stands before it.
    pub private_: bool,
    pub protected_: bool,
    /// Of what the prelude defines.
    pub prelude: bool,
}
