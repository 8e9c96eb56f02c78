//! What the readers of expressions, imports and definitions owe to the grammar, by machines over derivations that they are pictures of.
#![tactic(auto)]

mod def_laws;
mod import_laws;
mod laws;

pub use def_laws::{law_declarations, law_definitions, law_delimiters, law_modifiers};
pub use import_laws::{law_imports, law_selectors};
pub use laws::{law_guards, law_items, law_longest_items, law_newlines};
