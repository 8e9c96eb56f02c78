//! The trees that a rewriting makes, as far as they are not too high: operators, assignments to calls, placeholders, and `for`.
#![tactic(auto)]

mod comprehensions;
mod copies;
mod laws;
mod operators;
mod placeholders;
mod trees;

pub use comprehensions::{Generator, comprehension};
pub use copies::hidden;
pub use laws::{law_bound, law_comprehension, law_operation, law_prefixed, law_updated};
pub use operators::{operation, prefixed, updated};
pub use placeholders::{bound, lambda_param, no_modifiers, param, placeholder_ident};
pub use trees::{added, appended, detailed, leaf, pair, unlabelled};
