//! The trees of a source, where they stand in it, and the one that is found at an offset.
#![tactic(auto)]

mod checking;
mod details;
mod laws;
mod locating;
mod numbering;
mod trees;

pub use checking::is_placed;
pub use details::{
    Access, Detail, ImportClause, MethodParts, Modifiers, Name, ParamKeyword, ParamParts,
    RightSide, Selector, TemplateParts, TypeParamParts, ValueParts, Variance,
};
pub use laws::{law_enclosed, law_few_kids};
pub use locating::{MAX_HEIGHT, locate};
pub use numbering::number;
pub use trees::{SourceUnit, Tree};
