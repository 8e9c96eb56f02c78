//! The members of types.
#![tactic(auto)]

mod listing;
mod members;
mod named;
mod offered;
mod offers;
mod overriding;
mod parameters;
mod same_types;
mod spaces;
mod views;

pub use listing::members_of;
pub use members::{Member, Space};
pub use named::members_named;
pub use offers::is_member;
pub use same_types::is_same_type;
pub use spaces::{is_named, is_package, kind_of, name_of, space_of};
