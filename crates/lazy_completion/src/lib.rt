//! Items are typed when they are asked for: a memo of their values with a stack of locks, and the completion of an item
//! with all that it needs.
#![tactic(auto)]

mod completion;
mod memo;

pub use completion::{TypesItems, complete};
pub use memo::{Locked, Memo};
