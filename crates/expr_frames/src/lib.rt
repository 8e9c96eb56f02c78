//! Heads that wait for an expression, open brackets, and generators.
#![tactic(auto)]

/// What was made, while something else is held. Where memory fails, that is let go by a call, so that its parts are not
/// gone through at each such place.
#[macro_export]
macro_rules! beside {
    ($held:ident; $made:expr) => {
        match $made {
            Ok(made) => made,
            Err(none) => {
                drop($held);
                return Err(none);
            }
        }
    };
}

pub mod frames;
pub mod generators;
pub mod heads;
