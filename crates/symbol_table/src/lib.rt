//! The definitions of all loaded sources: who owns them, what is wrong with them by themselves, and what of them is completed
//! lazily.
#![tactic(auto)]

mod companions;
mod decls;
mod definitions;
mod entering;
mod flags;
mod groups;
mod items;
mod kinds;
mod loading;
mod name_spaces;
mod names;
mod ordering;
mod owned_names;
mod packages;
mod problems;
mod table;
mod walking;

pub use decls::Decl;
pub use entering::enter;
pub use loading::Loaded;
pub use table::Table;
