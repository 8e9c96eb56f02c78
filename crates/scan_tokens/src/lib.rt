//! Cuts a Scala source into tokens, and says before which of them a newline counts.
#![tactic(auto)]

mod characters;
mod kinds;
mod laws;
mod literals;
mod newlines;
mod pieces;
mod problems;
mod reading;
mod regions;
mod roles;
mod scanner;
mod shapes;
mod tokens;

pub use characters::{Class, class_of, first};
pub use kinds::is_reserved_word;
pub use laws::{law_gaps, law_newlines, law_numbers, law_one_division, law_order};
pub use scanner::scan;
pub use tokens::{Newline, Token, TokenKind, Tokens};
