//! The words that all crates share: texts and rows, symbols, types, problems, trees' kinds and items,
//! and how types and symbols are printed.
#![tactic(auto)]

mod errors;
mod items;
mod judging;
mod limits;
mod number;
mod problems;
mod row;
mod symbol_text;
mod symbols;
mod text;
mod tree_kinds;
mod type_text;
mod types;

pub use errors::{Failed, NoMemory};
pub use items::{Asked, Infos, Item, ItemValue};
pub use judging::{Attr, Bound, Head, Judged, Kid, Spot, UnitTypes};
pub use limits::MAX_SOURCE_BYTES;
pub use number::number_of as read_number;
pub use problems::{Code, Problem, Span};
pub use row::Row;
pub use symbol_text::{kind_word, show_path, show_symbol};
pub use symbols::{SymKind, SymPath, SymStep};
pub use text::Text;
pub use tree_kinds::TreeKind;
pub use type_text::show;
pub use types::{Formal, Sig, TParam, Ty};
