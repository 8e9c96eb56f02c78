//! What can be answered until the whole profile is read: the trees of an object with vals, whose right sides
//! are numbers, strings and names of earlier vals. This module goes out when the parser comes in.

mod describing;
mod locating;
mod reading;

pub use describing::info_at;
pub use locating::located;
pub use reading::{ThinObject, ThinUnit, ThinVal, ValType, read_unit};
