ghost use Rattle.std.specs.Prelude.{◌≡◌, ◌≤◌, length, IfOk};
ghost use Rattle.compiler_loop.specs.Thin.{unit_of};
ghost use Rattle.pc_terms.specs.Bytes.{max_source_bytes};

use crate::thin::{ThinUnit, read_unit};
use pc_terms::{NoMemory, Text};
use std::alloc::Global;

/// A file's text, and what it was read as.
#[derive(Drop)]
pub struct Source {
    pub text: Text,
    pub unit: ThinUnit,
    ghost read: { unit ≡ unit_of text },
    ghost small: { length text ≤ max_source_bytes },
}

impl Source {
    /// Copies a text and reads it.
    pub fn new(alloc: Global, text: &Text) -> Result<Source, NoMemory>
        requires { length text.now ≤ max_source_bytes }
        ensures { IfOk result (λ source. source.text ≡ text.now) }
    {
        let unit = read_unit(alloc, text.as_str().as_bytes())?;
        Ok(Source {
            text: text.clone()?,
            unit,
        })
    }
}
