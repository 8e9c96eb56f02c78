ghost use Rattle.std.specs.Prelude.{◌≡◌, ◌≤◌, List, length, IfOk};
ghost use Rattle.std.specs.Str.{chars};
ghost use Rattle.pc_terms.specs.Bytes.{max_source_bytes};
ghost use Rattle.scan_tokens.specs.Division.{IsDivision};
ghost use Rattle.scan_tokens.specs.Pieces.{Piece};
ghost use Rattle.scan_tokens.specs.Scanned as spec;
ghost use Rattle.scan_tokens.specs.Scanned.{AreOfPieces};

use crate::newlines::with_newlines;
use crate::pieces::divide;
use crate::tokens::Tokens;
use pc_terms::{NoMemory, Text};
use std::alloc::Global;

/// The tokens of a source, and what is wrong in it. It keeps the text.
#[tactic(auto, unfolding(crate::specs::Scanned::scanned))]
pub fn scan(alloc: Global, text: &str) -> Result<Tokens, NoMemory>
    requires { length text.now ≤ max_source_bytes }
    ensures exact { IfOk result (λ tokens. tokens ≡ spec.scanned text.now) }
    ensures divided { IfOk result (λ tokens. (ps : List Piece) → IsDivision (chars text.now) ps → AreOfPieces text.now ps tokens) }
{
    let (tokens, problems) = divide(alloc, text)?;
    let tokens = with_newlines(alloc, text.as_bytes(), tokens.as_slice())?;
    Ok(Tokens {
        text: Text::new(alloc, text)?,
        tokens,
        problems,
    })
}
