//! What is told of definitions that may not stand.

ghost use Rattle.std.specs.Prelude.{◌≡◌, IfOk};
ghost use Rattle.symbol_table.specs.Problems as spec;

use pc_terms::{Code, NoMemory, Problem, Span, Text};
use std::alloc::Global;

/// A template stands directly in a class or trait.
pub fn misplaced(alloc: Global, label_span: Span) -> Result<Problem, NoMemory>
    ensures { IfOk result (λ problem. problem ≡ spec.misplaced label_span) }
{
    Ok(Problem {
        code: Code::P6,
        span: label_span,
        text: Text::new(alloc, "definition not allowed here")?,
    })
}

/// The owner has a definition of this name in this space already.
pub fn double(alloc: Global, label_span: Span, name: &str) -> Result<Problem, NoMemory>
    ensures { IfOk result (λ problem. problem ≡ spec.double label_span name.now) }
{
    let mut text = Text::new(alloc, "double definition: ")?;
    text.push_str(name)?;
    Ok(Problem {
        code: Code::N6,
        span: label_span,
        text,
    })
}
