//! A pair of braces, once what stands in it was read.

ghost use Rattle.std.specs.Prelude.{◌≡◌, IfOk};
ghost use Rattle.std.specs.List.{All};
ghost use Rattle.parse_exprs.specs.Items.{IsItemOf, items_in};
ghost use Rattle.parse_exprs.specs.Levels as spec;

use crate::contents::{Opening, inside_of, selectors_of};
use crate::items::{Item, symbol_in};
use expr_tails::items::Braces;
use expr_tails::symbols::{Symbol, Word};
use pc_terms::{NoMemory, Row, Span};
use scan_tokens::Newline;
use std::alloc::Global;

/// What a brace behind something with this symbol stands behind.
pub fn opening_behind(symbol: Symbol) -> Opening
    ensures { result ≡ spec.opening_behind symbol }
{
    match symbol {
        Symbol::Word(Word::For) => Opening::For,
        Symbol::Dot => Opening::Dot,
        _ => Opening::Other,
    }
}

/// What a brace behind these items stands behind.
pub fn opening_of(text: &str, items: &Row<Item>) -> Opening
    requires { All (IsItemOf text.now) items.now }
    ensures { result ≡ spec.opening_of Opening.Other (items_in text.now items.now) }
{
    match items.as_slice() {
        [.., last] => opening_behind(symbol_in(text, last)),
        [] => Opening::Other,
    }
}

/// The pair of braces over this span with these items in it.
pub fn braces_over(
    alloc: Global,
    text: &str,
    opening: Opening,
    before: Newline,
    span: Span,
    items: Row<Item>,
) -> Result<Braces, NoMemory>
    requires { All (IsItemOf text.now) items }
    ensures { IfOk result (λ braces. braces ≡ spec.braces_over opening before span (items_in text.now items)) }
{
    let selectors = selectors_of(alloc, text, opening, items.as_slice())?;
    Ok(Braces {
        span,
        before,
        inside: inside_of(alloc, text, opening, span, items)?,
        selectors,
    })
}
