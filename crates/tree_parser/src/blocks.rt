//! The block of a `def` without `=`, around which no expression is.

ghost use Rattle.std.specs.Prelude.{◌≡◌, IfOk, drop};
ghost use Rattle.std.specs.List.{All};
ghost use Rattle.std.specs.Option.{option_map, ForSome};
ghost use Rattle.scan_tokens.specs.Words.{Bytes};
ghost use Rattle.source_grammar.specs.Lexemes.{lexeme_of};
ghost use Rattle.parse_parts.specs.Words.{IsCut};
ghost use Rattle.parse_exprs.specs.Cases as cases;
ghost use Rattle.parse_exprs.specs.Items.{IsItemOf, items_in};
ghost use Rattle.template_steps.specs.Pieces.{IsPieceOf, part_in, parts_in};
ghost use Rattle.tree_parser.specs.Blocks as spec;

use crate::lists::built_list;
use expr_tails::items::Built;
use expr_tails::symbols::Symbol;
use parse_exprs::contents::{block_over, head_of, lambda_over};
use parse_exprs::items::{Item, is_case_word};
use pc_terms::{NoMemory, Row, Span};
use scan_tokens::Token;
use std::alloc::Global;
use template_steps::pieces::{Piece, symbol_in};
use template_steps::statements::ListKind;

fn begins_with_case(text: &str, pieces: &[Piece]) -> bool
    requires { All (IsPieceOf text.now) pieces.now }
    ensures { result ≡ spec.begins_with_case (parts_in text.now pieces.now) }
{
    match pieces {
        [first, ..] => is_case_word(symbol_in(text, first)),
        [] => false,
    }
}

fn is_arrow(symbol: Symbol) -> bool
    ensures { result ≡ cases.is_arrow symbol }
{
    matches!(symbol, Symbol::Arrow)
}

fn token_of(piece: &Piece) -> Option<Token>
    ensures is { (text : Bytes) → option_map (lexeme_of text) result ≡ spec.token_at (part_in text piece.now) }
    ensures words { (text : Bytes) → IsPieceOf text piece.now → ForSome result (IsCut text) }
{
    match piece {
        Piece::Item(Item::Token(token)) => Some(*token),
        Piece::Item(Item::Braces(_)) => None,
        Piece::Body(_) => None,
    }
}

// The tokens that these begin with, up to the first arrow. The head of a lambda has no other pieces.
fn leading_tokens(alloc: Global, text: &str, pieces: &[Piece]) -> Result<Row<Item>, NoMemory>
    requires { All (IsPieceOf text.now) pieces.now }
    ensures is { IfOk result (λ items. items_in text.now items ≡ spec.leading_tokens (parts_in text.now pieces.now)) }
    ensures words { IfOk result (λ items. All (IsItemOf text.now) items) }
{
    let mut items = Row::new(alloc);
    for piece in pieces {
        let Some(token) = token_of(piece) else {
            return Ok(items)
        };
        items.push(Item::Token(token))?;
        if is_arrow(symbol_in(text, piece)) {
            return Ok(items);
        }
    }
    Ok(items)
}

// The pieces behind this many.
fn behind(alloc: Global, pieces: Row<Piece>, count: usize) -> Result<Row<Piece>, NoMemory>
    ensures { IfOk result (λ rest. rest ≡ drop count pieces) }
{
    let mut pieces = pieces.into_vec();
    if count < pieces.len() {
        Ok(Row::from_vec(pieces.split_off(count)?))
    } else {
        Ok(Row::new(alloc))
    }
}

/// The block that these pieces are between braces with this span; none where they begin with `case`.
pub fn block_of(
    alloc: Global,
    text: &str,
    span: Span,
    pieces: Row<Piece>,
) -> Result<Option<Built>, NoMemory>
    requires { All (IsPieceOf text.now) pieces }
    ensures { IfOk result (λ block. block ≡ spec.block_of span (parts_in text.now pieces)) }
{
    if begins_with_case(text, pieces.as_slice()) {
        return Ok(None);
    }
    let heads = leading_tokens(alloc, text, pieces.as_slice())?;
    match head_of(alloc, text, heads.as_slice())? {
        Some(params) => {
            let pieces = behind(alloc, pieces, params.count)?;
            let list = built_list(alloc, text, ListKind::Procedure, pieces)?;
            Ok(Some(lambda_over(alloc, span, params, list)?))
        }
        None => {
            let list = built_list(alloc, text, ListKind::Procedure, pieces)?;
            Ok(Some(block_over(alloc, span, list)))
        }
    }
}
