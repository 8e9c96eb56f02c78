//! Pieces: the items of a list around which no expression is, and the bodies in it.

ghost use Rattle.std.specs.Prelude.{◌≡◌, IfOk};
ghost use Rattle.template_steps.specs.Pieces as spec;
ghost use Rattle.template_steps.specs.Pieces.{IsPieceOf, part_in};

use expr_tails::items::{Braces, Built};
use expr_tails::symbols::Symbol;
use parse_exprs::items::{
    Item, braces_shape, separates as item_separates, span_of as item_span, spans_again,
    symbol_in as item_symbol,
};
use parse_parts::built::Kids;
use pc_terms::{NoMemory, Span};
use scan_tokens::Newline;
use sqlite_items::Boxed;
use std::alloc::Global;
use std::mem;

/// What was read in the braces of a body.
#[derive(Debug, Drop)]
pub enum Contents {
    /// The statements of a template.
    Template(Option<Kids>),
    /// The block of a `def`, where it is one: it does not begin with `case`.
    Procedure(Option<Built>),
}

/// Braces behind the head of a template or of a `def`.
#[derive(Debug, Drop)]
pub struct Body {
    pub span: Span,
    pub before: Newline,
    pub contents: Contents,
    /// The same braces as an expression has them, where the head may end before them.
    pub plain: Option<Braces>,
}

/// An item, or a body, in a box, since most pieces are tokens.
#[derive(Debug, Drop)]
pub enum Piece {
    Item(Item),
    Body(Boxed<Body>),
}

pub fn span_of(piece: &Piece) -> Span
    ensures { result ≡ spec.span_of piece.now }
{
    match piece {
        Piece::Item(item) => item_span(item),
        Piece::Body(body) => body.get().span,
    }
}

/// What a piece is to the grammar; a body is as its opening brace.
pub fn symbol_in(text: &str, piece: &Piece) -> Symbol
    requires { IsPieceOf text.now piece.now }
    ensures { result ≡ spec.symbol_at (part_in text.now piece.now) }
{
    match piece {
        Piece::Item(item) => item_symbol(text, item),
        Piece::Body(_) => Symbol::OpenCurly,
    }
}

/// Whether statements are separated here.
pub fn separates(text: &str, piece: &Piece) -> bool
    requires { IsPieceOf text.now piece.now }
    ensures { result ≡ spec.separates (part_in text.now piece.now) }
{
    match piece {
        Piece::Item(item) => item_separates(text, item),
        Piece::Body(body) => !matches!(body.get().before, Newline::No),
    }
}

fn block_shape(alloc: Global, block: &Built) -> Result<Built, NoMemory>
    ensures { IfOk result (λ shape. shape ≡ spec.block_shape block.now) }
{
    Ok(Built {
        tall: None,
        free: spans_again(alloc, &block.free)?,
    })
}

fn contents_shape(alloc: Global, contents: &Contents) -> Result<Contents, NoMemory>
    ensures { IfOk result (λ shape. shape ≡ spec.contents_shape contents.now) }
{
    match contents {
        Contents::Template(_) => Ok(Contents::Template(None)),
        Contents::Procedure(Some(block)) => Ok(Contents::Procedure(Some(block_shape(
            alloc, block,
        )?))),
        Contents::Procedure(None) => Ok(Contents::Procedure(None)),
    }
}

/// A body without the trees in it, to find out how far a statement goes.
pub fn body_shape(alloc: Global, body: &Body) -> Result<Body, NoMemory>
    ensures { IfOk result (λ shape. shape ≡ spec.body_shape body.now) }
{
    let plain = match &body.plain {
        Some(braces) => Some(braces_shape(alloc, braces)?),
        None => None,
    };
    Ok(Body {
        span: body.span,
        before: body.before,
        contents: contents_shape(alloc, &body.contents)?,
        plain,
    })
}

/// The body that stands here, where its shape is left.
pub fn body_taken(alloc: Global, body: &mut Boxed<Body>) -> Result<Body, NoMemory>
    ensures is { IfOk result (λ taken. taken ≡ body.old) }
    ensures left { IfOk result (λ taken. body.new ≡ spec.body_shape body.old) }
{
    let shape = Boxed::new(alloc, body_shape(alloc, body.get())?)?;
    Ok(mem::replace(body, shape).into_inner())
}
