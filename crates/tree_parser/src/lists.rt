//! Lists of statements around which no expression is: divided, and built.

ghost use Rattle.std.specs.Prelude.{◌≡◌, ◌&&◌, ◌+◌, ◌<◌, ◌≤◌, [], IfOk, Option, length, map, take, drop};
ghost use Rattle.std.specs.List.{All};
ghost use Rattle.std.specs.Option.{ForSome};
ghost use Rattle.parse_exprs.specs.Lists as spec;
ghost use Rattle.pc_terms.specs.declared.problems.Span.{Span as Place};
ghost use Rattle.pc_terms.specs.declared.tree_kinds.TreeKind.TheVariants as kinds;
ghost use Rattle.parse_parts.specs.Built.{no_kids};
ghost use Rattle.reading_machines.specs.Machines as machines;
ghost use Rattle.reading_machines.specs.Machines.{run};
ghost use Rattle.template_steps.specs.Pieces as parts;
ghost use Rattle.template_steps.specs.Pieces.{IsPieceOf, of_parts, part_in, parts_in, span_of as written_span};
ghost use Rattle.template_steps.specs.Statements.{statements, stepped as on_part, built_until, list_of, is_whole as whole};
ghost use Rattle.tree_lower.specs.Lowering.{unlabelled};

use parse_exprs::items::{depth_behind, is_semicolon};
use parse_exprs::lists::{BuiltList, Cut};
use parse_parts::built::{Kids, Tall, joined, no_kids};
use parse_parts::stack::Stack;
use pc_terms::{NoMemory, Row, Span, TreeKind};
use std::alloc::Global;
use template_steps::pieces::{Piece, separates, span_of, symbol_in};
use template_steps::statements::{ListKind, Statement, built, is_whole, step_shape, step_taking};
use tree_lower::unlabelled;

// Whether the statement is whole, and one may end before this piece.
fn ends_before(text: &str, kind: ListKind, statement: &Statement, piece: &Piece) -> bool
    requires { IsPieceOf text.now piece.now }
    ensures { result ≡ (whole kind statement.now && parts.separates (part_in text.now piece.now)) }
{
    is_whole(kind, statement) && separates(text, piece)
}

fn noted(ends: bool, reached: usize, best: Option<usize>) -> Option<usize>
    ensures { result ≡ machines.noted ends reached best }
{
    if ends { Some(reached) } else { best }
}

// How many pieces the longest statement has that begins here and has a separator or the end behind it.
fn longest(
    alloc: Global,
    text: &str,
    kind: ListKind,
    pieces: &[Piece],
) -> Result<Option<usize>, NoMemory>
    requires { All (IsPieceOf text.now) pieces.now }
    ensures is { IfOk result (λ best. best ≡ spec.longest of_parts (statements kind) built_until (parts_in text.now pieces.now)) }
    ensures some { IfOk result (λ best. ForSome best (λ count. 0 < count)) }
    ensures within { IfOk result (λ best. ForSome best (λ count. count ≤ length pieces.now)) }
{
    let mut statement = Statement::Begin;
    let mut best = None;
    let mut reached = 0;
    for piece in pieces {
        best = noted(ends_before(text, kind, &statement, piece), reached, best);
        match step_shape(alloc, text, kind, statement, piece)? {
            Some(next) => statement = next,
            None => return Ok(best),
        }
        reached += 1;
    }
    Ok(noted(is_whole(kind, &statement), reached, best))
}

// How many pieces stand before the next separator outside brackets, of which so many are open.
fn before_separator(text: &str, depth: usize, pieces: &[Piece]) -> usize
    requires words { All (IsPieceOf text.now) pieces.now }
    requires few { depth + length pieces.now ≤ usize.MAX }
    ensures is { result ≡ spec.before_separator of_parts depth (parts_in text.now pieces.now) }
    ensures within { result ≤ length pieces.now }
{
    let mut depth = depth;
    let mut count = 0;
    for piece in pieces {
        if depth == 0 && separates(text, piece) {
            return count;
        }
        depth = depth_behind(depth, symbol_in(text, piece));
        count += 1;
    }
    count
}

// The first piece, and those before the next separator.
fn broken_length(text: &str, pieces: &[Piece]) -> usize
    requires { All (IsPieceOf text.now) pieces.now }
    ensures is { result ≡ spec.broken_length of_parts (parts_in text.now pieces.now) }
    ensures some { 0 < length pieces.now → 0 < result }
    ensures within { result ≤ length pieces.now }
{
    match pieces {
        [first, rest @ ..] => {
            let depth = depth_behind(0, symbol_in(text, first));
            1 + before_separator(text, depth, rest)
        }
        [] => 0,
    }
}

fn pieces_span(pieces: &[Piece]) -> Span
    ensures { result ≡ spec.over_all (map written_span pieces.now) }
{
    match pieces {
        [] => Span { start: 0, end: 0 },
        [only] => span_of(only),
        [first, .., last] => Span {
            start: span_of(first).start,
            end: span_of(last).end,
        },
    }
}

// The statement that these pieces begin with, which has so many; or that they begin with none.
fn cut_of(text: &str, skip: usize, best: Option<usize>, pieces: &[Piece]) -> Cut
    requires words { All (IsPieceOf text.now) pieces.now }
    requires within { ForSome best (λ count. count ≤ length pieces.now) }
    ensures is { result ≡ spec.cut_of of_parts skip best (parts_in text.now pieces.now) }
    ensures within { result.count ≤ length pieces.now }
{
    match best {
        Some(count) => Cut {
            skip,
            count,
            broken: false,
            span: pieces_span(&pieces[..count]),
        },
        None => {
            let count = broken_length(text, pieces);
            Cut {
                skip,
                count,
                broken: true,
                span: pieces_span(&pieces[..count]),
            }
        }
    }
}

// The statement that these pieces begin with, behind so many `;`.
fn cut_at(
    alloc: Global,
    text: &str,
    kind: ListKind,
    skip: usize,
    pieces: &[Piece],
) -> Result<Cut, NoMemory>
    requires words { All (IsPieceOf text.now) pieces.now }
    requires any { 0 < length pieces.now }
    ensures is { IfOk result (λ cut. cut ≡ spec.cut_at of_parts (statements kind) built_until skip (parts_in text.now pieces.now)) }
    ensures some { IfOk result (λ cut. 0 < cut.count) }
    ensures within { IfOk result (λ cut. cut.count ≤ length pieces.now) }
{
    let best = longest(alloc, text, kind, pieces)?;
    Ok(cut_of(text, skip, best, pieces))
}

// The statements of a list, without empty ones.
fn divided(
    alloc: Global,
    text: &str,
    kind: ListKind,
    pieces: &[Piece],
) -> Result<Row<Cut>, NoMemory>
    requires { All (IsPieceOf text.now) pieces.now }
    ensures { IfOk result (λ cuts. cuts ≡ spec.divided of_parts (statements kind) built_until (parts_in text.now pieces.now)) }
{
    let mut cuts = Row::new(alloc);
    let mut at = 0;
    let mut skip = 0;
    'pieces: while at < pieces.len() {
        if is_semicolon(symbol_in(text, &pieces[at])) {
            at += 1;
            skip += 1;
        } else {
            let cut = cut_at(alloc, text, kind, skip, &pieces[at..])?;
            at += cut.count;
            skip = 0;
            cuts.push(cut)?;
        }
    }
    Ok(cuts)
}

// From the first statement to the last.
fn whole_span(cuts: &[Cut]) -> Option<Span>
    ensures { result ≡ spec.whole_span cuts.now }
{
    match cuts {
        [] => None,
        [only] => Some(only.span),
        [first, .., last] => Some(Span {
            start: first.span.start,
            end: last.span.end,
        }),
    }
}

// ---- built

// Without the next pieces.
fn dropped(rest: &mut Stack<Piece>, count: usize)
    ensures { rest.new ≡ drop count rest.old }
{
    let mut left = count;
    'pieces: while left > 0 {
        let _ = rest.pop();
        left -= 1;
    }
}

// The next pieces, which are taken off.
fn taken(alloc: Global, rest: &mut Stack<Piece>, count: usize) -> Result<Row<Piece>, NoMemory>
    ensures is { IfOk result (λ pieces. pieces ≡ take count rest.old) }
    ensures left { IfOk result (λ pieces. rest.new ≡ drop count rest.old) }
{
    let mut pieces = Row::new(alloc);
    let mut left = count;
    'pieces: while left > 0 {
        if let Some(piece) = rest.pop() {
            pieces.push(piece)?;
        }
        left -= 1;
    }
    Ok(pieces)
}

fn stepped(
    alloc: Global,
    text: &str,
    kind: ListKind,
    statement: Statement,
    piece: Piece,
) -> Result<Option<Statement>, NoMemory>
    requires { IsPieceOf text.now piece }
    ensures { IfOk result (λ now. now ≡ on_part kind statement (part_in text.now piece)) }
{
    let mut piece = piece;
    step_taking(alloc, text, kind, statement, &mut piece)
}

// What these pieces are read as, if each of them can stand next.
fn read(
    alloc: Global,
    text: &str,
    kind: ListKind,
    pieces: Row<Piece>,
) -> Result<Option<Statement>, NoMemory>
    requires { All (IsPieceOf text.now) pieces }
    ensures { IfOk result (λ now. now ≡ run (on_part kind) (parts_in text.now pieces) Statement.Begin) }
{
    let mut rest = Stack::from_row(pieces);
    let mut statement = Statement::Begin;
    'pieces: while let Some(piece) = rest.pop() {
        match stepped(alloc, text, kind, statement, piece)? {
            Some(next) => statement = next,
            None => return Ok(None),
        }
    }
    Ok(Some(statement))
}

fn built_from(
    alloc: Global,
    statement: Option<Statement>,
    end: u32,
) -> Result<Option<Tall>, NoMemory>
    ensures { IfOk result (λ tall. tall ≡ (spec.built_from of_parts (statements ListKind.Unit) built_until statement end).tall) }
{
    match statement {
        Some(statement) => built(alloc, statement, end),
        None => Ok(None),
    }
}

fn broken_over(alloc: Global, span: Span) -> Option<Tall>
    ensures { result ≡ unlabelled kinds.Broken span no_kids }
{
    unlabelled(alloc, TreeKind::Broken, span, no_kids(alloc))
}

// The tree of the statement that these pieces are, or of what is none. Nothing is free in it.
fn built_piece(
    alloc: Global,
    text: &str,
    kind: ListKind,
    cut: Cut,
    pieces: Row<Piece>,
) -> Result<Option<Tall>, NoMemory>
    requires { All (IsPieceOf text.now) pieces }
    ensures { IfOk result (λ tall. record { tall = tall; free = [] } ≡ spec.built_piece of_parts (statements kind) built_until (record { items = parts_in text.now pieces; broken = cut.broken; span = cut.span })) }
{
    if cut.broken {
        drop(pieces);
        Ok(broken_over(alloc, cut.span))
    } else {
        let statement = read(alloc, text, kind, pieces)?;
        built_from(alloc, statement, cut.span.end)
    }
}

fn built_pieces(
    alloc: Global,
    text: &str,
    kind: ListKind,
    cuts: &[Cut],
    rest: Stack<Piece>,
) -> Result<Option<Kids>, NoMemory>
    requires { All (IsPieceOf text.now) rest }
    ensures { IfOk result (λ kids. (span : Option Place) → spec.built_pieces of_parts (statements kind) built_until span no_kids [] (spec.pieces_by of_parts cuts.now (parts_in text.now rest)) ≡ record { kids = kids; free = []; span = span }) }
{
    let mut rest = rest;
    let mut kids = no_kids(alloc);
    for cut in cuts {
        dropped(&mut rest, cut.skip);
        let pieces = taken(alloc, &mut rest, cut.count)?;
        let tall = built_piece(alloc, text, kind, *cut, pieces)?;
        kids = joined(kids, tall)?;
    }
    Ok(kids)
}

/// The trees of the statements of a list of this kind. Nothing is free in them. Each piece is read twice: once to find
/// out where its statement ends, and once for its tree.
pub fn built_list(
    alloc: Global,
    text: &str,
    kind: ListKind,
    pieces: Row<Piece>,
) -> Result<BuiltList, NoMemory>
    requires { All (IsPieceOf text.now) pieces }
    ensures { IfOk result (λ list. list ≡ list_of kind (parts_in text.now pieces)) }
{
    let cuts = divided(alloc, text, kind, pieces.as_slice())?;
    let span = whole_span(cuts.as_slice());
    let kids = built_pieces(alloc, text, kind, cuts.as_slice(), Stack::from_row(pieces))?;
    Ok(BuiltList {
        kids,
        free: Row::new(alloc),
        span,
    })
}
