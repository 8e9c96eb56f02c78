//! Lists of statements: divided, and built.

ghost use Rattle.std.specs.Prelude.{◌≡◌, ◌&&◌, ℕ, ◌+◌, ◌<◌, ◌≤◌, ◌++◌, [], IfOk, length, map, take, drop};
ghost use Rattle.std.specs.List.{All};
ghost use Rattle.std.specs.Option.{ForSome};
ghost use Rattle.parse_exprs.specs.Items.{IsItemOf, item_in, items_in, separates as separated, span_of as written_span};
ghost use Rattle.parse_exprs.specs.Lists as spec;
ghost use Rattle.parse_exprs.specs.Lists.{of_items};
ghost use Rattle.parse_exprs.specs.Statements as spoken;
ghost use Rattle.parse_exprs.specs.Statements.{statements, stepped, block_list, built_until};
ghost use Rattle.parse_parts.specs.Built.{no_kids, joined};
ghost use Rattle.pc_terms.specs.declared.tree_kinds.TreeKind.TheVariants as kind;
ghost use Rattle.reading_machines.specs.Machines.{noted as counted, run};
ghost use Rattle.tree_lower.specs.Lowering.{unlabelled};

use crate::items::{Item, depth_behind, is_semicolon, separates, span_of, symbol_in};
use crate::statements::{Statement, built, is_whole, step, step_shape};
use expr_tails::items::{Built, BuiltKids};
use expr_tails::tails::with_spans;
use parse_parts::built::{Kids, joined, no_kids};
use parse_parts::stack::Stack;
use pc_terms::{NoMemory, Row, Span, TreeKind};
use std::alloc::Global;
use tree_lower::unlabelled;

/// One statement of a list: how many `;` stand before it, how many items it has, whether they are none, and where they
/// stand.
#[derive(Clone, Copy, Debug)]
pub struct Cut {
    pub skip: usize,
    pub count: usize,
    pub broken: bool,
    pub span: Span,
}

/// The trees of a list, what is free in them, and from where to where they stand.
#[derive(Debug, Drop)]
pub struct BuiltList {
    pub kids: Option<Kids>,
    pub free: Row<Span>,
    pub span: Option<Span>,
}

// ---- divided

// Whether a statement of these first items can end before this one.
fn ends_before(text: &str, statement: &Statement, item: &Item) -> bool
    requires { IsItemOf text.now item.now }
    ensures { result ≡ (spoken.is_whole statement.now && separated (item_in text.now item.now)) }
{
    is_whole(statement) && separates(text, item)
}

fn noted(passes: bool, count: usize, best: Option<usize>) -> Option<usize>
    ensures { result ≡ counted passes count best }
{
    if passes { Some(count) } else { best }
}

// How many items the longest statement has that begins here and has a separator or the end behind it.
fn longest(alloc: Global, text: &str, items: &[Item]) -> Result<Option<usize>, NoMemory>
    requires { All (IsItemOf text.now) items.now }
    ensures is { IfOk result (λ best. best ≡ spec.longest of_items statements built_until (items_in text.now items.now)) }
    ensures some { IfOk result (λ best. ForSome best (λ count. 0 < count)) }
    ensures within { IfOk result (λ best. ForSome best (λ count. count ≤ length items.now)) }
{
    let mut statement = Statement::Begin;
    let mut best = None;
    let mut reached = 0;
    for item in items {
        best = noted(ends_before(text, &statement, item), reached, best);
        let Some(next) = step_shape(alloc, text, statement, item)? else {
            return Ok(best)
        };
        statement = next;
        reached += 1;
    }
    Ok(noted(is_whole(&statement), reached, best))
}

// How many items stand before the next separator outside brackets, of which so many are open.
fn before_separator(text: &str, depth: usize, items: &[Item]) -> usize
    requires words { All (IsItemOf text.now) items.now }
    requires few { depth + length items.now ≤ usize.MAX }
    ensures is { result ≡ spec.before_separator of_items depth (items_in text.now items.now) }
    ensures within { result ≤ length items.now }
{
    let mut depth = depth;
    let mut count = 0;
    for item in items {
        if depth == 0 && separates(text, item) {
            return count;
        }
        depth = depth_behind(depth, symbol_in(text, item));
        count += 1;
    }
    count
}

// The first item, and those before the next separator.
fn broken_length(text: &str, items: &[Item]) -> usize
    requires { All (IsItemOf text.now) items.now }
    ensures is { result ≡ spec.broken_length of_items (items_in text.now items.now) }
    ensures within { result ≤ length items.now }
{
    match items {
        [first, rest @ ..] => {
            let depth = depth_behind(0, symbol_in(text, first));
            1 + before_separator(text, depth, rest)
        }
        [] => 0,
    }
}

/// Where the last of these items ends, or what stands before them.
pub fn end_of(end: u32, items: &[Item]) -> u32
    ensures { result ≡ spec.end_of end (map written_span items.now) }
{
    let mut end = end;
    for item in items {
        end = span_of(item).end;
    }
    end
}

fn items_span(items: &[Item]) -> Span
    ensures { result ≡ spec.over_all (map written_span items.now) }
{
    match items {
        [first, rest @ ..] => {
            let Span { start, end } = span_of(first);
            Span {
                start,
                end: end_of(end, rest),
            }
        }
        [] => Span { start: 0, end: 0 },
    }
}

// The statement that these items begin with, which has so many; or that they begin with none.
fn cut_of(text: &str, skip: usize, best: Option<usize>, items: &[Item]) -> Cut
    requires words { All (IsItemOf text.now) items.now }
    requires within { ForSome best (λ count. count ≤ length items.now) }
    ensures is { result ≡ spec.cut_of of_items skip best (items_in text.now items.now) }
    ensures within { result.count ≤ length items.now }
{
    match best {
        Some(count) => Cut {
            skip,
            count,
            broken: false,
            span: items_span(&items[..count]),
        },
        None => {
            let count = broken_length(text, items);
            Cut {
                skip,
                count,
                broken: true,
                span: items_span(&items[..count]),
            }
        }
    }
}

// The statement that these items begin with, behind so many `;`.
fn cut_at(alloc: Global, text: &str, skip: usize, items: &[Item]) -> Result<Cut, NoMemory>
    requires words { All (IsItemOf text.now) items.now }
    requires any { 0 < length items.now }
    ensures is { IfOk result (λ cut. cut ≡ spec.cut_at of_items statements built_until skip (items_in text.now items.now)) }
    ensures some { IfOk result (λ cut. 0 < cut.count) }
    ensures within { IfOk result (λ cut. cut.count ≤ length items.now) }
{
    let best = longest(alloc, text, items)?;
    Ok(cut_of(text, skip, best, items))
}

// The statements of a list, without empty ones.
fn divided(alloc: Global, text: &str, items: &[Item]) -> Result<Row<Cut>, NoMemory>
    requires { All (IsItemOf text.now) items.now }
    ensures { IfOk result (λ cuts. cuts ≡ spec.divided of_items statements built_until (items_in text.now items.now)) }
{
    let mut cuts = Row::new(alloc);
    let mut at = 0;
    let mut skip = 0;
    'items: while at < items.len() {
        if is_semicolon(symbol_in(text, &items[at])) {
            at += 1;
            skip += 1;
        } else {
            let cut = cut_at(alloc, text, skip, &items[at..])?;
            at += cut.count;
            skip = 0;
            cuts.push(cut)?;
        }
    }
    Ok(cuts)
}

/// From the start of what was read to the end of what is read last.
pub fn span_with(so_far: Option<Span>, next: Span) -> Span
    ensures { result ≡ spec.span_with so_far next }
{
    match so_far {
        Some(span) => Span {
            start: span.start,
            end: next.end,
        },
        None => next,
    }
}

fn cuts_end(end: u32, cuts: &[Cut]) -> u32
    ensures { result ≡ spec.end_of end (map spec.cut_span cuts.now) }
{
    let mut end = end;
    for cut in cuts {
        end = cut.span.end;
    }
    end
}

// From the first statement to the last.
fn whole_span(cuts: &[Cut]) -> Option<Span>
    ensures { result ≡ spec.whole_span cuts.now }
{
    match cuts {
        [first, rest @ ..] => Some(Span {
            start: first.span.start,
            end: cuts_end(first.span.end, rest),
        }),
        [] => None,
    }
}

// ---- built

/// Without the next items.
pub fn dropped(rest: &mut Stack<Item>, count: usize)
    ensures { rest.new ≡ drop count rest.old }
{
    let mut left = count;
    'items: while left > 0 {
        let _ = rest.pop();
        left -= 1;
    }
}

// The next items, which are taken off.
fn taken(alloc: Global, rest: &mut Stack<Item>, count: usize) -> Result<Row<Item>, NoMemory>
    ensures is { IfOk result (λ items. items ≡ take count rest.old) }
    ensures left { IfOk result (λ items. rest.new ≡ drop count rest.old) }
{
    let mut items = Row::new(alloc);
    let mut left = count;
    'items: while left > 0 {
        if let Some(item) = rest.pop() {
            items.push(item)?;
        }
        left -= 1;
    }
    Ok(items)
}

// What these items are read as, if each of them can stand next.
fn read(alloc: Global, text: &str, items: Row<Item>) -> Result<Option<Statement>, NoMemory>
    requires { All (IsItemOf text.now) items }
    ensures { IfOk result (λ now. now ≡ run stepped (items_in text.now items) Statement.Begin) }
{
    let mut rest = Stack::from_row(items);
    let mut statement = Statement::Begin;
    'items: while let Some(item) = rest.pop() {
        let Some(next) = step(alloc, text, statement, item)? else {
            return Ok(None)
        };
        statement = next;
    }
    Ok(Some(statement))
}

fn built_from(alloc: Global, statement: Option<Statement>) -> Result<Built, NoMemory>
    ensures { IfOk result (λ built. (end : ℕ) → built ≡ spec.built_from of_items statements built_until statement end) }
{
    match statement {
        Some(statement) => built(alloc, statement),
        None => Ok(Built {
            tall: None,
            free: Row::new(alloc),
        }),
    }
}

fn broken_over(alloc: Global, span: Span) -> Built
    ensures { result ≡ record { tall = unlabelled kind.Broken span no_kids; free = [] } }
{
    Built {
        tall: unlabelled(alloc, TreeKind::Broken, span, no_kids(alloc)),
        free: Row::new(alloc),
    }
}

// The tree of the statement that these items are, or of what is none.
fn built_piece(alloc: Global, text: &str, cut: Cut, items: Row<Item>) -> Result<Built, NoMemory>
    requires { All (IsItemOf text.now) items }
    ensures { IfOk result (λ built. built ≡ spec.built_piece of_items statements built_until (record { items = items_in text.now items; broken = cut.broken; span = cut.span })) }
{
    if cut.broken {
        drop(items);
        Ok(broken_over(alloc, cut.span))
    } else {
        let statement = read(alloc, text, items)?;
        built_from(alloc, statement)
    }
}

/// With the trees of one more.
pub fn with_built(so_far: BuiltKids, next: Built) -> Result<BuiltKids, NoMemory>
    ensures { IfOk result (λ now. now ≡ record { kids = joined so_far.kids next.tall; free = so_far.free ++ next.free }) }
{
    let BuiltKids { kids, free } = so_far;
    let Built { tall, free: more } = next;
    Ok(BuiltKids {
        kids: joined(kids, tall)?,
        free: with_spans(free, more)?,
    })
}

fn built_pieces(
    alloc: Global,
    text: &str,
    span: Option<Span>,
    cuts: &[Cut],
    rest: Stack<Item>,
) -> Result<BuiltList, NoMemory>
    requires { All (IsItemOf text.now) rest }
    ensures { IfOk result (λ list. list ≡ spec.built_pieces of_items statements built_until span no_kids [] (spec.pieces_by of_items cuts.now (items_in text.now rest))) }
{
    let mut rest = rest;
    let mut now = BuiltKids {
        kids: no_kids(alloc),
        free: Row::new(alloc),
    };
    for cut in cuts {
        dropped(&mut rest, cut.skip);
        let items = taken(alloc, &mut rest, cut.count)?;
        let built = built_piece(alloc, text, *cut, items)?;
        now = with_built(now, built)?;
    }
    let BuiltKids { kids, free } = now;
    Ok(BuiltList { kids, free, span })
}

/// The trees of the statements of a list. Each item is read twice: once to find out where its statement ends, and once
/// for its tree.
pub fn built_list(alloc: Global, text: &str, items: Row<Item>) -> Result<BuiltList, NoMemory>
    requires { All (IsItemOf text.now) items }
    ensures { IfOk result (λ list. list ≡ block_list (items_in text.now items)) }
{
    let cuts = divided(alloc, text, items.as_slice())?;
    let span = whole_span(cuts.as_slice());
    let list = built_pieces(alloc, text, span, cuts.as_slice(), Stack::from_row(items))?;
    Ok(list)
}
