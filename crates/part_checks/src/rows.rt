//! How rows say where a part stands in a text, and what it is.

ghost use Rattle.pc_terms.specs.Bytes.{max_source_bytes};
ghost use Rattle.scan_tokens.specs.Scanned.{scanned};
ghost use Rattle.std.specs.Prelude.{◌≡◌, ◌≤◌, length, IfOk};

use parse_parts::{Part, parse_type};
use parse_patterns::parse_pattern;
use pc_terms::{MAX_SOURCE_BYTES, NoMemory, Span};
use positioned_trees::{Detail, Tree};
use scan_tokens::{Tokens, scan};
use std::alloc::{AllocError, Global};
use std::process::Abort;
use std::test::Fail;

/// A text with two marks ▮, and what is read at the first mark. The second mark stands after the part, or before
/// the first token that no part admits. A tree is written as its number, its kind, its label, the text with its span
/// between two marks, where the label has another span, `@` and the text with that span, and its kids between brackets.
pub type Row = (&'static str, &'static str);

// The tokens of a text, and the numbers of those after the two marks.
#[derive(Drop)]
struct Marked {
    tokens: Tokens,
    at: u32,
    behind: u32,
}

fn tokens_before(tokens: &Tokens, offset: usize) -> u32 {
    let mut count: u32 = 0;
    for token in tokens.tokens.as_slice() {
        if (token.span.start as usize) < offset {
            count = count.saturating_add(1);
        }
    }
    count
}

#[tactic(auto, unfolding(scan_tokens::specs::Scanned::scanned))]
fn tokens_of(alloc: Global, text: &str) -> Result<Tokens, NoMemory>
    requires { length text.now ≤ max_source_bytes }
    ensures scanned { IfOk result (λ tokens. tokens ≡ scanned tokens.text) }
    ensures short { IfOk result (λ tokens. length tokens.text ≤ max_source_bytes) }
{
    scan(alloc, text)
}

fn cut_at_marks(rt: &(impl Abort + AllocGlobal), text: &str) -> Result<Marked, Fail>
    ensures scanned { IfOk result (λ m. m.tokens ≡ scanned m.tokens.text) }
    ensures short { IfOk result (λ m. length m.tokens.text ≤ max_source_bytes) }
    ensures within { IfOk result (λ m. m.at ≤ length m.tokens.tokens) }
{
    let (front, rest) = text.split_once('▮').expect(rt, "a first mark");
    let (part, back) = rest.split_once('▮').expect(rt, "a second mark");
    let plain = format!(in rt.alloc(); "{front}{part}{back}")?;
    assert!(rt; plain.len() <= MAX_SOURCE_BYTES);
    let tokens = tokens_of(rt.alloc(), plain.as_str())?;
    let at = tokens_before(&tokens, front.len());
    let behind = tokens_before(&tokens, front.len().saturating_add(part.len()));
    assert!(rt; at as usize <= tokens.tokens.len());
    Ok(Marked { tokens, at, behind })
}

// The text with a span of it between two marks.
fn push_span(shown: &mut String, text: &str, span: Span) -> Result<(), AllocError> {
    let (start, end) = (span.start as usize, span.end as usize);
    let front = text.get(..start).unwrap_or("no start");
    let part = text.get(start..end).unwrap_or("no part");
    let back = text.get(end..).unwrap_or("no end");
    write!(shown, " {front}▮{part}▮{back}")
}

fn push_node(shown: &mut String, text: &str, tree: &Tree) -> Result<(), AllocError> {
    let (id, kind, label) = (tree.id, tree.kind, tree.label.as_str());
    write!(shown, "{id} {kind:?}")?;
    if !label.is_empty() {
        write!(shown, " {label}")?;
    }
    push_span(shown, text, tree.span)?;
    if tree.label_span != tree.span {
        shown.push_str(" @")?;
        push_span(shown, text, tree.label_span)?;
    }
    if !tree.opaque || !matches!(tree.detail, Detail::Plain) {
        shown.push_str(" not plain")?;
    }
    Ok(())
}

// A tree as far as it is no higher than this.
fn push_tree(shown: &mut String, text: &str, tree: &Tree, room: u32) -> Result<(), AllocError> {
    if room == 0 {
        shown.push_str("..")?;
        return Ok(());
    }
    push_node(shown, text, tree)?;
    let mut first = true;
    for kid in tree.kids.as_slice() {
        shown.push_str(if first { " [" } else { ", " })?;
        push_tree(shown, text, kid, room - 1)?;
        first = false;
    }
    if !first {
        shown.push_str("]")?;
    }
    Ok(())
}

// What a part of a text is, without its end.
fn shown(alloc: Global, text: &str, part: &Part) -> Result<String, AllocError> {
    let mut shown = String::new(alloc);
    match part {
        Part::Read(tree, _) => push_tree(&mut shown, text, tree, 16)?,
        Part::NotHere(_) => shown.push_str("not here")?,
        Part::TooHigh(_) => shown.push_str("too high")?,
    }
    Ok(shown)
}

// Whether a part is the one of the row, and ends at the second mark.
fn agree(
    rt: &(impl Abort + AllocGlobal),
    row: &Row,
    marked: &Marked,
    part: &Part,
) -> Result<(), Fail> {
    let (text, expected) = *row;
    assert_eq!(rt;
        shown(rt.alloc(), marked.tokens.text.as_str(), part)?.as_str(),
        expected,
        "at the first mark of {text:?}"
    );
    let end = match part {
        Part::Read(_, end) | Part::NotHere(end) | Part::TooHigh(end) => *end,
    };
    assert_eq!(rt;
        end,
        marked.behind,
        "the token at the second mark of {text:?}"
    );
    Ok(())
}

/// What the parts of a module's rows are.
#[derive(Clone, Copy, Debug)]
pub enum Kind {
    Type,
    Pattern,
}

fn parse(alloc: Global, kind: Kind, tokens: &Tokens, at: u32) -> Result<Part, NoMemory>
    requires short { length tokens.now.text ≤ max_source_bytes }
    requires scanned { tokens.now ≡ scanned tokens.now.text }
    requires within { at ≤ length tokens.now.tokens }
{
    match kind {
        Kind::Type => parse_type(alloc, tokens, at),
        Kind::Pattern => parse_pattern(alloc, tokens, at),
    }
}

/// Reads the part of each row.
pub fn read_all(rt: &(impl Abort + AllocGlobal), kind: Kind, rows: &[Row]) -> Result<(), Fail> {
    for row in rows {
        let marked = cut_at_marks(rt, row.0)?;
        let part = parse(rt.alloc(), kind, &marked.tokens, marked.at)?;
        agree(rt, row, &marked, &part)?;
    }
    Ok(())
}

/// What stands so many times before `A`, and after it.
pub type Nest = (&'static str, &'static str);

fn push_times(text: &mut String, piece: &str, times: u32) -> Result<(), AllocError> {
    for _ in 0..times {
        text.push_str(piece)?;
    }
    Ok(())
}

/// Whether a part with so many of these around it is read; else it is too high.
pub fn is_read(
    rt: &(impl Abort + AllocGlobal),
    kind: Kind,
    nest: Nest,
    times: u32,
) -> Result<bool, Fail> {
    let mut text = String::new(rt.alloc());
    push_times(&mut text, nest.0, times)?;
    text.push_str("A")?;
    push_times(&mut text, nest.1, times)?;
    assert!(rt; text.len() <= MAX_SOURCE_BYTES);
    let tokens = tokens_of(rt.alloc(), text.as_str())?;
    let (end, read) = match parse(rt.alloc(), kind, &tokens, 0)? {
        Part::Read(_, end) => (end, true),
        Part::TooHigh(end) => (end, false),
        Part::NotHere(bad) => panic!(rt; "{times} of {nest:?}: no part at token {bad}"),
    };
    assert_eq!(rt; end as usize, tokens.tokens.len(), "{times} of {nest:?}");
    Ok(read)
}

/// Each of these makes a part one level higher, so that 399 around a part of one level are the most that is read.
pub fn ends_at_400_levels(
    rt: &(impl Abort + AllocGlobal),
    kind: Kind,
    nests: &[Nest],
) -> Result<(), Fail> {
    for nest in nests {
        assert!(rt; is_read(rt, kind, *nest, 399)?, "399 of {nest:?}");
        assert!(rt; !is_read(rt, kind, *nest, 400)?, "400 of {nest:?}");
        assert!(rt; !is_read(rt, kind, *nest, 9000)?, "9000 of {nest:?}");
    }
    Ok(())
}
