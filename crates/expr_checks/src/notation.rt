//! Trees as text: what a tree means, in the language's own words, or where it stands.

ghost use Rattle.pc_terms.specs.Bytes.{max_source_bytes};
ghost use Rattle.scan_tokens.specs.Scanned.{scanned};
ghost use Rattle.std.specs.Prelude.{◌≡◌, ◌≤◌, length, IfOk};

use parse_exprs::parse_expr;
use parse_parts::Part;
use pc_terms::{MAX_SOURCE_BYTES, NoMemory, Span, Text, TreeKind};
use positioned_trees::{MAX_HEIGHT, Tree};
use scan_tokens::{Tokens, scan};
use std::alloc::Global;
use std::fmt::Write;
use std::process::Abort;
use std::test::Fail;

#[tactic(auto, unfolding(scan_tokens::specs::Scanned::scanned))]
pub fn tokens_of(alloc: Global, text: &str) -> Result<Tokens, NoMemory>
    requires { length text.now ≤ max_source_bytes }
    ensures scanned { IfOk result (λ tokens. tokens ≡ scanned tokens.text) }
    ensures short { IfOk result (λ tokens. length tokens.text ≤ max_source_bytes) }
{
    scan(alloc, text)
}

fn push_kind(alloc: Global, kind: TreeKind, text: &mut Text) -> Result<(), NoMemory> {
    let mut word = String::new(alloc);
    write!(word, "{kind:?}")?;
    text.push_str(word.as_str())
}

fn push_name_of(alloc: Global, tree: &Tree, text: &mut Text) -> Result<(), NoMemory> {
    push_kind(alloc, tree.kind, text)?;
    if tree.label.len() > 0 {
        text.push_str(" ")?;
        text.push_str(tree.label.as_str())?;
    }
    Ok(())
}

// How the kids of a tree are written.
#[derive(Clone, Copy, Debug, PartialEq, Eq)]
enum Form {
    Leaf,
    Missing,
    Selection,
    Call,
    Lambda,
    Statements,
    Elements,
    Named,
}

fn form_of(tree: &Tree) -> Form {
    match tree.kind {
        TreeKind::Ident | TreeKind::Literal | TreeKind::TypeIdent => Form::Leaf,
        TreeKind::Param if tree.kids.is_empty() => Form::Leaf,
        TreeKind::Hole => Form::Missing,
        TreeKind::Select => Form::Selection,
        TreeKind::Apply => Form::Call,
        TreeKind::Function => Form::Lambda,
        TreeKind::Block => Form::Statements,
        TreeKind::Tuple => Form::Elements,
        _ => Form::Named,
    }
}

fn push_front(alloc: Global, tree: &Tree, form: Form, text: &mut Text) -> Result<(), NoMemory> {
    match form {
        Form::Leaf => text.push_str(tree.label.as_str()),
        Form::Missing => text.push_str("?"),
        Form::Selection | Form::Call => Ok(()),
        Form::Lambda | Form::Elements => text.push_str("("),
        Form::Statements => text.push_str("{"),
        Form::Named => push_name_of(alloc, tree, text),
    }
}

fn before_kid(form: Form, at: usize, count: usize) -> &'static str {
    match form {
        Form::Lambda if at.saturating_add(1) == count => " => ",
        Form::Named if at == 0 => "[",
        _ if at == 0 => "",
        Form::Selection => ".",
        Form::Call if at == 1 => "(",
        Form::Statements => "; ",
        _ => ", ",
    }
}

fn behind_kids(form: Form, count: usize) -> &'static str {
    match form {
        Form::Leaf | Form::Missing | Form::Selection => "",
        Form::Call if count == 1 => "()",
        Form::Call | Form::Lambda | Form::Elements => ")",
        Form::Statements => "}",
        Form::Named if count == 0 => "",
        Form::Named => "]",
    }
}

fn push_back(tree: &Tree, form: Form, text: &mut Text) -> Result<(), NoMemory> {
    if form == Form::Selection && tree.kids.len() == 1 {
        text.push_str(".")?;
        return text.push_str(tree.label.as_str());
    }
    text.push_str(behind_kids(form, tree.kids.len()))
}

// `a.f(b)`, `(x => e)`, `{a; b}`, and kind, label and kids of what has no such form, as far
// as it is no higher than this.
fn push_meaning(alloc: Global, tree: &Tree, room: u32, text: &mut Text) -> Result<(), NoMemory> {
    if room == 0 {
        return text.push_str("..");
    }
    let form = form_of(tree);
    let count = tree.kids.len();
    push_front(alloc, tree, form, text)?;
    for (at, kid) in tree.kids.as_slice().iter().enumerate() {
        text.push_str(before_kid(form, at, count))?;
        push_meaning(alloc, kid, room - 1, text)?;
    }
    push_back(tree, form, text)
}

fn push_span(alloc: Global, span: Span, text: &mut Text) -> Result<(), NoMemory> {
    text.push_number(alloc, span.start as u64)?;
    text.push_str("-")?;
    text.push_number(alloc, span.end as u64)
}

// Kind, label, span; `@` and the label's span where it is another; `'` where the tree is not opaque.
fn push_place(alloc: Global, tree: &Tree, text: &mut Text) -> Result<(), NoMemory> {
    push_kind(alloc, tree.kind, text)?;
    if tree.label.len() > 0 {
        text.push_str(" ")?;
        text.push_str(tree.label.as_str())?;
    }
    text.push_str(" ")?;
    push_span(alloc, tree.span, text)?;
    if tree.label_span != tree.span {
        text.push_str("@")?;
        push_span(alloc, tree.label_span, text)?;
    }
    text.push_str(if tree.opaque { "" } else { "'" })
}

// The same with the kids, as far as the tree is no higher than this.
fn push_places(alloc: Global, tree: &Tree, room: u32, text: &mut Text) -> Result<(), NoMemory> {
    if room == 0 {
        return text.push_str("..");
    }
    push_place(alloc, tree, text)?;
    for (at, kid) in tree.kids.as_slice().iter().enumerate() {
        text.push_str(if at == 0 { "(" } else { ", " })?;
        push_places(alloc, kid, room - 1, text)?;
    }
    if tree.kids.is_empty() {
        return Ok(());
    }
    text.push_str(")")
}

fn push_refusal(alloc: Global, word: &str, at: u32, text: &mut Text) -> Result<(), NoMemory> {
    text.push_str(word)?;
    text.push_number(alloc, at as u64)
}

/// What `parse_expr` gives at a token: how many tokens it reads, and what the tree means or where it stands.
pub fn shown(
    rt: &impl Abort,
    alloc: Global,
    source: &str,
    at: u32,
    places: bool,
) -> Result<Text, Fail> {
    assert!(rt; source.len() <= MAX_SOURCE_BYTES);
    let tokens = tokens_of(alloc, source)?;
    assert!(rt; at as usize <= tokens.tokens.len());
    let mut text = Text::new(alloc, "")?;
    match parse_expr(alloc, &tokens, at)? {
        Part::Read(tree, behind) => {
            push_refusal(alloc, "", behind, &mut text)?;
            text.push_str(": ")?;
            if places {
                push_places(alloc, &tree, MAX_HEIGHT, &mut text)?;
            } else {
                push_meaning(alloc, &tree, MAX_HEIGHT, &mut text)?;
            }
        }
        Part::NotHere(token) => push_refusal(alloc, "not here ", token, &mut text)?,
        Part::TooHigh(behind) => push_refusal(alloc, "too high ", behind, &mut text)?,
    }
    Ok(text)
}
