//! Units as text: what their trees mean, or where they stand, and the problems.
//!
//! A tree is `a.f(b)`, `(x => e)`, `{a; b}`, or kind, label and kids. Before the kind of a definition stand its
//! modifiers, the access last, and before that of a parameter its keyword. Behind the label of a template stand the
//! numbers of its type parameters, parameters, parents and arguments, `<1 2 1 0>`, where there are any; behind that of
//! a `def`, `<type parameters>` and the number of parameters of each list, `(1)(2)`; of a definition `:` for a written
//! type, and `=` or `{}` for a right side; of a parameter `*`; of a type parameter its bounds. An Import has its
//! clauses.

use pc_terms::{Code, MAX_SOURCE_BYTES, NoMemory, Problem, Row, Span, Text, TreeKind};
use positioned_trees::{
    Access, Detail, ImportClause, MAX_HEIGHT, MethodParts, Modifiers, Name, ParamKeyword,
    ParamParts, RightSide, Selector, SourceUnit, TemplateParts, Tree, TypeParamParts, ValueParts,
    Variance,
};
use std::alloc::Global;
use std::fmt::Write;
use std::process::Abort;
use std::test::Fail;
use tree_parser::parse_unit;

// ---- words

fn push_kind(alloc: Global, kind: TreeKind, text: &mut Text) -> Result<(), NoMemory> {
    let mut word = String::new(alloc);
    write!(word, "{kind:?}")?;
    text.push_str(word.as_str())
}

fn push_code(alloc: Global, code: Code, text: &mut Text) -> Result<(), NoMemory> {
    let mut word = String::new(alloc);
    write!(word, "{code:?}")?;
    text.push_str(word.as_str())
}

// ---- details

fn push_if(holds: bool, word: &str, text: &mut Text) -> Result<(), NoMemory> {
    if holds { text.push_str(word) } else { Ok(()) }
}

fn push_modifiers(modifiers: Modifiers, text: &mut Text) -> Result<(), NoMemory> {
    push_if(modifiers.abstract_, "abstract ", text)?;
    push_if(modifiers.final_, "final ", text)?;
    push_if(modifiers.sealed_, "sealed ", text)?;
    push_if(modifiers.case_, "case ", text)?;
    push_if(modifiers.override_, "override ", text)?;
    text.push_str(match modifiers.access {
        Access::Public => "",
        Access::Private => "private ",
        Access::Protected => "protected ",
    })
}

fn push_keyword(keyword: ParamKeyword, text: &mut Text) -> Result<(), NoMemory> {
    text.push_str(match keyword {
        ParamKeyword::Missing => "",
        ParamKeyword::Val => "val ",
        ParamKeyword::Var => "var ",
    })
}

fn push_before(detail: &Detail, text: &mut Text) -> Result<(), NoMemory> {
    match detail {
        Detail::Template(parts) => push_modifiers(parts.modifiers, text),
        Detail::Value(parts) => push_modifiers(parts.modifiers, text),
        Detail::Method(parts) => push_modifiers(parts.modifiers, text),
        Detail::Alias(modifiers) => push_modifiers(*modifiers, text),
        Detail::Param(parts) => {
            push_modifiers(parts.modifiers, text)?;
            push_keyword(parts.keyword, text)
        }
        _ => Ok(()),
    }
}

fn push_template(alloc: Global, parts: &TemplateParts, text: &mut Text) -> Result<(), NoMemory> {
    if parts.type_params == 0 && parts.params == 0 && parts.parents == 0 {
        return Ok(());
    }
    text.push_str("<")?;
    text.push_number(alloc, parts.type_params as u64)?;
    text.push_str(" ")?;
    text.push_number(alloc, parts.params as u64)?;
    text.push_str(" ")?;
    text.push_number(alloc, parts.parents as u64)?;
    if let Some(args) = parts.args {
        text.push_str(" ")?;
        text.push_number(alloc, args as u64)?;
    }
    text.push_str(">")
}

fn push_value(parts: &ValueParts, text: &mut Text) -> Result<(), NoMemory> {
    push_if(parts.has_type, ":", text)?;
    push_if(parts.has_right_side, "=", text)
}

fn push_method(alloc: Global, parts: &MethodParts, text: &mut Text) -> Result<(), NoMemory> {
    if parts.type_params > 0 {
        text.push_str("<")?;
        text.push_number(alloc, parts.type_params as u64)?;
        text.push_str(">")?;
    }
    for count in parts.param_lists.as_slice() {
        text.push_str("(")?;
        text.push_number(alloc, *count as u64)?;
        text.push_str(")")?;
    }
    push_if(parts.has_type, ":", text)?;
    text.push_str(match parts.right_side {
        RightSide::Missing => "",
        RightSide::Value => "=",
        RightSide::Procedure => "{}",
    })
}

fn push_param(parts: &ParamParts, text: &mut Text) -> Result<(), NoMemory> {
    push_if(parts.repeated, "*", text)
}

fn push_type_param(parts: &TypeParamParts, text: &mut Text) -> Result<(), NoMemory> {
    text.push_str(match parts.variance {
        Variance::Invariant => "",
        Variance::Covariant => "+",
        Variance::Contravariant => "-",
    })?;
    push_if(parts.has_lower, ">:", text)?;
    push_if(parts.has_upper, "<:", text)
}

fn push_name(name: &Name, text: &mut Text) -> Result<(), NoMemory> {
    text.push_str(name.text.as_str())
}

fn push_selector(selector: &Selector, text: &mut Text) -> Result<(), NoMemory> {
    match selector {
        Selector::Named(name) => push_name(name, text),
        Selector::Renamed(name, shown) => {
            push_name(name, text)?;
            text.push_str("=>")?;
            push_name(shown, text)
        }
        Selector::Hidden(name) => {
            push_name(name, text)?;
            text.push_str("=>_")
        }
        Selector::Wildcard(_) => text.push_str("_"),
    }
}

fn push_clause(clause: &ImportClause, text: &mut Text) -> Result<(), NoMemory> {
    for name in clause.qualifier.as_slice() {
        push_name(name, text)?;
        text.push_str(".")?;
    }
    text.push_str("{")?;
    let mut is_first = true;
    for selector in clause.selectors.as_slice() {
        push_if(!is_first, ", ", text)?;
        is_first = false;
        push_selector(selector, text)?;
    }
    text.push_str("}")
}

fn push_clauses(clauses: &Row<ImportClause>, text: &mut Text) -> Result<(), NoMemory> {
    for clause in clauses.as_slice() {
        text.push_str(" ")?;
        push_clause(clause, text)?;
    }
    Ok(())
}

fn push_detail(alloc: Global, detail: &Detail, text: &mut Text) -> Result<(), NoMemory> {
    match detail {
        Detail::Import(clauses) => push_clauses(clauses, text),
        Detail::Template(parts) => push_template(alloc, parts, text),
        Detail::Value(parts) => push_value(parts, text),
        Detail::Method(parts) => push_method(alloc, parts, text),
        Detail::Param(parts) => push_param(parts, text),
        Detail::TypeParam(parts) => push_type_param(parts, text),
        _ => Ok(()),
    }
}

// ---- trees

fn push_name_of(alloc: Global, tree: &Tree, text: &mut Text) -> Result<(), NoMemory> {
    push_before(&tree.detail, text)?;
    push_kind(alloc, tree.kind, text)?;
    if tree.label.len() > 0 {
        text.push_str(" ")?;
        text.push_str(tree.label.as_str())?;
    }
    push_detail(alloc, &tree.detail, text)
}

// How the kids of a tree are written.
#[derive(Clone, Copy, Debug, PartialEq, Eq)]
enum Form {
    Leaf,
    Missing,
    Selection,
    Call,
    Lambda,
    Statements,
    Elements,
    Named,
}

fn form_of(tree: &Tree) -> Form {
    match tree.kind {
        TreeKind::Ident | TreeKind::Literal | TreeKind::TypeIdent => Form::Leaf,
        TreeKind::Param if tree.kids.is_empty() => Form::Leaf,
        TreeKind::Hole => Form::Missing,
        TreeKind::Select => Form::Selection,
        TreeKind::Apply => Form::Call,
        TreeKind::Function => Form::Lambda,
        TreeKind::Block => Form::Statements,
        TreeKind::Tuple => Form::Elements,
        _ => Form::Named,
    }
}

fn push_front(alloc: Global, tree: &Tree, form: Form, text: &mut Text) -> Result<(), NoMemory> {
    match form {
        Form::Leaf => text.push_str(tree.label.as_str()),
        Form::Missing => text.push_str("?"),
        Form::Selection | Form::Call => Ok(()),
        Form::Lambda | Form::Elements => text.push_str("("),
        Form::Statements => text.push_str("{"),
        Form::Named => push_name_of(alloc, tree, text),
    }
}

fn before_kid(form: Form, at: usize, count: usize) -> &'static str {
    match form {
        Form::Lambda if at.saturating_add(1) == count => " => ",
        Form::Named if at == 0 => "[",
        _ if at == 0 => "",
        Form::Selection => ".",
        Form::Call if at == 1 => "(",
        Form::Statements => "; ",
        _ => ", ",
    }
}

fn behind_kids(form: Form, count: usize) -> &'static str {
    match form {
        Form::Leaf | Form::Missing | Form::Selection => "",
        Form::Call if count == 1 => "()",
        Form::Call | Form::Lambda | Form::Elements => ")",
        Form::Statements => "}",
        Form::Named if count == 0 => "",
        Form::Named => "]",
    }
}

fn push_back(tree: &Tree, form: Form, text: &mut Text) -> Result<(), NoMemory> {
    if form == Form::Selection && tree.kids.len() == 1 {
        text.push_str(".")?;
        return text.push_str(tree.label.as_str());
    }
    text.push_str(behind_kids(form, tree.kids.len()))
}

// A tree as far as it is no higher than this.
fn push_meaning(alloc: Global, tree: &Tree, room: u32, text: &mut Text) -> Result<(), NoMemory> {
    if room == 0 {
        return text.push_str("..");
    }
    let form = form_of(tree);
    let count = tree.kids.len();
    push_front(alloc, tree, form, text)?;
    for (at, kid) in tree.kids.as_slice().iter().enumerate() {
        text.push_str(before_kid(form, at, count))?;
        push_meaning(alloc, kid, room - 1, text)?;
    }
    push_back(tree, form, text)
}

fn push_span(alloc: Global, span: Span, text: &mut Text) -> Result<(), NoMemory> {
    text.push_number(alloc, span.start as u64)?;
    text.push_str("-")?;
    text.push_number(alloc, span.end as u64)
}

// Kind, label, span; `@` and the label's span where it is another; `'` where the tree is not opaque.
fn push_place(alloc: Global, tree: &Tree, text: &mut Text) -> Result<(), NoMemory> {
    push_kind(alloc, tree.kind, text)?;
    if tree.label.len() > 0 {
        text.push_str(" ")?;
        text.push_str(tree.label.as_str())?;
    }
    text.push_str(" ")?;
    push_span(alloc, tree.span, text)?;
    if tree.label_span != tree.span {
        text.push_str("@")?;
        push_span(alloc, tree.label_span, text)?;
    }
    text.push_str(if tree.opaque { "" } else { "'" })
}

// The same with the kids, as far as the tree is no higher than this.
fn push_places(alloc: Global, tree: &Tree, room: u32, text: &mut Text) -> Result<(), NoMemory> {
    if room == 0 {
        return text.push_str("..");
    }
    push_place(alloc, tree, text)?;
    for (at, kid) in tree.kids.as_slice().iter().enumerate() {
        text.push_str(if at == 0 { "(" } else { ", " })?;
        push_places(alloc, kid, room - 1, text)?;
    }
    if tree.kids.is_empty() {
        return Ok(());
    }
    text.push_str(")")
}

// ---- units

fn push_problem(alloc: Global, problem: &Problem, text: &mut Text) -> Result<(), NoMemory> {
    text.push_str(" ! ")?;
    push_code(alloc, problem.code, text)?;
    text.push_str(" ")?;
    push_span(alloc, problem.span, text)
}

fn push_unit(
    alloc: Global,
    unit: &SourceUnit,
    places: bool,
    text: &mut Text,
) -> Result<(), NoMemory> {
    for (at, kid) in unit.root.kids.as_slice().iter().enumerate() {
        text.push_str(if at == 0 { "" } else { "; " })?;
        if places {
            push_places(alloc, kid, MAX_HEIGHT, text)?;
        } else {
            push_meaning(alloc, kid, MAX_HEIGHT, text)?;
        }
    }
    for problem in unit.problems.as_slice() {
        push_problem(alloc, problem, text)?;
    }
    Ok(())
}

/// The unit of a text, which is short enough for a source.
pub fn unit_at(rt: &impl Abort, alloc: Global, source: &str) -> Result<SourceUnit, Fail> {
    assert!(rt; source.len() <= MAX_SOURCE_BYTES);
    Ok(parse_unit(alloc, source)?)
}

/// What `parse_unit` gives of a text: what its trees mean or where they stand, and behind each ` ! ` a problem.
pub fn shown(rt: &impl Abort, alloc: Global, source: &str, places: bool) -> Result<Text, Fail> {
    let mut text = Text::new(alloc, "")?;
    let unit = unit_at(rt, alloc, source)?;
    push_unit(alloc, &unit, places, &mut text)?;
    Ok(text)
}
