//! Classes, traits and objects, up to and with their bodies (SLS 5).

ghost use Rattle.std.specs.Prelude.{◌≡◌, IfOk};
ghost use Rattle.parse_patterns.specs.Names.{lexeme_with};
ghost use Rattle.template_steps.specs.Templates as spec;

use crate::class_params::{ParamList, ParamTail, Params};
use crate::constructors::{
    at_either, at_name, either_head, extended, in_either, in_mods, in_params, is_in_arguments,
    is_named, named_head, params_at,
};
use crate::heads::{Form, Head, is_word, template_tree, with_statements};
use crate::parents::{args_braces, args_step, in_parent, mixed_in, parent_head};
use def_steps::modifiers::nothing_found;
use def_steps::states::{State as DefState, Tail as DefTail};
use expr_frames::beside;
use expr_frames::frames::is_near;
use expr_tails::items::Braces;
use expr_tails::states::State as ExprState;
use expr_tails::types::is_type;
use parse_parts::built::{Kids, Tall};
use parse_parts::states::State as TypeState;
use pc_terms::NoMemory;
use positioned_trees::Modifiers;
use scan_tokens::{Newline, Token};
use sqlite_items::Boxed;
use std::alloc::Global;

#[derive(Debug, Drop)]
pub enum Tail {
    /// The word, the name and the type parameters, as those of a method.
    AtName(DefState),
    /// The modifiers of a constructor.
    InMods(Head, Boxed<DefState>),
    InParams(Head, ParamList, ParamTail),
    /// Behind an annotation of the constructor, in its arguments, or in the parameters, if these can be so.
    InEither(Head, Boxed<DefState>, Option<Params>),
    /// Behind the bracket that ends either.
    AtEither(Head, Boxed<DefState>, Option<ParamList>),
    /// Behind the parameters.
    AtParents(Head),
    /// A parent so far.
    InParent(Head, TypeState),
    /// The arguments of the first parent so far, as those of an operand without a tree.
    InArgs(Head, Boxed<ExprState>),
    /// Behind the arguments.
    AtMixins(Head),
    /// Behind the body.
    AtBody(Head),
}

#[derive(Debug, Drop)]
pub struct Template {
    pub form: Form,
    pub modifiers: Modifiers,
    pub tail: Tail,
}

/// Which template the token begins, if any.
pub fn form_of(token: Token, word: &str) -> Option<Form>
    ensures { result ≡ spec.form_of (lexeme_with token word.now) }
{
    if is_word(token, word, b"class".as_slice()) {
        Some(Form::Class)
    } else if is_word(token, word, b"trait".as_slice()) {
        Some(Form::Trait)
    } else if is_word(token, word, b"object".as_slice()) {
        Some(Form::Object)
    } else {
        None
    }
}

/// Behind the word of a template, which starts here.
pub fn begun(form: Form, modifiers: Modifiers, start: u32) -> Template
    ensures { result ≡ spec.begun form modifiers start }
{
    Template {
        form,
        modifiers,
        tail: Tail::AtName(DefState {
            found: nothing_found(),
            tail: DefTail::AtDef(start),
        }),
    }
}

/// Whether what was read is a template.
pub fn is_template(template: &Template) -> bool
    ensures { result ≡ spec.is_template template.now }
{
    match &template.tail {
        Tail::AtName(name) => is_named(name),
        Tail::InParent(_, ty) => is_type(ty),
        Tail::AtEither(_, _, params) => params.is_some(),
        Tail::AtParents(_) | Tail::AtMixins(_) | Tail::AtBody(_) => true,
        Tail::InMods(..) | Tail::InParams(..) | Tail::InEither(..) | Tail::InArgs(..) => false,
    }
}

// The head that ends at a tail.
fn head_at(alloc: Global, tail: Tail) -> Result<Option<Head>, NoMemory>
    ensures { IfOk result (λ now. now ≡ spec.head_at tail) }
{
    match tail {
        Tail::AtName(name) => Ok(named_head(name)),
        Tail::AtEither(head, mods, params) => {
            drop(mods);
            either_head(head, params)
        }
        Tail::AtParents(head) => Ok(Some(head)),
        Tail::AtMixins(head) => Ok(Some(head)),
        Tail::AtBody(head) => Ok(Some(head)),
        Tail::InParent(head, ty) => parent_head(alloc, head, ty),
        tail => {
            drop(tail);
            Ok(None)
        }
    }
}

/// The tree of the template that was read, whose last piece ends here.
pub fn template_at(alloc: Global, template: Template, end: u32) -> Result<Option<Tall>, NoMemory>
    ensures { IfOk result (λ now. now ≡ spec.template_at template end) }
{
    let Template {
        form,
        modifiers,
        tail,
    } = template;
    match head_at(alloc, tail)? {
        Some(head) => Ok(template_tree(form, modifiers, head, end)),
        None => Ok(None),
    }
}

// ---- one piece more

fn with_tail(form: Form, modifiers: Modifiers, tail: Option<Tail>) -> Option<Template>
    ensures { result ≡ spec.with_tail form modifiers tail }
{
    match tail {
        Some(tail) => Some(Template {
            form,
            modifiers,
            tail,
        }),
        None => None,
    }
}

fn step_at(
    alloc: Global,
    form: Form,
    tail: Tail,
    token: Token,
    word: &str,
) -> Result<Option<Tail>, NoMemory>
    ensures { IfOk result (λ now. now ≡ spec.stepped_at tail form (lexeme_with token word.now)) }
{
    match tail {
        Tail::AtName(name) => at_name(alloc, form, name, token, word),
        Tail::InMods(head, mods) => in_mods(alloc, head, mods.into_inner(), token, word),
        Tail::InParams(head, list, tail) => in_params(alloc, head, list, tail, token, word),
        Tail::InEither(head, mods, params) => in_either(
            alloc,
            head,
            mods.into_inner(),
            params,
            token,
            word,
        ),
        Tail::AtEither(head, mods, params) => at_either(
            alloc,
            head,
            mods.into_inner(),
            params,
            token,
            word,
        ),
        Tail::AtParents(head) => Ok(extended(alloc, head, token, word)),
        Tail::InParent(head, ty) => in_parent(alloc, head, ty, token, word),
        Tail::InArgs(head, args) => args_step(alloc, head, args.into_inner(), token, word),
        Tail::AtMixins(head) => Ok(mixed_in(alloc, head, token, word)),
        Tail::AtBody(head) => {
            drop(head);
            Ok(None)
        }
    }
}

/// The template with one token more, if it can stand next.
pub fn step(
    alloc: Global,
    template: Template,
    token: Token,
    word: &str,
) -> Result<Option<Template>, NoMemory>
    ensures { IfOk result (λ now. now ≡ spec.step template (lexeme_with token word.now)) }
{
    let Template {
        form,
        modifiers,
        tail,
    } = template;
    let tail = step_at(alloc, form, tail, token, word)?;
    Ok(with_tail(form, modifiers, tail))
}

// ---- pairs of braces

// Any tokens whose brackets match stand in the arguments of an annotation.
fn in_annotation(mods: Boxed<DefState>) -> Option<Boxed<DefState>>
    ensures { result ≡ spec.in_annotation mods }
{
    if is_in_arguments(&mods.get().tail) {
        Some(mods)
    } else {
        drop(mods);
        None
    }
}

fn params_in_mods(list: ParamList, start: u32, mods: Option<Boxed<DefState>>) -> Option<Params>
    ensures { result ≡ spec.params_in_mods list start mods }
{
    match mods {
        Some(mods) => Some(Params::Open(list, ParamTail::InMods(start, mods))),
        None => {
            drop(list);
            None
        }
    }
}

fn braces_in_list(list: ParamList, tail: ParamTail) -> Option<Params>
    ensures { result ≡ spec.braces_in_list list tail }
{
    match tail {
        ParamTail::InMods(start, mods) => params_in_mods(list, start, in_annotation(mods)),
        tail => {
            drop(list);
            drop(tail);
            None
        }
    }
}

fn braces_in_params(params: Option<Params>) -> Option<Params>
    ensures { result ≡ spec.braces_in_params params }
{
    match params {
        Some(Params::Open(list, tail)) => braces_in_list(list, tail),
        Some(Params::Closed(list)) => {
            drop(list);
            None
        }
        None => None,
    }
}

fn in_mods_of(head: Head, mods: Option<Boxed<DefState>>) -> Option<Tail>
    ensures { result ≡ spec.in_mods_of head mods }
{
    match mods {
        Some(mods) => Some(Tail::InMods(head, mods)),
        None => {
            drop(head);
            None
        }
    }
}

fn braces_at(alloc: Global, tail: Tail, braces: Braces) -> Result<Option<Tail>, NoMemory>
    ensures { IfOk result (λ now. now ≡ spec.braces_at tail braces) }
{
    match tail {
        Tail::InArgs(head, args) => args_braces(alloc, head, args.into_inner(), braces),
        Tail::InMods(head, mods) => {
            drop(braces);
            Ok(in_mods_of(head, in_annotation(mods)))
        }
        Tail::InEither(head, mods, params) => {
            drop(braces);
            Ok(Some(Tail::InEither(head, mods, braces_in_params(params))))
        }
        Tail::InParams(head, list, tail) => {
            drop(braces);
            params_at(head, braces_in_list(list, tail))
        }
        tail => {
            drop(tail);
            drop(braces);
            Ok(None)
        }
    }
}

/// The template with a pair of braces in its annotations or arguments, if it can stand next.
pub fn step_braces(
    alloc: Global,
    template: Template,
    braces: Braces,
) -> Result<Option<Template>, NoMemory>
    ensures { IfOk result (λ now. now ≡ spec.step_braces template braces) }
{
    let Template {
        form,
        modifiers,
        tail,
    } = template;
    let tail = braces_at(alloc, tail, braces)?;
    Ok(with_tail(form, modifiers, tail))
}

// ---- the body

fn is_at_body(tail: &Tail) -> bool
    ensures { result ≡ spec.is_at_body tail.now }
{
    matches!(tail, Tail::AtBody(_))
}

fn with_body(head: Option<Head>, statements: Option<Kids>) -> Result<Option<Tail>, NoMemory>
    ensures { IfOk result (λ now. now ≡ spec.with_body head statements) }
{
    match head {
        Some(head) => Ok(Some(Tail::AtBody(with_statements(head, statements)?))),
        None => {
            drop(statements);
            Ok(None)
        }
    }
}

/// The template with its body, if it can stand next.
pub fn step_body(
    alloc: Global,
    template: Template,
    before: Newline,
    statements: Option<Kids>,
) -> Result<Option<Template>, NoMemory>
    ensures { IfOk result (λ now. now ≡ spec.step_body template before statements) }
{
    let Template {
        form,
        modifiers,
        tail,
    } = template;
    if !is_near(before) || is_at_body(&tail) {
        drop(tail);
        drop(statements);
        Ok(None)
    } else {
        let head = beside!(statements; head_at(alloc, tail));
        let tail = with_body(head, statements)?;
        Ok(with_tail(form, modifiers, tail))
    }
}
