//! How types are printed.
#![tactic(auto, using(crate::proofs::TypeTexts::type_texts, std::proofs::lemmas::Grind::common_steps))]

ghost use Rattle.std.specs.Prelude.{◌≡◌, ◌++◌, ◌<◌, ◌≤◌, length, map, take, OnOk, IfOk, codes};
ghost use Rattle.pc_terms.specs.ShowType as types;

use crate::symbol_text::{is_scala, last_name, push_path};
use crate::{Formal, NoMemory, SymPath, SymStep, Text, Ty};
use std::alloc::Global;

/// A type as a user reads it.
pub fn show(alloc: Global, ty: &Ty) -> Result<Text, NoMemory>
    ensures { IfOk result (λ text. text ≡ types.type_text ty.now) }
{
    let mut text = Text::new(alloc, "")?;
    push_type(alloc, &mut text, ty)?;
    Ok(text)
}

fn is_named(name: &str, path: &[SymStep]) -> bool
    ensures { result ≡ types.is_named name.now path.now }
{
    match path {
        [owner, step] => is_scala(owner) && step.name.as_str() == name,
        _ => false,
    }
}

fn is_function(path: &[SymStep], count: usize) -> bool
    ensures { result ≡ types.is_function path.now count }
{
    match count {
        1 => is_named("Function0", path),
        2 => is_named("Function1", path),
        3 => is_named("Function2", path),
        4 => is_named("Function3", path),
        _ => false,
    }
}

fn is_tuple(path: &[SymStep], count: usize) -> bool
    ensures { result ≡ types.is_tuple path.now count }
{
    match count {
        2 => is_named("Tuple2", path),
        3 => is_named("Tuple3", path),
        _ => false,
    }
}

fn is_compound(ty: &Ty) -> bool
    ensures { result ≡ (types.shown ty.now).compound }
{
    match ty {
        Ty::Class(path, args) => {
            let path = path.steps.as_slice();
            is_function(path, args.len()) || is_tuple(path, args.len())
        }
        Ty::Param(_) | Ty::Module(_) | Ty::Package(_) | Ty::Method(_, _) | Ty::Poly(_, _) => false,
        Ty::Error => false,
    }
}

// Whether the first `count` of the types are one parameter that needs no parentheses.
fn is_alone(tys: &[Ty], count: usize) -> bool
    requires { count ≤ length tys.now }
    ensures { result ≡ types.is_alone (map types.shown (take count tys.now)) }
{
    match &tys[..count] {
        [only] => !is_compound(only),
        _ => false,
    }
}

#[tactic(auto, unfolding(crate::specs::ShowType::param_name))]
fn push_param(text: &mut Text, param: &SymPath) -> Result<(), NoMemory>
    ensures { OnOk result (text.new ≡ text.old ++ types.param_name param.now) }
{
    text.push_str(last_name(param.steps.as_slice()))
}

fn push_params(text: &mut Text, params: &[SymPath]) -> Result<(), NoMemory>
    ensures { OnOk result (text.new ≡ text.old ++ types.joined (map types.param_name params.now)) }
{
    let mut before = "";
    for param in params {
        text.push_str(before)?;
        push_param(text, param)?;
        before = ", ";
    }
    Ok(())
}

#[cycle(show_type)]
fn push_formal(alloc: Global, text: &mut Text, formal: &Formal) -> Result<(), NoMemory>
    ensures { OnOk result (text.new ≡ text.old ++ types.formal_text formal.now) }
{
    text.push_str(formal.name.as_str())?;
    text.push_str(": ")?;
    push_type(alloc, text, &formal.ty)?;
    if formal.repeated {
        text.push_str("*")?;
    }
    Ok(())
}

#[cycle(show_type)]
fn push_formals(alloc: Global, text: &mut Text, formals: &[Formal]) -> Result<(), NoMemory>
    ensures { OnOk result (text.new ≡ text.old ++ types.joined (map types.formal_text formals.now)) }
{
    let mut before = "";
    for formal in formals {
        text.push_str(before)?;
        push_formal(alloc, text, formal)?;
        before = ", ";
    }
    Ok(())
}

// The first `count` of the types.
#[cycle(show_type)]
fn push_types(alloc: Global, text: &mut Text, tys: &[Ty], count: usize) -> Result<(), NoMemory>
    requires { count ≤ length tys.now }
    ensures { OnOk result (text.new ≡ text.old ++ types.joined (types.texts_of (map types.shown (take count tys.now)))) }
{
    let mut before = "";
    for at in 0..count {
        text.push_str(before)?;
        push_type(alloc, text, &tys[at])?;
        before = ", ";
    }
    Ok(())
}

// The first `count` of the types, as the parameters of a function.
#[cycle(show_type)]
fn push_parameters(alloc: Global, text: &mut Text, tys: &[Ty], count: usize) -> Result<(), NoMemory>
    requires { count ≤ length tys.now }
    ensures { OnOk result (text.new ≡ text.old ++ types.parameters_text (map types.shown (take count tys.now))) }
{
    if is_alone(tys, count) {
        return push_types(alloc, text, tys, count);
    }
    text.push_str("(")?;
    push_types(alloc, text, tys, count)?;
    text.push_str(")")
}

#[cycle(show_type)]
fn push_function(alloc: Global, text: &mut Text, tys: &[Ty]) -> Result<(), NoMemory>
    requires { 0 < length tys.now }
    ensures { OnOk result (text.new ≡ text.old ++ types.function_text (map types.shown tys.now)) }
{
    let last = tys.len() - 1;
    push_parameters(alloc, text, tys, last)?;
    text.push_str(" => ")?;
    push_type(alloc, text, &tys[last])
}

#[cycle(show_type)]
fn push_class(alloc: Global, text: &mut Text, path: &[SymStep], args: &[Ty]) -> Result<(), NoMemory>
    ensures { OnOk result (text.new ≡ text.old ++ (types.class_shown path.now (map types.shown args.now)).text) }
{
    if is_function(path, args.len()) {
        return push_function(alloc, text, args);
    }
    if is_tuple(path, args.len()) {
        text.push_str("(")?;
        push_types(alloc, text, args, args.len())?;
        return text.push_str(")");
    }
    push_path(alloc, text, path)?;
    if args.is_empty() {
        return Ok(());
    }
    text.push_str("[")?;
    push_types(alloc, text, args, args.len())?;
    text.push_str("]")
}

#[cycle(show_type)]
fn push_type(alloc: Global, text: &mut Text, ty: &Ty) -> Result<(), NoMemory>
    ensures { OnOk result (text.new ≡ text.old ++ types.type_text ty.now) }
{
    match ty {
        Ty::Class(path, args) => push_class(alloc, text, path.steps.as_slice(), args.as_slice()),
        Ty::Param(path) => push_param(text, path),
        Ty::Module(path) => {
            push_path(alloc, text, path.steps.as_slice())?;
            text.push_str(".type")
        }
        Ty::Package(path) => {
            text.push_str("package ")?;
            push_path(alloc, text, path.steps.as_slice())
        }
        Ty::Method(formals, gives) => {
            text.push_str("(")?;
            push_formals(alloc, text, formals.as_slice())?;
            text.push_str(")")?;
            push_type(alloc, text, gives.get())
        }
        Ty::Poly(params, rest) => {
            text.push_str("[")?;
            push_params(text, params.as_slice())?;
            text.push_str("]")?;
            push_type(alloc, text, rest.get())
        }
        Ty::Error => text.push_str("<error>"),
    }
}
