//! Equal types.
#![tactic(auto, using(crate::proofs::SameTypes::same_types))]

ghost use Rattle.std.specs.Prelude.{◌≡◌, map};
ghost use Rattle.pc_terms.specs.declared.types.Ty.TheViews.{out-Ty};
ghost use Rattle.type_members.specs.Types as spec;

use pc_terms::{Formal, SymPath, Ty};

#[cycle(same_types)]
fn are_same_types(a: &[Ty], b: &[Ty]) -> bool
    ensures { result ≡ spec.all_pass (map spec.is_same_type a.now) b.now }
{
    let mut others = b;
    for one in a {
        match others {
            [other, left @ ..] => {
                if !is_same_type(one, other) {
                    return false;
                }
                others = left;
            }
            [] => return false,
        }
    }
    others.is_empty()
}

#[cycle(same_types)]
fn is_same_formal(a: &Formal, b: &Formal) -> bool
    ensures { result ≡ spec.is_same_formal a.now b.now }
{
    is_same_type(&a.ty, &b.ty) && a.repeated == b.repeated
}

/// Whether these are parameters of the same types, in their order.
#[cycle(same_types)]
pub fn are_same_formals(a: &[Formal], b: &[Formal]) -> bool
    ensures { result ≡ spec.all_pass (map spec.is_same_formal a.now) b.now }
{
    let mut others = b;
    for one in a {
        match others {
            [other, left @ ..] => {
                if !is_same_formal(one, other) {
                    return false;
                }
                others = left;
            }
            [] => return false,
        }
    }
    others.is_empty()
}

fn is_param_type(path: &SymPath, other: &Ty) -> bool
    ensures { result ≡ spec.is_param_type path.now (out-Ty other.now) }
{
    matches!(other, Ty::Param(param) if path == param)
}

fn is_module_type(path: &SymPath, other: &Ty) -> bool
    ensures { result ≡ spec.is_module_type path.now (out-Ty other.now) }
{
    matches!(other, Ty::Module(object) if path == object)
}

fn is_package_type(path: &SymPath, other: &Ty) -> bool
    ensures { result ≡ spec.is_package_type path.now (out-Ty other.now) }
{
    matches!(other, Ty::Package(package) if path == package)
}

fn is_error_type(other: &Ty) -> bool
    ensures { result ≡ spec.is_error_type (out-Ty other.now) }
{
    matches!(other, Ty::Error)
}

#[cycle(same_types)]
fn is_class_type(path: &SymPath, args: &[Ty], other: &Ty) -> bool
    ensures { result ≡ spec.is_class_type path.now (map spec.is_same_type args.now) (out-Ty other.now) }
{
    match other {
        Ty::Class(class, others) => path == class && are_same_types(args, others.as_slice()),
        Ty::Param(_)
        | Ty::Module(_)
        | Ty::Package(_)
        | Ty::Method(_, _)
        | Ty::Poly(_, _)
        | Ty::Error => false,
    }
}

#[cycle(same_types)]
fn takes(formals: &[Formal], other: &Ty) -> bool
    ensures { result ≡ spec.takes (map spec.is_same_formal formals.now) (out-Ty other.now) }
{
    match other {
        Ty::Method(others, _) => are_same_formals(formals, others.as_slice()),
        Ty::Class(_, _)
        | Ty::Param(_)
        | Ty::Module(_)
        | Ty::Package(_)
        | Ty::Poly(_, _)
        | Ty::Error => false,
    }
}

#[cycle(same_types)]
fn returns(gives: &Ty, other: &Ty) -> bool
    ensures { result ≡ spec.returns (spec.is_same_type gives.now) (out-Ty other.now) }
{
    match other {
        Ty::Method(_, rest) => is_same_type(gives, rest.get()),
        Ty::Class(_, _)
        | Ty::Param(_)
        | Ty::Module(_)
        | Ty::Package(_)
        | Ty::Poly(_, _)
        | Ty::Error => false,
    }
}

#[cycle(same_types)]
fn is_poly_type(params: &[SymPath], ty: &Ty, other: &Ty) -> bool
    ensures { result ≡ spec.is_poly_type params.now (spec.is_same_type ty.now) (out-Ty other.now) }
{
    match other {
        Ty::Poly(others, rest) => params == others.as_slice() && is_same_type(ty, rest.get()),
        Ty::Class(_, _)
        | Ty::Param(_)
        | Ty::Module(_)
        | Ty::Package(_)
        | Ty::Method(_, _)
        | Ty::Error => false,
    }
}

/// Whether two types are equal: built in the same way of the same symbols.
#[cycle(same_types)]
pub fn is_same_type(a: &Ty, b: &Ty) -> bool
    ensures { result ≡ spec.is_same_type a.now b.now }
{
    match a {
        Ty::Class(path, args) => is_class_type(path, args.as_slice(), b),
        Ty::Param(path) => is_param_type(path, b),
        Ty::Module(path) => is_module_type(path, b),
        Ty::Package(path) => is_package_type(path, b),
        Ty::Method(formals, gives) => takes(formals.as_slice(), b) && returns(gives.get(), b),
        Ty::Poly(params, rest) => is_poly_type(params.as_slice(), rest.get(), b),
        Ty::Error => is_error_type(b),
    }
}
