//! Which member overrides which (SLS 5.1.4), and which of them a type has.

ghost use Rattle.std.specs.Prelude.{◌≡◌, ◌++◌, ◌∷◌, [], map, not, filter, fold, IfOk, OnOk};
ghost use Rattle.std.specs.List.{list_any};
ghost use Rattle.pc_terms.specs.declared.types.Ty.{Param};
ghost use Rattle.type_members.specs.Members as spec;

use crate::Member;
use crate::offers::is_abstract;
use crate::parameters::{have_same_lists, params_of};
use crate::spaces::{is_same_space, kind_of, name_of, space_of};
use base_types::Owned;
use pc_terms::{NoMemory, Row, SymPath, Ty};
use std::alloc::Global;
use type_substitution::{copy_path, subst};

/// Copies of these.
pub fn copies(alloc: Global, paths: &[SymPath]) -> Result<Row<SymPath>, NoMemory>
    ensures { IfOk result (λ copies. copies ≡ paths.now) }
{
    let mut copies = Row::new(alloc);
    for path in paths {
        copies.push(copy_path(alloc, path)?)?;
    }
    Ok(copies)
}

fn as_types(alloc: Global, paths: &[SymPath]) -> Result<Row<Ty>, NoMemory>
    ensures { IfOk result (λ types. types ≡ map Param paths.now) }
{
    let mut types = Row::new(alloc);
    for path in paths {
        types.push(Ty::Param(copy_path(alloc, path)?))?;
    }
    Ok(types)
}

// Whether two types have equal parameters, where the type parameters of the one stand for those of the other.
fn have_same_parameters(alloc: Global, a: &Ty, b: &Ty) -> Result<bool, NoMemory>
    ensures { IfOk result (λ same. same ≡ spec.have_same_parameters a.now b.now) }
{
    let own = params_of(a);
    let others = params_of(b);
    if own.len() != others.len() {
        return Ok(false);
    }
    let params = copies(alloc, own)?;
    let args = as_types(alloc, others)?;
    let renamed = subst(alloc, a, &params, &args)?;
    have_same_lists(alloc, &renamed, b)
}

fn are_called_the_same(a: &SymPath, b: &SymPath) -> bool
    ensures { result ≡ spec.are_called_the_same a.now b.now }
{
    name_of(a) == name_of(b) && is_same_space(space_of(kind_of(a)), space_of(kind_of(b)))
}

/// Whether the first member, which is of a class before that of the second, overrides it.
fn overrides(alloc: Global, earlier: &Member, later: &Member) -> Result<bool, NoMemory>
    ensures { IfOk result (λ so. so ≡ spec.overrides earlier.now later.now) }
{
    if earlier.owner != later.owner && are_called_the_same(&earlier.path, &later.path) {
        have_same_parameters(alloc, &earlier.ty, &later.ty)
    } else {
        Ok(false)
    }
}

// What is abstract does not hide what is not.
fn gives_way<W: Owned>(table: &W, earlier: &Member, later: &Member) -> bool
    ensures { result ≡ spec.gives_way (spec.declared (W.owned_by table.now) (W.flags_of table.now)) earlier.now later.now }
{
    is_abstract(table, &earlier.path) && !is_abstract(table, &later.path)
}

fn is_hidden<W: Owned>(
    alloc: Global,
    table: &W,
    kept: &[Member],
    later: &Member,
) -> Result<bool, NoMemory>
    ensures { IfOk result (λ hidden. hidden ≡ list_any (spec.is_hidden_by (spec.declared (W.owned_by table.now) (W.flags_of table.now)) later.now) kept.now) }
{
    for earlier in kept {
        if overrides(alloc, earlier, later)? && !gives_way(table, earlier, later) {
            return Ok(true);
        }
    }
    Ok(false)
}

// Those that do not override the later one.
fn without_overriding(
    alloc: Global,
    kept: Row<Member>,
    later: &Member,
) -> Result<Row<Member>, NoMemory>
    ensures { IfOk result (λ left. left ≡ filter (λ earlier. not (spec.overrides earlier later.now)) kept) }
{
    let mut left = Row::new(alloc);
    for earlier in kept.into_vec() {
        if !overrides(alloc, &earlier, later)? {
            left.push(earlier)?;
        }
    }
    Ok(left)
}

/// The members so far, with a later one.
fn with_member<W: Owned>(
    alloc: Global,
    table: &W,
    kept: Row<Member>,
    later: Member,
) -> Result<Row<Member>, NoMemory>
    ensures { IfOk result (λ now. now ≡ spec.with_member (spec.declared (W.owned_by table.now) (W.flags_of table.now)) kept later) }
{
    if is_hidden(alloc, table, kept.as_slice(), &later)? {
        return Ok(kept);
    }
    let mut kept = without_overriding(alloc, kept, &later)?;
    kept.push(later)?;
    Ok(kept)
}

/// Of own members and later ones those that a type has.
pub fn kept<W: Owned>(
    alloc: Global,
    table: &W,
    own: Row<Member>,
    later: Row<Member>,
) -> Result<Row<Member>, NoMemory>
    ensures { IfOk result (λ now. now ≡ spec.kept (spec.declared (W.owned_by table.now) (W.flags_of table.now)) own later) }
{
    let mut kept = own;
    for member in later.into_vec() {
        kept = with_member(alloc, table, kept, member)?;
    }
    Ok(kept)
}
