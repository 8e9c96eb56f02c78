//! The order in which definitions are listed.

ghost use Rattle.std.specs.Prelude.{◌≡◌, ◌≤◌, length, IsPermutation, IsSorted};
ghost use Rattle.symbol_table.specs.Found as numbered;
ghost use Rattle.symbol_table.specs.Groups.{part};
ghost use Rattle.symbol_table.specs.Order as spec;

use crate::Decl;
use crate::definitions::Found;
use crate::groups::Group;
use crate::kinds::space_of;
use crate::name_spaces::NameSpace;
use pc_terms::SymStep;
use std::cmp::Ordering;

// Where the definitions of a space stand among those of one name.
fn space_rank(space: NameSpace) -> u8
    ensures { result ≡ spec.space_rank space }
{
    match space {
        NameSpace::Packages => 0,
        NameSpace::Terms => 1,
        NameSpace::Types => 2,
    }
}

// By the bytes of the names, terms before types, then by ordinal.
fn compare_steps(a: &SymStep, b: &SymStep) -> Ordering
    ensures { result ≡ spec.step_cmp a.now b.now }
{
    match a.name.as_str().cmp(b.name.as_str()) {
        Ordering::Equal => match space_rank(space_of(a.kind)).cmp(&space_rank(space_of(b.kind))) {
            Ordering::Equal => a.ordinal.cmp(&b.ordinal),
            order => order,
        },
        order => order,
    }
}

fn compare_decls(a: &Decl, b: &Decl) -> Ordering
    ensures { result ≡ spec.decl_cmp a.now b.now }
{
    let a = a.path.steps.as_slice().last();
    let b = b.path.steps.as_slice().last();
    match (a, b) {
        (Some(a), Some(b)) => compare_steps(a, b),
        (Some(_), None) => Ordering::Greater,
        (None, Some(_)) => Ordering::Less,
        (None, None) => Ordering::Equal,
    }
}

// The root comes before all others.
fn owner_rank(owner: Option<u32>) -> u64
    ensures { result ≡ numbered.owner_rank owner }
{
    match owner {
        Some(number) => u64::from(number) + 1,
        None => 0,
    }
}

// What one owner owns stands together, each in its order.
fn compare(a: &Found, b: &Found) -> Ordering
    ensures { result ≡ spec.found_cmp a.now b.now }
{
    match owner_rank(a.owner).cmp(&owner_rank(b.owner)) {
        Ordering::Equal => compare_decls(&a.decl, &b.decl),
        order => order,
    }
}

/// Puts the definitions in their order: owner by owner, and what one owner owns by name, space and ordinal. It takes no
/// memory.
pub fn put_in_order(found: &mut Vec<Found>)
    ensures permutation { IsPermutation found.old.items found.new.items }
    ensures sorted { IsSorted spec.found_cmp found.new.items }
{
    found.sort_unstable_by(|a, b| compare(a, b));
}

// How many of the definitions, which are in order, have an owner below this rank.
fn owned_below(found: &[Found], rank: u64) -> usize
    requires { IsSorted spec.found_cmp found.now }
    ensures within { result ≤ length found.now }
    ensures below { spec.IsOwnedBelow found.now rank result }
{
    found.partition_point(|each| owner_rank(each.owner) < rank)
}

/// The positions of what an owner owns among the definitions, which are in order. It takes no memory.
pub fn group_of(found: &[Found], owner: Option<u32>) -> Group
    requires { IsSorted spec.found_cmp found.now }
    ensures { part found.now result ≡ spec.owned_by found.now owner }
{
    let rank = owner_rank(owner);
    Group {
        start: owned_below(found, rank),
        end: owned_below(found, rank + 1),
    }
}
