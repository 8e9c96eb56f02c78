//! Rows of members: a type, what is defined and known, and the members as text.

use crate::definitions::{Definitions, Owner, add_types};
use crate::known::{Bound, Class, Known, item_text};
use crate::words::{Word, type_of};
use pc_terms::{Asked, NoMemory, show, show_path};
use std::alloc::Global;
use std::process::Abort;
use std::test::Fail;
use type_members::{Member, members_of};

/// A type, what is defined, what is known, and the members of the type.
pub struct Case {
    pub ty: &'static [Word],
    pub parents: &'static [Class],
    pub signatures: &'static [Class],
    pub bounds: &'static [Bound],
    pub owners: &'static [Owner],
    /// Of these the signatures are known.
    pub typed: &'static [Owner],
    pub answer: &'static str,
}

fn known(alloc: Global, case: &Case) -> Result<Known, NoMemory> {
    let mut known = Known::new(alloc);
    for class in case.parents {
        known.add_parents(alloc, class)?;
    }
    for class in case.signatures {
        known.add_signature(alloc, class)?;
    }
    for bound in case.bounds {
        known.add_bound(alloc, bound)?;
    }
    for owner in case.typed {
        add_types(alloc, &mut known, owner)?;
    }
    Ok(known)
}

fn definitions(alloc: Global, owners: &[Owner]) -> Result<Definitions, NoMemory> {
    let mut definitions = Definitions::new(alloc);
    for owner in owners {
        definitions.add(alloc, owner)?;
    }
    Ok(definitions)
}

fn push_member(alloc: Global, text: &mut String, member: &Member) -> Result<(), NoMemory> {
    let path = show_path(alloc, &member.path)?;
    let ty = show(alloc, &member.ty)?;
    if !text.is_empty() {
        text.push_str(", ")?;
    }
    text.push_str(path.as_str())?;
    text.push_str(": ")?;
    text.push_str(ty.as_str())?;
    Ok(())
}

fn listed(alloc: Global, members: &[Member]) -> Result<String, NoMemory> {
    let mut text = String::new(alloc);
    for member in members {
        push_member(alloc, &mut text, member)?;
    }
    Ok(text)
}

fn found(
    alloc: Global,
    known: &Known,
    definitions: &Definitions,
    words: &[Word],
) -> Result<String, NoMemory> {
    let ty = type_of(alloc, words)?;
    match members_of(alloc, &ty, definitions, known)? {
        Asked::Known(members) => listed(alloc, members.as_slice()),
        Asked::Needs(item) => item_text(alloc, "needs", &item),
        Asked::Cyclic(item) => item_text(alloc, "cyclic", &item),
    }
}

fn answer(alloc: Global, case: &Case) -> Result<String, NoMemory> {
    let known = known(alloc, case)?;
    let definitions = definitions(alloc, case.owners)?;
    found(alloc, &known, &definitions, case.ty)
}

/// Each type has the members of its row.
pub fn agree(rt: &(impl Abort + AllocGlobal), cases: &[Case]) -> Result<(), Fail> {
    for case in cases {
        let text = answer(rt.alloc(), case)?;
        assert_eq!(rt; text.as_str(), case.answer);
    }
    Ok(())
}
