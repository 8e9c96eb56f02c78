//! The values of some items.

use crate::words::{Word, symbol, type_of, type_param};
use indexmap::IndexMap;
use pc_terms::{
    Infos, Item, ItemValue, NoMemory, Row, Sig, SymKind, SymPath, TParam, Ty, show_path,
};
use std::alloc::Global;

/// A class, trait or object, its type parameters, and its parents.
#[derive(Clone, Copy)]
pub(crate) struct Class {
    pub kind: SymKind,
    pub name: &'static str,
    pub params: &'static [&'static str],
    pub parents: &'static [&'static [Word]],
}

/// A type parameter of a class, and its upper bound.
#[derive(Clone, Copy)]
pub(crate) struct Bound {
    pub class: &'static str,
    pub name: &'static str,
    pub upper: &'static [Word],
}

/// The values of items by their items.
#[derive(Drop)]
pub(crate) struct Known {
    values: IndexMap<Item, ItemValue>,
}

impl Infos for Known {
    ghost use Rattle.class_checks.specs.Items.{item_eq};
    ghost use Rattle.indexmap.specs.IndexMap.{get};

    ghost known = { λ known k. get item_eq known.values k };

    fn value(&self, item: &Item) -> Option<&ItemValue> {
        self.values.get(item)
    }
}

fn parents(alloc: Global, class: &Class) -> Result<ItemValue, NoMemory> {
    let mut types = Row::new(alloc);
    for words in class.parents {
        types.push(type_of(alloc, words)?)?;
    }
    Ok(ItemValue::Parents(types))
}

fn plain(alloc: Global, name: &str) -> Result<Ty, NoMemory> {
    Ok(Ty::Class(symbol(alloc, SymKind::Class, name)?, Row::new(alloc)))
}

fn parameter(alloc: Global, class: &str, name: &str, upper: Ty) -> Result<TParam, NoMemory> {
    Ok(TParam {
        path: type_param(alloc, class, name)?,
        variance: 0,
        lower: plain(alloc, "Nothing")?,
        upper,
    })
}

fn signature(alloc: Global, class: &Class) -> Result<ItemValue, NoMemory> {
    let mut tparams = Row::new(alloc);
    for name in class.params {
        tparams.push(parameter(alloc, class.name, name, plain(alloc, "Any")?)?)?;
    }
    let ty = plain(alloc, class.name)?;
    Ok(ItemValue::Signature(Sig { tparams, ty }))
}

fn bound_signature(alloc: Global, bound: &Bound) -> Result<ItemValue, NoMemory> {
    let mut tparams = Row::new(alloc);
    let upper = type_of(alloc, bound.upper)?;
    tparams.push(parameter(alloc, bound.class, bound.name, upper)?)?;
    let ty = Ty::Param(type_param(alloc, bound.class, bound.name)?);
    Ok(ItemValue::Signature(Sig { tparams, ty }))
}

impl Known {
    pub fn new(alloc: Global) -> Known {
        Known {
            values: IndexMap::new(alloc),
        }
    }

    /// Adds the parents of a class.
    pub fn add_parents(&mut self, alloc: Global, class: &Class) -> Result<(), NoMemory> {
        let item = Item::Parents(symbol(alloc, class.kind, class.name)?);
        let value = parents(alloc, class)?;
        let _old = self.values.insert(item, value)?;
        Ok(())
    }

    /// Adds the signature of a class.
    pub fn add_signature(&mut self, alloc: Global, class: &Class) -> Result<(), NoMemory> {
        let item = Item::Signature(symbol(alloc, class.kind, class.name)?);
        let value = signature(alloc, class)?;
        let _old = self.values.insert(item, value)?;
        Ok(())
    }

    /// Adds the signature of a type parameter.
    pub fn add_bound(&mut self, alloc: Global, bound: &Bound) -> Result<(), NoMemory> {
        let item = Item::Signature(type_param(alloc, bound.class, bound.name)?);
        let value = bound_signature(alloc, bound)?;
        let _old = self.values.insert(item, value)?;
        Ok(())
    }

    /// Adds the signature of a definition without type parameters.
    pub fn add_type(&mut self, alloc: Global, path: SymPath, ty: Ty) -> Result<(), NoMemory> {
        let tparams = Row::new(alloc);
        let value = ItemValue::Signature(Sig { tparams, ty });
        let _old = self.values.insert(Item::Signature(path), value)?;
        Ok(())
    }

    /// Makes the parents of a class cyclic.
    pub fn add_cyclic(&mut self, alloc: Global, name: &str) -> Result<(), NoMemory> {
        let item = Item::Parents(symbol(alloc, SymKind::Class, name)?);
        let _old = self.values.insert(item, ItemValue::Cyclic)?;
        Ok(())
    }
}

/// The item, as a text behind a word.
pub(crate) fn item_text(alloc: Global, word: &str, item: &Item) -> Result<String, NoMemory> {
    let (kind, path) = match item {
        Item::Parents(path) => ("parents", path),
        Item::Signature(path) => ("signature", path),
        Item::Qualifier(_, _) => return Ok(String::from_str(alloc, "an import")?),
    };
    let path = show_path(alloc, path)?;
    let path = path.as_str();
    Ok(format!(in alloc; "{word} {kind} {path}")?)
}
