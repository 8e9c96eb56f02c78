ghost use Rattle.std.specs.Prelude.{◌≡◌, Option};
ghost use Rattle.std.specs.Option.{option_copied};

use crate::{Row, Sig, SymPath, Text, Ty};

/// What a typing may ask for, and what is completed lazily: the parents of a class, trait or object; the
/// signature of one, of a member, or of a parameter or type parameter of these; and the qualifier of an
/// import expression, by its file and the byte at which the expression starts.
#[derive(Debug, Drop, PartialEq, Eq, Hash)]
pub enum Item {
    Parents(SymPath),
    Signature(SymPath),
    Qualifier(Text, u32),
}

/// The value of an item. `Cyclic` is that of one which cannot be found without itself.
#[derive(Debug, Drop)]
pub enum ItemValue {
    Parents(Row<Ty>),
    Signature(Sig),
    /// `None` where the import binds nothing.
    Qualifier(Option<SymPath>),
    Cyclic,
}

/// An answer that may need an item first.
#[derive(Debug, Drop)]
pub enum Asked<T> {
    Known(T),
    /// The first item that was asked for and has no value.
    Needs(Item),
    /// The first item that was asked for and has no ordinary value: it is cyclic.
    Cyclic(Item),
}

/// The values of items that are known.
pub trait Infos {
    ghost use Rattle.pc_terms.specs.declared.items.Item.{Item};
    ghost use Rattle.pc_terms.specs.declared.items.ItemValue.{ItemValue};

    /// The value of each item that has one.
    ghost known: { Self → Item → Option ItemValue };

    fn value(&self, item: &Item) -> Option<&ItemValue>
        ensures { option_copied result ≡ known self.now item.now };
}
