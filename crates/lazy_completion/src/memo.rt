ghost use Rattle.std.specs.Prelude.{◌≡◌, ◌<◌, ◌≤◌, [], ◌∷◌, ◌++◌, None, Some, true, length, option_copied, slice_get, ◌-◌, IfOk, OnOk, OnErr, IfSome, if◌then◌else◌};
ghost use Rattle.indexmap.specs.IndexMap.{get, spare};
ghost use Rattle.indexmap.specs.IndexSet.{contains, insert_key};
ghost use Rattle.pc_terms.specs.declared.items.Item.{Item};
ghost use Rattle.pc_terms.specs.declared.items.ItemValue.{ItemValue};
ghost use Rattle.lazy_completion.specs.Fitting.{item_eq, fits, FitsLast};

use indexmap::{IndexMap, IndexSet};
use pc_terms::{Infos, Item, ItemValue, NoMemory};
use std::alloc::Global;

/// What `lock` found.
#[derive(Clone, Copy, Debug, PartialEq, Eq)]
pub enum Locked {
    /// The item was not locked, and is now.
    Fresh,
    /// The item is locked already.
    Again,
}

/// The values of items, and a stack of the items that are being typed. A locked item has no value.
#[derive(Drop)]
pub struct Memo {
    values: IndexMap<Item, ItemValue>,
    locked: IndexSet<Item>,
    ghost apart: { (k : Item) → contains item_eq locked k ≡ true → get item_eq values k ≡ None },
    ghost room: { length locked.keys ≤ spare values },
    ghost fitting: { (k : Item) (v : ItemValue) → get item_eq values k ≡ Some v → fits k v ≡ true },
}

impl Memo {
    ghost use Rattle.lazy_completion.specs.Memo.{value, locked, is_locked, Settles, SettlesCyclic};
    ghost use Rattle.lazy_completion.specs.declared.memo.Locked.TheVariants.{Fresh, Again};

    /// No values, and nothing locked.
    pub fn new(alloc: Global) -> Result<Memo, NoMemory>
        ensures values { IfOk result (λ memo. (k : Item) → value memo k ≡ None) }
        ensures locked { IfOk result (λ memo. locked memo ≡ []) }
    {
        Ok(Memo {
            values: IndexMap::new(alloc),
            locked: IndexSet::new(alloc),
        })
    }

    /// The value of an item, if it has one. It takes no memory.
    pub fn value(&self, item: &Item) -> Option<&ItemValue>
        ensures value { option_copied result ≡ value self.now item.now }
        ensures fits { IfSome result (λ v. fits item.now v.now ≡ true) }
    {
        self.values.get(item)
    }

    /// How many items are locked. It takes no memory.
    pub fn locked(&self) -> usize
        ensures { result ≡ length (locked self.now) }
    {
        self.locked.len()
    }

    /// The item that was locked last.
    pub fn last_locked(&self) -> Option<&Item>
        ensures { option_copied result ≡ slice_get (locked self.now) (length (locked self.now) - 1) }
    {
        self.locked.last()
    }

    /// Locks an item that has no value, and makes room for its value. Where it is locked already, or memory fails, nothing
    /// changes.
    pub fn lock(&mut self, item: Item) -> Result<Locked, NoMemory>
        requires { value self.old item ≡ None }
        ensures found { IfOk result (λ found. found ≡ (if is_locked self.old item then Again else Fresh)) }
        ensures locked { OnOk result (locked self.new ≡ insert_key item_eq (locked self.old) item) }
        ensures err { OnErr result (locked self.new ≡ locked self.old) }
        ensures values { (k : Item) → value self.new k ≡ value self.old k }
    {
        if self.locked.contains(&item) {
            return Ok(Locked::Again);
        }
        self.values.reserve(self.locked.len() + 1)?;
        self.locked.insert(item)?;
        Ok(Locked::Fresh)
    }

    /// Gives the last locked item its value, and unlocks it. It takes no memory.
    pub fn settle(&mut self, value: ItemValue)
        requires locked { 0 < length (locked self.old) }
        requires fits { FitsLast (locked self.old) value }
        ensures { Settles self.old self.new value }
    {
        match self.locked.pop() {
            Some(item) => match self.values.insert(item, value) {
                Ok(_) => {}
                Err(_) => unreachable!(),
            },
            None => unreachable!(),
        }
    }

    /// Gives `Cyclic` to every locked item, and unlocks all. It takes no memory.
    pub fn settle_cyclic(&mut self)
        ensures { SettlesCyclic self.old self.new }
    {
        while self.locked() > 0 {
            self.settle(ItemValue::Cyclic);
        }
    }

    /// Unlocks all, and leaves every value. It takes no memory.
    pub fn unlock_all(&mut self)
        ensures locked { locked self.new ≡ [] }
        ensures values { (k : Item) → value self.new k ≡ value self.old k }
    {
        self.locked.clear();
    }
}

impl Infos for Memo {
    ghost use Rattle.lazy_completion.specs.Memo.{value};

    ghost known = { value };

    fn value(&self, item: &Item) -> Option<&ItemValue> {
        Memo::value(self, item)
    }
}
