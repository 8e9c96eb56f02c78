ghost use Rattle.std.specs.Prelude.{◌≡◌, ◌<◌, ◌++◌, [], ◌∷◌, List, Some, None, true, length, IfOk, OnOk, OnErr};
ghost use Rattle.item_questions.specs.Rounds.{is_item};
ghost use Rattle.pc_terms.specs.declared.items.Item.{Item};
ghost use Rattle.pc_terms.specs.declared.items.ItemValue.{ItemValue};
ghost use Rattle.lazy_completion.specs.Fitting.{item_eq};
ghost use Rattle.lazy_completion.specs.Memo.{value, locked, is_locked};
ghost use Rattle.lazy_completion.specs.Typing.{Asking, owned, infos, asked, answer, final_info};
ghost use Rattle.lazy_completion.specs.Completion.{IsOf, IsUnderWay, Keeps, StaysOrHas, distance, total};

use crate::memo::{Locked, Memo};
use pc_terms::{Asked, Item, ItemValue, NoMemory};

/// Types the items of a list, each by a question that may need other items.
pub trait TypesItems {
    /// The items that can be typed.
    ghost items: { Self → List Item };

    /// The question of each item.
    ghost typing: { Self → Item → Asking ItemValue };

    /// What the item's question comes to, under the values of the memo. An item outside the list counts as cyclic there.
    fn type_item(&self, item: &Item, memo: &Memo) -> Result<Asked<ItemValue>, NoMemory>
        requires { is_item item_eq (items self.now) item.now ≡ true }
        ensures { IfOk result (λ found. found ≡ asked (answer (items self.now) (typing self.now) (value memo.now) item.now)) };
}

/// Gives an item its value, with all the items that it needs. After it nothing is locked; where memory fails, the values
/// that were given stand.
pub fn complete<T: TypesItems>(item: Item, typer: &T, memo: &mut Memo) -> Result<(), NoMemory>
    requires listed { is_item item_eq (T.items typer.now) item ≡ true }
    requires fresh { value memo.old item ≡ None }
    requires unlocked { locked memo.old ≡ [] }
    requires right { IsOf (T.items typer.now) (T.typing typer.now) memo.old }
    ensures done { OnOk result (infos (value memo.new) item ≡ Some (final_info (T.items typer.now) (T.typing typer.now) item)) }
    ensures right { IsOf (T.items typer.now) (T.typing typer.now) memo.new }
    ensures kept { Keeps memo.old memo.new }
    ensures unlocked { locked memo.new ≡ [] }
{
    match settle_from(item, typer, memo) {
        Ok(()) => Ok(()),
        Err(refused) => {
            memo.unlock_all();
            Err(refused)
        }
    }
}

/// As `complete`, but where memory fails, items may stay locked.
fn settle_from<T: TypesItems>(item: Item, typer: &T, memo: &mut Memo) -> Result<(), NoMemory>
    requires listed { is_item item_eq (T.items typer.now) item ≡ true }
    requires fresh { value memo.old item ≡ None }
    requires unlocked { locked memo.old ≡ [] }
    requires right { IsOf (T.items typer.now) (T.typing typer.now) memo.old }
    ensures done { OnOk result (infos (value memo.new) item ≡ Some (final_info (T.items typer.now) (T.typing typer.now) item)) }
    ensures unlocked { OnOk result (locked memo.new ≡ []) }
    ensures right { IsOf (T.items typer.now) (T.typing typer.now) memo.new }
    ensures kept { Keeps memo.old memo.new }
{
    memo.lock(item)?;
    while memo.locked() > 0 {
        settle_some(typer, memo)?;
    }
    Ok(())
}

/// Types the last locked item, and settles or locks by what it comes to.
fn settle_some<T: TypesItems>(typer: &T, memo: &mut Memo) -> Result<(), NoMemory>
    requires under_way { IsUnderWay (T.items typer.now) (T.typing typer.now) memo.old }
    requires locked { 0 < length (locked memo.old) }
    ensures under_way { OnOk result (IsUnderWay (T.items typer.now) (T.typing typer.now) memo.new) }
    ensures nearer { OnOk result (total (distance memo.new) (T.items typer.now) < total (distance memo.old) (T.items typer.now)) }
    ensures stays { OnOk result (StaysOrHas memo.old memo.new) }
    ensures right { IsOf (T.items typer.now) (T.typing typer.now) memo.new }
    ensures kept { Keeps memo.old memo.new }
{
    match type_last(typer, memo)? {
        Asked::Known(value) => memo.settle(value),
        Asked::Needs(item) => match memo.lock(item)? {
            Locked::Fresh => {}
            Locked::Again => memo.settle_cyclic(),
        },
        Asked::Cyclic(_item) => memo.settle_cyclic(),
    }
    Ok(())
}

/// What the last locked item comes to.
fn type_last<T: TypesItems>(typer: &T, memo: &Memo) -> Result<Asked<ItemValue>, NoMemory>
    requires under_way { IsUnderWay (T.items typer.now) (T.typing typer.now) memo.now }
    requires locked { 0 < length (locked memo.now) }
    ensures { IfOk result (λ found. (others : List Item) (last : Item) → locked memo.now ≡ others ++ last ∷ []
        → found ≡ asked (answer (T.items typer.now) (T.typing typer.now) (value memo.now) last)) }
{
    match memo.last_locked() {
        Some(item) => typer.type_item(item, memo),
        None => unreachable!(),
    }
}
