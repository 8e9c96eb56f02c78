ghost use Rattle.std.specs.Prelude.{◌≡◌, length, IfOk};
ghost use Rattle.item_questions.specs.Rounds.{is_item};
ghost use Rattle.pc_terms.specs.declared.items.Item.{Item};
ghost use Rattle.pc_terms.specs.declared.items.ItemValue.{ItemValue};
ghost use Rattle.lazy_completion.specs.Fitting.{item_eq, is_cyclic};

use lazy_completion::{Memo, TypesItems};
use pc_terms::{Asked, Item, ItemValue, NoMemory, Text};
use std::alloc::Global;

/// A graph in which each node needs one other node, or none where what it names is no node.
#[derive(Drop)]
pub struct Graph {
    pub needs: Vec<u32>,
    pub alloc: Global,
}

impl Graph {
    ghost use Rattle.completion_checks.specs.Graph.{need};

    /// The node that a node needs.
    fn need(&self, node: u32) -> Option<u32>
        ensures { result ≡ need self.now.needs.items node }
    {
        match self.needs.get(node as usize) {
            Some(other) if (*other as usize) < self.needs.len() => Some(*other),
            _ => None,
        }
    }
}

impl TypesItems for Graph {
    ghost use Rattle.completion_checks.specs.Graph.{nodes, typing};

    ghost items = { λ graph. nodes (length graph.needs.items) };

    ghost typing = { λ graph. typing graph.needs.items };

    fn type_item(&self, item: &Item, memo: &Memo) -> Result<Asked<ItemValue>, NoMemory> {
        let Item::Qualifier(_, node) = item else {
            unreachable!()
        };
        let Some(other) = self.need(*node) else {
            return Ok(Asked::Known(ItemValue::Qualifier(None)));
        };
        let needed = Item::Qualifier(Text::new(self.alloc, "")?, other);
        match memo.value(&needed) {
            None => Ok(Asked::Needs(needed)),
            Some(value) if is_cyclic(value) => Ok(Asked::Cyclic(needed)),
            Some(_) => Ok(Asked::Known(ItemValue::Qualifier(None))),
        }
    }
}

fn is_cyclic(value: &ItemValue) -> bool
    ensures { result ≡ is_cyclic value.now }
{
    matches!(value, ItemValue::Cyclic)
}
