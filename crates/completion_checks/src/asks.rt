ghost use Rattle.std.specs.Prelude.{◌≡◌, [], length, IfOk};
ghost use Rattle.lazy_completion.specs.Memo.{locked};
ghost use Rattle.lazy_completion.specs.Completion.{IsOf};
ghost use Rattle.completion_checks.specs.Graph.{nodes, typing};

use crate::Graph;
use lazy_completion::{Memo, complete};
use pc_terms::{Item, ItemValue, NoMemory, Text};

/// What a memo has for a node.
#[derive(Clone, Copy, Debug, PartialEq, Eq)]
pub enum NodeState {
    Nothing,
    Value,
    Cyclic,
}

/// A memo without values.
#[tactic(auto, using(crate::proofs::Nodes::empty_right))]
pub fn new_memo(graph: &Graph) -> Result<Memo, NoMemory>
    ensures unlocked { IfOk result (λ memo. locked memo ≡ []) }
    ensures right { IfOk result
        (λ memo. IsOf (nodes (length graph.now.needs.items)) (typing graph.now.needs.items) memo) }
{
    Memo::new(graph.alloc)
}

/// Completes nodes in this order.
pub fn ask_all(graph: &Graph, memo: &mut Memo, order: &[u32]) -> Result<(), NoMemory>
    requires unlocked { locked memo.old ≡ [] }
    requires right { IsOf (nodes (length graph.now.needs.items)) (typing graph.now.needs.items) memo.old }
    ensures unlocked { locked memo.new ≡ [] }
    ensures right { IsOf (nodes (length graph.now.needs.items)) (typing graph.now.needs.items) memo.new }
{
    for node in order {
        ask(graph, memo, *node)?;
    }
    Ok(())
}

/// Completes a node that has no value yet. What is no node is passed over.
pub fn ask(graph: &Graph, memo: &mut Memo, node: u32) -> Result<(), NoMemory>
    requires unlocked { locked memo.old ≡ [] }
    requires right { IsOf (nodes (length graph.now.needs.items)) (typing graph.now.needs.items) memo.old }
    ensures unlocked { locked memo.new ≡ [] }
    ensures right { IsOf (nodes (length graph.now.needs.items)) (typing graph.now.needs.items) memo.new }
{
    if node as usize >= graph.needs.len() {
        return Ok(());
    }
    let item = Item::Qualifier(Text::new(graph.alloc, "")?, node);
    match memo.value(&item) {
        None => complete(item, graph, memo),
        Some(_) => Ok(()),
    }
}

/// What the memo has for a node.
pub fn value_found(graph: &Graph, memo: &Memo, node: u32) -> Result<NodeState, NoMemory> {
    let item = Item::Qualifier(Text::new(graph.alloc, "")?, node);
    Ok(match memo.value(&item) {
        None => NodeState::Nothing,
        Some(ItemValue::Cyclic) => NodeState::Cyclic,
        Some(_value) => NodeState::Value,
    })
}
