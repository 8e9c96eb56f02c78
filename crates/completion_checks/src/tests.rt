use crate::{Graph, NodeState, ask, ask_all, new_memo, value_found};
use lazy_completion::Memo;
use pc_terms::NoMemory;
use std::alloc::{AllocError, Global};
use std::process::Abort;
use std::test::Fail;

/// What names this number needs nothing.
const NO_NODE: u32 = u32::MAX;

const MANY: u32 = 10_000;

#[derive(Clone, Copy, Debug)]
enum Order {
    FirstToLast,
    LastToFirst,
    FromTheMiddle,
}

/// All nodes in an order.
fn in_order(alloc: Global, order: Order, nodes: u32) -> Result<Vec<u32>, AllocError> {
    let middle = nodes / 2;
    let mut ordered = Vec::new(alloc);
    for i in 0..nodes {
        ordered.push(match order {
            Order::FirstToLast => i,
            Order::LastToFirst => nodes - 1 - i,
            Order::FromTheMiddle if i < nodes - middle => middle + i,
            Order::FromTheMiddle => i - (nodes - middle),
        })?;
    }
    Ok(ordered)
}

/// What plain rounds over the whole list find for each node: in each, the nodes whose need has a value get theirs.
fn by_rounds(alloc: Global, needs: &[u32]) -> Result<Vec<NodeState>, AllocError> {
    let mut known = vec![in alloc; NodeState::Cyclic; needs.len()]?;
    for _ in 0..needs.len() {
        let added = added(alloc, needs, &known)?;
        if added.is_empty() {
            break;
        }
        for node in added {
            if let Some(found) = known.get_mut(node) {
                *found = NodeState::Value;
            }
        }
    }
    Ok(known)
}

/// The nodes that a round adds.
fn added(alloc: Global, needs: &[u32], known: &[NodeState]) -> Result<Vec<usize>, AllocError> {
    let mut added = Vec::new(alloc);
    for (node, other) in needs.iter().enumerate() {
        let waits = matches!(known.get(*other as usize), Some(NodeState::Cyclic));
        if !waits && matches!(known.get(node), Some(NodeState::Cyclic)) {
            added.push(node)?;
        }
    }
    Ok(added)
}

/// What completions in an order find for these nodes.
fn by_asking(graph: &Graph, order: &[u32], nodes: &[u32]) -> Result<Vec<NodeState>, NoMemory> {
    let mut memo = new_memo(graph)?;
    ask_all(graph, &mut memo, order)?;
    all_found(graph, &memo, nodes)
}

fn all_found(graph: &Graph, memo: &Memo, nodes: &[u32]) -> Result<Vec<NodeState>, NoMemory> {
    let mut all = Vec::new(graph.alloc);
    for node in nodes {
        all.push(value_found(graph, memo, *node)?)?;
    }
    Ok(all)
}

/// In each order of asking, the nodes have these values.
fn agree(rt: &impl Abort, graph: &Graph, nodes: u32, want: &[NodeState]) -> Result<(), Fail> {
    let alloc = graph.alloc;
    let all = in_order(alloc, Order::FirstToLast, nodes)?;
    for order in [Order::FirstToLast, Order::LastToFirst, Order::FromTheMiddle] {
        let asked = in_order(alloc, order, nodes)?;
        let seen = by_asking(graph, &asked, &all)?;
        assert_eq!(rt; seen.as_slice(), want, "{order:?}");
    }
    Ok(())
}

/// The nodes have these values by rounds, and in each order of asking.
fn row(rt: &impl Abort, alloc: Global, needs: &[u32], want: &[NodeState]) -> Result<(), Fail> {
    let graph = Graph {
        needs: needs.to_vec(alloc)?,
        alloc,
    };
    let plain = by_rounds(alloc, needs)?;
    assert_eq!(rt; plain.as_slice(), want);
    agree(rt, &graph, u32::try_from(needs.len())?, want)
}

/// A chain: each node needs the next one, and what the last one names is no node.
fn upwards(alloc: Global) -> Result<Vec<u32>, AllocError> {
    let mut needs = Vec::new(alloc);
    for i in 0..MANY {
        needs.push(i + 1)?;
    }
    Ok(needs)
}

/// A chain: each node needs the one before it.
fn downwards(alloc: Global) -> Result<Vec<u32>, AllocError> {
    let mut needs = Vec::new(alloc);
    for i in 0..MANY {
        needs.push(if i == 0 { NO_NODE } else { i - 1 })?;
    }
    Ok(needs)
}

/// A circle of the nodes from the middle on, and a tail of those before.
fn tailed(alloc: Global) -> Result<Vec<u32>, AllocError> {
    let mut needs = Vec::new(alloc);
    for i in 0..MANY {
        needs.push(if i == MANY - 1 { MANY / 2 } else { i + 1 })?;
    }
    Ok(needs)
}

/// All of many nodes have one value.
fn all_have(rt: &impl Abort, alloc: Global, needs: &[u32], want: NodeState) -> Result<(), Fail> {
    let want = vec![in alloc; want; MANY as usize]?;
    row(rt, alloc, needs, &want)
}

#[test]
fn nodes_that_wait_for_nothing_have_values(rt: HostRuntime) -> Result<(), Fail> {
    let alloc = rt.alloc();
    row(&rt, alloc, &[NO_NODE], &[NodeState::Value])?;
    row(&rt, alloc, &[1, 2, 3, NO_NODE], &[NodeState::Value; 4])?;
    row(&rt, alloc, &[2, NO_NODE, 1, 1], &[NodeState::Value; 4])
}

#[test]
fn circles_and_their_tails_are_cyclic(rt: HostRuntime) -> Result<(), Fail> {
    let alloc = rt.alloc();
    row(&rt, alloc, &[0], &[NodeState::Cyclic])?;
    row(&rt, alloc, &[1, 2, 0], &[NodeState::Cyclic; 3])?;
    row(&rt, alloc, &[1, 2, 3, 1], &[NodeState::Cyclic; 4])?;
    row(&rt, alloc, &[2, 0, 0, 2], &[NodeState::Cyclic; 4])
}

#[test]
fn what_stands_beside_a_circle_has_values(rt: HostRuntime) -> Result<(), Fail> {
    row(
        &rt,
        rt.alloc(),
        &[1, 0, 0, 4, NO_NODE, 5],
        &[
            NodeState::Cyclic,
            NodeState::Cyclic,
            NodeState::Cyclic,
            NodeState::Value,
            NodeState::Value,
            NodeState::Cyclic,
        ],
    )
}

#[test]
fn a_long_chain_upwards(rt: HostRuntime) -> Result<(), Fail> {
    let alloc = rt.alloc();
    all_have(&rt, alloc, &upwards(alloc)?, NodeState::Value)
}

#[test]
fn a_long_chain_downwards(rt: HostRuntime) -> Result<(), Fail> {
    let alloc = rt.alloc();
    all_have(&rt, alloc, &downwards(alloc)?, NodeState::Value)
}

#[test]
fn a_long_circle_with_a_long_tail(rt: HostRuntime) -> Result<(), Fail> {
    let alloc = rt.alloc();
    all_have(&rt, alloc, &tailed(alloc)?, NodeState::Cyclic)
}

// One ask completes what the node needs and no more, and leaves nothing locked.
#[test]
fn an_ask_completes_what_is_needed(rt: HostRuntime) -> Result<(), Fail> {
    let alloc = rt.alloc();
    let graph = Graph {
        needs: [1, 2, NO_NODE, 4, 3].to_vec(alloc)?,
        alloc,
    };
    let mut memo = new_memo(&graph)?;
    ask(&graph, &mut memo, 1)?;
    ask(&graph, &mut memo, 4)?;
    assert_eq!(rt; memo.locked(), 0);
    let seen = all_found(&graph, &memo, &[0, 1, 2, 3, 4])?;
    let want = [
        NodeState::Nothing,
        NodeState::Value,
        NodeState::Value,
        NodeState::Cyclic,
        NodeState::Cyclic,
    ];
    assert_eq!(rt; seen.as_slice(), want.as_slice());
    Ok(())
}
