use crate::shapes::Shape;
use completion_checks::{Graph, NodeState, ask_all, new_memo, value_found};
use lazy_completion::Memo;
use pc_terms::NoMemory;
use std::alloc::Global;
use std::io;

/// What the nodes came to.
#[derive(Clone, Copy, Debug, Default)]
pub struct Counts {
    values: u64,
    cyclic: u64,
    without: u64,
}

impl Counts {
    pub fn print(&self, rt: &impl Print) -> io::Result<()> {
        let Counts {
            values,
            cyclic,
            without,
        } = *self;
        println!(rt; "values {values}, cyclic {cyclic}, without {without}")
    }

    fn add(&mut self, found: NodeState) {
        let count = match found {
            NodeState::Value => &mut self.values,
            NodeState::Cyclic => &mut self.cyclic,
            NodeState::Nothing => &mut self.without,
        };
        *count = count.saturating_add(1);
    }
}

/// Completes all nodes of a graph so many times, and counts them after the last.
pub fn run(alloc: Global, shape: Shape, nodes: u32, times: u32) -> Result<Counts, NoMemory> {
    let order = shape.order(alloc, nodes)?;
    let graph = shape.graph(alloc, nodes)?;
    let mut counts = Counts::default();
    for _ in 0..times {
        counts = complete_all(&graph, &order)?;
    }
    Ok(counts)
}

fn complete_all(graph: &Graph, order: &[u32]) -> Result<Counts, NoMemory> {
    let mut memo = new_memo(graph)?;
    ask_all(graph, &mut memo, order)?;
    counted(graph, &memo, order)
}

fn counted(graph: &Graph, memo: &Memo, nodes: &[u32]) -> Result<Counts, NoMemory> {
    let mut counts = Counts::default();
    for node in nodes {
        counts.add(value_found(graph, memo, *node)?);
    }
    Ok(counts)
}
