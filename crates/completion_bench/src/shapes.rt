use completion_checks::Graph;
use std::alloc::{AllocError, Global};

/// What names this number needs nothing.
const NO_NODE: u32 = u32::MAX;

/// How the nodes of a graph need each other.
#[derive(Clone, Copy, Debug)]
pub enum Shape {
    Chain,
    Tree,
}

impl Shape {
    pub fn named(name: &str) -> Option<Shape> {
        match name {
            "chain" => Some(Shape::Chain),
            "tree" => Some(Shape::Tree),
            _ => None,
        }
    }

    /// A graph of this shape.
    pub fn graph(self, alloc: Global, nodes: u32) -> Result<Graph, AllocError> {
        let mut needs = Vec::new(alloc);
        for node in 0..nodes {
            needs.push(self.need(node))?;
        }
        Ok(Graph { needs, alloc })
    }

    /// All nodes, in the order in which they are asked for.
    pub fn order(self, alloc: Global, nodes: u32) -> Result<Vec<u32>, AllocError> {
        let mut order = Vec::new(alloc);
        for node in 0..nodes {
            order.push(match self {
                Shape::Chain => node,
                Shape::Tree => nodes - 1 - node,
            })?;
        }
        Ok(order)
    }

    fn need(self, node: u32) -> u32 {
        match self {
            Shape::Chain => node.saturating_add(1),
            Shape::Tree if node == 0 => NO_NODE,
            Shape::Tree => node / 2,
        }
    }
}
