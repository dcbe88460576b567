//! Marked graphs.

use lid_base::Items;

/// An edge from one transition to another, or to itself.
#[derive(Clone, Copy, Debug, PartialEq, Eq)]
pub struct Edge {
    pub from: u32,
    pub to: u32,
    /// The tokens that lie on the edge at the start.
    pub tokens: u32,
}

/// A marked graph. Transitions are numbered from 0, edges by their place in the list.
#[derive(Drop)]
pub struct Graph {
    /// How many transitions there are.
    pub nodes: u32,
    pub edges: Items<Edge>,
}
