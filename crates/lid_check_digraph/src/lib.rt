//! Directed graphs of numbers that read one another: topological orders, closed walks, and what reaches
//! what.
#![tactic(auto)]

mod adjacency;
mod depth_first;
mod partial_order;
mod reachability;
mod read_lists;
mod tarjan;
mod topological;

pub use adjacency::{Digraph, is_graph};
pub use reachability::{find_reached, find_reaching};
pub use read_lists::ReadLists;
pub use topological::{Found, find_order};
