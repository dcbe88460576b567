//! Marked graphs: transitions, edges with tokens, walks, firing counts and ratios.
#![tactic(auto)]

mod graph;
mod pairing;
mod union_find;
mod walks;

pub use graph::{Edge, Graph};
pub use pairing::is_paired;
pub use union_find::components;
pub use walks::{is_closed_walk, is_walk, walk_start};
