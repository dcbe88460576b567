//! Guesses for the search of a certificate, of which nothing is promised: the ratio of a graph by Howard's policy
//! iteration, its lags by Dijkstra's search, and a breadth-first tree; whoever takes one tests it. Euclid's algorithm,
//! which is proved.
#![tactic(auto)]

mod fans;
mod groups;
mod guess;
mod heap;
mod labels;
mod lags;
mod policy;
mod queue;
mod tables;
mod tree;
mod values;

pub use fans::{Direction, fans_of};
pub use groups::{Groups, groups_of};
pub use guess::{Guess, propose};
pub use labels::{Labels, propose_labels};
pub use lags::gcd;
pub use tables::{edge_at, get, put, put_each};
pub use tree::{Branches, propose_tree};
