//! The ratio, the lags and a spanning tree of a marked graph whose transitions are all joined.
#![tactic(auto)]

mod bellman_ford;
mod branching;
mod cycle_ratio;
mod cycles;
mod holding;
mod judging;
mod lowest_terms;
mod rating;
mod relaxation;
mod spanning_tree;

pub use branching::{tree_by, tree_of};
pub use cycle_ratio::Rate;
pub use holding::{Bound, holds, holds_by};
pub use judging::judge;
pub use lowest_terms::{Ratio, lowest, tokens_on};
pub use rating::{rate_by, rate_of};
pub use relaxation::edge;
pub use spanning_tree::Root;
