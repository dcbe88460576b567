//! The search for a certificate of the ratio of each component of a marked graph.
#![tactic(auto)]

mod finding;
mod grouping;
mod laws;
mod parts;
mod pieces;
mod showing;

pub use finding::find;
pub use laws::lag_rule_bounds_firings;
pub use showing::is_rateable;
