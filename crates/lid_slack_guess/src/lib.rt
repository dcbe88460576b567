//! Guesses of the slack of channels by shortest ways, and of labels that show it, from one certificate of the present
//! marked graph. Nothing is promised of them but that they end, so whoever takes one tests it.
#![tactic(auto)]

mod arcs;
mod chain;
mod proposal;
mod search;
mod ways;

pub use proposal::Proposal;
pub use ways::{Ways, new_ways, propose};
