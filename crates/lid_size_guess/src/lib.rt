//! Guesses for the sizing of stations: the forward ratio of each component, and the first capacities that
//! reach, with a closed walk for each that shows that one less does not do. Nothing is promised of them but
//! that they end, so whoever takes one tests it.
#![tactic(auto)]

mod channels;
mod forwards;
pub mod heap;
mod search;
mod sizes;

pub use forwards::{Forwards, propose_forwards};
pub use sizes::{NextSize, SizeGuess, begin_sizes, propose_next};
