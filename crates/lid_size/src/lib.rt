//! Sizing of stations: the first capacities with which relay stations cost no throughput that they need not.
#![tactic(auto)]

mod choosing;
mod comparing;
mod laws;
mod sizing;
mod testing;
mod ways;

pub use laws::{greater_capacities_reach, no_place_is_spare};
pub use sizing::{SizeEnd, size, size_by_guess};
