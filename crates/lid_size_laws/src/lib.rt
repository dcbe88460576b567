//! What the capacities of stations have to do with the ratios of marked graphs.
#![tactic(auto)]

mod laws;

pub use laws::{forward_ratios_bound, greater_capacities_keep, tokens_raise_ratios};
