//! The laws of the interleaving machine: what actors answer, step by step, in whatever order they go, for all systems,
//! placements and schedules.
#![tactic(auto)]

mod laws;

pub use laws::{states_keep_prefixes, sweeps_keep_up, turns_end_at_rest};
