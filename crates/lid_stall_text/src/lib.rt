//! Stalls of the environment: the cycles in which a run's source or sink are held, read from a text.
#![tactic(auto)]

mod stalls;

pub use stalls::{Stall, StallFault, read_stalls};
