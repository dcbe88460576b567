//! Stalls of the environment: the clocked run in which stalls hold the source and the sink.
#![tactic(auto)]

mod held;

pub use held::Held;
pub use lid_stall_text::{Stall, StallFault, read_stalls};
