//! The wrapped design of a system and its stations, as one flat netlist; its size, and the names that it asks for.
#![tactic(auto)]

mod model;
mod naming;
mod pearls;
mod prefix;
mod refusals;
mod size;
mod stations;
mod taken;
mod wrapping;

pub use lid_emit_meaning::EmitFault;
pub use prefix::free_prefix;
pub use size::emitted_size;
pub use taken::find_taken;
pub use wrapping::emit;
