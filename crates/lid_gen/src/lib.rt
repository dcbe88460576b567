//! The generator of designs: from a seed and a number of shells, a design that is accepted, and the rows
//! and relay stations of a run of it.
#![tactic(auto)]

mod cells;
mod design;
mod draws;
mod fault;
mod names;
mod runs;
mod shells;

pub use design::make;
pub use draws::Draws;
pub use fault::GenFault;
pub use runs::{run_relays, run_rows};
