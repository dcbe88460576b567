//! The wires that stand for the nets of shells in a wrapped system, and those that inputs read.
#![tactic(auto)]

mod lasts;
mod nets;
mod reads;
mod shells;

pub use lasts::last_stations;
pub use reads::input_wires;
pub use shells::{Shells, make_shells};
