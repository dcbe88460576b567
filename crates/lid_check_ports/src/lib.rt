//! The lists of the models of a design as sets of names, the formals that instances bind, and the
//! nets that are driven and read in a model, by their numbers.
#![tactic(auto)]

mod formals;
mod nets;
mod ports;

pub use formals::{InstRule, find_formal};
pub use nets::{Drivers, Nets, append_ports, collect_nets};
pub use ports::{Port, Ports};
