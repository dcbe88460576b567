//! Placements as texts: stations and wires, read, and stations printed.
#![tactic(auto)]

mod building;
mod channels;
mod fault;
mod form;
mod judging;
mod laws;
mod reader;
mod writer;

pub use fault::PlaceFault;
pub use laws::printed_stations_are_read_back;
pub use reader::{place, read_stations};
pub use writer::print_stations;
