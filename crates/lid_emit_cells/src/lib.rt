//! The cells of wrapped systems: the name of each wire, and the cell that drives it.
#![tactic(auto)]

mod actor;
mod all;
mod cell;
mod names;
mod outer;
mod pen;
mod shell;
mod station;
mod wire;

pub use actor::{ActorStations, Fill};
pub use all::{All, make_cells};
pub use names::Naming;
pub use outer::Outer;
pub use shell::Shell;
pub use station::{Bit, Station};
pub use wire::Wire;
