//! The clocked run laid flat, with stalls or none: stations in one list, movers apart from nodes, and only who is awake is looked at.
#![tactic(auto)]

mod clock;
mod deciding;
mod flags;
mod laying;
mod mover;
mod moving;
mod node;
mod reads;
mod ring;
mod rows;
mod run;
mod running;
mod settling;
mod station;
mod stations;

pub use clock::FlatClock;
pub use rows::FlatRows;
