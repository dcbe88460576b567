//! Stations of a stated capacity: what may be done at their two ends, whoever keeps the tokens, and
//! a plain board of stations for one thread.
#![tactic(auto)]

mod looks;
mod pair;
mod plain;
mod stations;

pub use looks::{End, InLook, OutLook, Side};
pub use pair::Pair;
pub use plain::PlainBoard;
pub use stations::Stations;
