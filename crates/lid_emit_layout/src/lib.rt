//! The numbers of the stations, actors and ports of a wrapped system.
#![tactic(auto)]

mod actors;
mod bits;
mod ends;
mod layout;
mod outer;
mod sites;
mod stations;

pub use layout::lay_out;
