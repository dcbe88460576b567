//! Workers, each with actors of its own and one hand at a shared board, and crews of them, which share out the actors and
//! ends of a run, work at once, and give all back.
#![tactic(auto)]

mod dealing;
mod gathering;
mod hiring;
mod laws;
mod rounds;
mod worker;
mod working;

pub use dealing::deal;
pub use gathering::{join_all, take_back};
pub use hiring::hire;
pub use laws::rounds_of_all_are_sweeps;
pub use worker::{Worker, work};
pub use working::work_all;
