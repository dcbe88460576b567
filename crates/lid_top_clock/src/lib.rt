//! The command `clock`: the clocked run of a netlist, whose rows are fetched as they are needed, told as it goes.
#![tactic(auto)]

mod asked;
mod clock;
mod counting;
mod course;
mod fault;
mod lines;
mod steps;
mod stops;
mod task;
mod whole;
mod workers;

pub use asked::Asked;
pub use clock::run_clock;
pub use fault::RunFault;
pub use task::Task;
pub use whole::run;
pub use workers::Workers;
