//! The top call: a job's words, its files, and what it writes.
#![tactic(auto)]

mod held;
mod job;
mod laws;
mod program;
mod saying;
mod texts;
mod top;
mod writing;

pub use laws::{a_told_job_ends_in_one_way, rates_are_verified};
pub use program::run_program;
pub use top::lid_run;
