//! Free runs: actors dealt to workers, which step a shared board in threads of their own.
#![tactic(auto)]

mod course;
mod ending;
mod gathering;
mod rules;
mod run;
mod setting;

pub use course::StrictCourse;
pub use lid_free_crew::{Worker, work};
pub use run::{FreeEnd, free_run, free_run_over, run_out};
pub use setting::{Setting, set_out};
