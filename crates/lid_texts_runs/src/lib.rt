//! Texts of runs: the schedule that a walk is given, and what runs and systems are told by.
#![tactic(auto)]

mod answers;
mod cycles;
mod pieces;
mod report;
mod schedule;
mod tallies;
mod trace;

pub use answers::print_answer;
pub use cycles::print_cycles;
pub use pieces::append_node;
pub use report::{ChannelLine, Report, print_report};
pub use schedule::{SchedFault, read_schedule};
pub use tallies::print_tallies;
pub use trace::{Trace, TraceFault, print_trace, trace_fits};
