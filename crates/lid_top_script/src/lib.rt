//! The steps of jobs: which files are fetched and read, what is checked, how a job ends, and what each
//! status says of it.
#![tactic(auto)]

mod fault;
mod placing;
mod reading;
mod scheduling;
mod stalling;
mod steps;
mod tracing;
mod wrapped;
mod wrapping;

pub use fault::{JobEnd, Stop, dump_stop, emit_stop, gen_stop, rows_stop};
pub use placing::{CertText, WiresText};
pub use reading::{FileText, read_file};
pub use scheduling::ScheduleText;
pub use stalling::read_job_stalls;
pub use steps::{NetText, PackedText, accept};
pub use tracing::judge_trace;
pub use wrapped::{Built, Graphed, NetFiles, Wrapped};
pub use wrapping::{read_channels, read_system, read_wrapped};
