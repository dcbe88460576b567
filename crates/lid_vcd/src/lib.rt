//! Traces as value change dumps (IEEE 1364).
#![tactic(auto)]

mod cells;
mod laws;
mod reader;
mod writer;

pub use laws::{
    dumps_have_one_trace, read_dumps_are_waves, refusals_stay, words_go_on, written_dumps_are_read,
    written_dumps_are_waves,
};
pub use reader::{VcdFault, read};
pub use writer::write;
