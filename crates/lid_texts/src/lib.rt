//! The texts that lid reads and writes beside BLIF: rows of bits, read whole or in pieces, and the texts
//! of runs.
#![tactic(auto)]

mod line;
mod reader;
mod rows;
mod scan;
mod walk;
mod writer;

pub use lid_texts_runs::{
    ChannelLine, Report, SchedFault, Trace, TraceFault, print_answer, print_cycles, print_report,
    print_tallies, print_trace, read_schedule, trace_fits,
};
pub use reader::read_rows;
pub use rows::{Rows, VecFault};
pub use scan::RowScan;
pub use writer::{append_header, append_row, print_rows};
