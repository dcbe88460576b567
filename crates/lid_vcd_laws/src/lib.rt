//! Laws of dumps: a dump is of the form, and shows a trace, exactly as its grammar says: sections, declarations, and
//! times with their changes; and it is refused at the first word by which no dump goes on.
#![tactic(auto)]

mod laws;

pub use laws::{dumps_show_traces, refusals_are_first};
