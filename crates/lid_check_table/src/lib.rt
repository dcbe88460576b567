//! The names of a model by numbers: each name once, and for each place at which the model names a net
//! the number of its name.
#![tactic(auto)]

mod entering;
mod marks;
mod table;

pub use entering::number_at;
pub use marks::{MarkTally, is_marked, mark_names, tally_marks};
pub use table::Table;
