//! The strict outputs of accepted designs, by a simulation of covers and latches row by row.
#![tactic(auto)]

mod laws;
mod layout;
mod simulation;
mod source;
mod stems;
mod store;
mod whole;

pub use laws::accepted_have_one_table;
pub use source::RowSource;
pub use store::RowStore;
pub use whole::{strict, strict_rows_text};
