//! Truth tables of covers of seven to twelve inputs: words of 64 bits, one after the other, which are built from whole rows
//! at a time.
#![tactic(auto)]

mod mask;
mod table;
mod word;

pub use table::{is_tabled, push_table};
