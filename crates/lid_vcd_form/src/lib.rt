//! Value change dumps (IEEE 1364) of traces: their words, what each word may be, and the lines
//! that are written.
#![tactic(auto)]

mod form;
mod head;
mod ids;
mod lines;
mod words;

pub use form::{Next, Place, Section, step};
pub use ids::append_id;
pub use lines::{append_cell, append_cell_changes, append_declaration, append_time};
pub use words::{PlacedWord, next_word};
