//! Programs: covers laid out in flat arrays, one after the other, each of at most six inputs with its truth table; and the
//! bits of one row, which are put in and taken.
#![tactic(auto)]

mod program;
mod row;
mod truth;

pub use program::{Program, ProgramStep, Span, copy_of};
pub use row::{first_state, put_bits, take_bits};
