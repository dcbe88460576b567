//! Rows of bits that are held packed, 64 bits in a word, and rows that are written one after the other.
#![tactic(auto)]

mod bits;
mod input;
mod rows;
mod writer;

pub use input::InputRows;
pub use rows::PackedRows;
pub use writer::RowsPrinter;
