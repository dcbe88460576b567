//! The writer of BLIF texts (Berkeley Logic Interchange Format): a design as its canonical text,
//! which the reader gives back.
#![tactic(auto)]

mod writer;

pub use writer::{append_models, read_back_law, write};
