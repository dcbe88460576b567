//! The command `gen`: a generated design, or what the clocked run of its system shows.
#![tactic(auto)]

mod counting;
mod generating;
mod placing;
mod ratio;
mod running;
mod summary;

pub use generating::gen_text;
