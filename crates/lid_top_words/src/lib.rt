//! What the words of a command line ask for.
#![tactic(auto)]

mod commands;
mod form;
mod given;
mod job;
mod range;
mod reader;
mod table;

pub use job::{Job, read_words};
