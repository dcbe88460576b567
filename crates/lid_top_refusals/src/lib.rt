//! Why a run ends with another status than 0: each refusal, and the line on the standard error that says
//! it.
#![tactic(auto)]

mod refusal;
mod saying;
mod told;

pub use refusal::{Refusal, say_denied, say_memory, say_read, say_refusal, say_usage, say_write};
