//! What is told of a graph's throughput: the text of its certificate, and what a certificate says.
#![tactic(auto)]

mod rate;
mod verdict;

pub use rate::rate_text;
pub use verdict::verdict_text;
