//! What is told of stations and channels: the sizes with which relay stations cost no throughput that they need
//! not, and the slack that is left.
#![tactic(auto)]

mod ratio;
mod sizes;
mod slacks;

pub use sizes::size_text;
pub use slacks::slack_text;
