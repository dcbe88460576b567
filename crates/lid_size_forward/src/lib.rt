//! The forward ratio of each component of a marking: the least ratio of its closed walks on edges forth and
//! self edges alone.
#![tactic(auto)]

mod forward;
mod ratios;
mod walks;

pub use forward::forward_ratios;
