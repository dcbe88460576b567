//! Pearls: flat parts that are run one row at a time.
#![tactic(auto)]

mod laws;
mod pearl;
mod same;
mod split;

pub use laws::{pearls_follow_tables, reordered_parts_have_the_same_tables};
pub use pearl::Pearl;
