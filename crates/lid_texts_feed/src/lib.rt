//! Rows texts that are fetched piece by piece: how many rows one has, and its rows one by one.
#![tactic(auto)]

mod counting;
mod fault;
mod feed;
mod laws;
mod packing;
mod text;

pub use counting::count_rows;
pub use fault::FeedFault;
pub use feed::RowFeed;
pub use laws::{rows_are_fetched_as_needed, told_rows_are_read_again};
pub use packing::read_packed;
