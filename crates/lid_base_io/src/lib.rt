//! Whole files from a shelf, whole texts to a sink, and the line that tells a fault.
#![tactic(auto)]

mod fetching;
mod paths;
mod pieces;
mod telling;
mod writing;

pub use fetching::{FetchFault, fetch_all, fetch_at};
pub use pieces::PieceWriter;
pub use telling::{Word, tell};
pub use writing::write_all;
