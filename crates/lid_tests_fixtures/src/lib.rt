//! What tests run: the systems of netlists, placements, and rows that are told by letters. Test crates alone stand on this,
//! and nothing in it is a test.
#![tactic(auto)]

mod netlists;
mod placing;
mod rows;
mod run;

pub use netlists::{DIAMOND, MADE, ONE, RING, system_of};
pub use placing::{SystemAndStations, placed_of, placement_of};
pub use rows::{are_rows, rows_of};
pub use run::{SampleRun, run_of};
