//! What is run, and how much of it is told.

use lid_base::Name;
use lid_stations::Placed;

/// A system with its stations, over how many rows it is run, and what is told of the run.
#[derive(Clone, Copy)]
pub struct Task<'s> {
    /// The system and its stations.
    pub placed: &'s Placed<'s>,
    /// The names of the columns of its output rows.
    pub columns: &'s [Name],
    /// The number of rows, at most 1,000,000.
    pub rows: u64,
    /// For how many cycles at most a trace is told, where one is wanted. No limit is judged here.
    pub trace: Option<u64>,
}
