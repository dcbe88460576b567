//! The flat run over rows that are given one by one.

use crate::mover::FlatMover;
use crate::stations::FlatStations;
use lid_clock::ClockActor;

/// A clocked run over rows that are given one by one.
#[derive(Drop)]
pub struct FlatRun {
    /// The nodes, in the order of their numbers.
    pub(crate) nodes: Vec<ClockActor>,
    /// The movers, in the order of their numbers, after the nodes.
    pub(crate) movers: Vec<FlatMover>,
    pub(crate) stations: FlatStations,
    /// Which actors have fired in a cycle and not yet settled their stations: none between cycles.
    pub(crate) went: Vec<bool>,
    /// Which actors are looked at in a cycle: all but some that may not fire.
    pub(crate) awake: Vec<bool>,
    pub(crate) rows: u64,
    pub(crate) given: u64,
}
