//! The actor of a clocked run.

use crate::part::Role;

/// An actor of a clocked run: a node or a mover, with the stations that it drains and fills.
#[derive(Drop)]
pub struct ClockActor {
    pub(crate) part: Role,
    pub(crate) ins: Vec<u32>,
    pub(crate) outs: Vec<u32>,
    pub(crate) taken: Vec<u32>,
    pub(crate) tokens: Vec<u32>,
    pub(crate) fired: u64,
    pub(crate) cap: u64,
    pub(crate) went: bool,
}
