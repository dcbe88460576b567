//! The station of a clocked run.

ghost use Rattle.std.specs.Prelude.{◌+◌, ◌<◌, ◌≤◌, length};

use crate::places::Places;

/// A station of a clocked run: a ring of places, one for each token that it holds at most.
#[derive(Drop)]
pub struct ClockStation {
    pub(crate) filler: u32,
    pub(crate) slot: u32,
    pub(crate) drainer: u32,
    pub(crate) put: u64,
    pub(crate) taken: u64,
    pub(crate) places: Places,
    ghost some: { 0 < length places },
    ghost few: { length places ≤ 16 },
    ghost ordered: { taken ≤ put },
    ghost within: { put ≤ taken + length places },
}
