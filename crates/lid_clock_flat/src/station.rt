//! A station of a flat run.

ghost use Rattle.std.specs.Prelude.{◌<◌, ◌≤◌};

/// A station: a ring of places in the list of the places of all stations.
#[derive(Clone, Copy)]
pub struct FlatStation {
    pub(crate) filler: u32,
    pub(crate) drainer: u32,
    /// Where its places begin.
    pub(crate) base: u32,
    /// How many places it has.
    pub(crate) cap: u32,
    /// The place of its oldest token.
    pub(crate) head: u32,
    /// How many tokens it holds.
    pub(crate) held: u32,
    ghost headed: { head < cap },
    ghost within: { held ≤ cap },
    ghost few: { cap ≤ 16 },
}
