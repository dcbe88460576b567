//! A mover of a flat run.

/// A mover: it drains a station, and fills the next one.
#[derive(Clone, Copy)]
pub struct FlatMover {
    pub(crate) station: u32,
    pub(crate) fired: u32,
}
