//! Consecutive columns that make a pearl.

/// The columns of a pearl and of all instances in it. The first ones are those of its data inputs, and
/// those of its outputs come next.
#[derive(Clone, Copy)]
pub struct PearlPart {
    /// The number of the first column.
    pub start: u32,
    /// How many columns there are.
    pub nets: u32,
    /// How many data inputs the pearl has.
    pub inputs: u32,
    /// How many outputs it has.
    pub outputs: u32,
}
