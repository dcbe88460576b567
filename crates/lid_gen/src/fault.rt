//! Why no design is made.

/// Why no design is made.
#[derive(Clone, Copy)]
pub enum GenFault {
    /// There are 1 to 2,000 shells, and this is another number.
    Size { shells: u32 },
    /// There was no memory.
    Memory,
}
