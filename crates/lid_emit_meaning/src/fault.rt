//! Why no design is emitted.

use lid_base::Name;

/// Why no design is emitted.
#[derive(Drop)]
pub enum EmitFault {
    /// The first data input of the root that has a name that the emitted design needs or is an output too,
    /// else the first output that has such a name.
    NameTaken { name: Name },
    /// The size is over 16,384.
    TooBig { count: u64 },
    /// There was no memory.
    Memory,
}
