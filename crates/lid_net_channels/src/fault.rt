/// Why an accepted design has no system.
#[derive(Clone, Copy, Debug)]
pub enum NetFault {
    /// It has more than 16,384 channels, and this many.
    TooManyChannels { count: u64 },
    /// There is no memory.
    Memory,
}
