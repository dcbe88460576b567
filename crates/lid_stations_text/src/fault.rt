//! Why a text does not stand for a placement.

use lid_base::Which;

/// Why a text of stations or wires does not stand for a placement. Lines are counted from 1; a logical
/// line has the number of its first physical line.
#[derive(Clone, Copy)]
pub enum PlaceFault {
    /// The line has not the form that is due, or a byte against the rules of lines, or a word of more
    /// than 1,024 bytes. A text without logical lines is told by line 0.
    Word { line: u32 },
    /// The system has no such channel.
    NoChannel { line: u32 },
    /// The channel stands on an earlier line.
    Twice { line: u32 },
    /// More than 64 relay stations.
    TooMany { line: u32 },
    /// More than 65,536 stations in all, with their number.
    TotalLimit { count: u64 },
    /// A wire of length 0.
    ZeroLength { line: u32 },
    /// The number of what is counted, which is over the limit.
    Limit { which: Which, count: u64 },
    /// A capacity that is not in 2 to 16.
    Capacity { line: u32 },
    /// There was no memory.
    Memory,
}
