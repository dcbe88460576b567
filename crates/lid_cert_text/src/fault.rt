//! Why a text does not stand for a certificate.

use lid_base::Which;

/// Why a text does not stand for a certificate. Lines are counted from 1; a logical line has the
/// number of its first physical line.
#[derive(Clone, Copy)]
pub enum CertFault {
    /// The line has a bad byte, a word over 1,024 bytes, or not the form that is due there; it is the
    /// last logical line where the text ends inside a part, and 0 where there is none.
    Word { line: u32 },
    /// The number of what is counted, which is over the limit.
    Limit { which: Which, count: u64 },
    /// There was no memory.
    Memory,
}
