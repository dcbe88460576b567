//! Rows of bits under named columns.

use lid_base::{Items, Name, Which};

/// Bits by rows. Each row that `read_rows` gives is as wide as the columns.
#[derive(Drop)]
pub struct Rows {
    pub columns: Items<Name>,
    pub bits: Items<Items<bool>>,
}

/// Why a text does not stand for rows. Lines are counted from 1; a logical line has the number of
/// its first physical line.
#[derive(Clone, Copy)]
pub enum VecFault {
    /// The first logical line does not have the column names, or there is none.
    Header,
    /// The row on this line has not one character for each column, or has a word over 1,048,576
    /// bytes.
    Width { line: u32 },
    /// The logical line has a character that no row has, or a byte against the rules of lines.
    Char { line: u32 },
    /// The number of what is counted, which is over the limit.
    Limit { which: Which, count: u64 },
    /// A second pass over a text gave fewer rows than the first. No call of this crate gives it.
    Changed { rows: u64, found: u64 },
    /// There was no memory.
    Memory,
}
