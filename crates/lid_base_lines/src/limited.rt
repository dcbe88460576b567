//! The lines of a text that is read as a whole.

ghost use Rattle.std.specs.Prelude.{◌≡◌, ◌⊎◌, Some, None, IfOk, IfErr};
ghost use Rattle.lid_base.specs.Lines.{logical_lines};
ghost use Rattle.lid_base_lines.specs.Limited.{fault_of_text, limited_fault};

use lid_base::{Items, Line, TextFault, lines};
use std::alloc::Global;

/// The most bytes of a text.
const MOST_BYTES: usize = 16_777_216;

/// The most bytes of a word.
const MOST_WORD_BYTES: u32 = 1_024;

/// Why the lines of a text are not given.
#[derive(Clone, Copy, Debug, PartialEq, Eq)]
pub enum LinesFault {
    /// The text has more than 16,777,216 bytes, so many.
    TooLong { bytes: u64 },
    /// The line has a byte against the rules of lines or a word of more than 1,024 bytes.
    Word { line: u32 },
    /// There was no memory.
    Memory,
}

/// How a fault of the lines is told.
fn fault_of_text(fault: TextFault) -> LinesFault
    ensures { (result ≡ LinesFault.Memory) ⊎ (fault_of_text fault ≡ Some result) }
{
    match fault {
        TextFault::BadByte { line } => LinesFault::Word { line },
        TextFault::NameTooLong { line } => LinesFault::Word { line },
        TextFault::Memory => LinesFault::Memory,
    }
}

/// The logical lines of a text of at most 16,777,216 bytes, with words of at most 1,024 bytes.
///
/// # Errors
/// `TooLong` comes first of all. Then `Word` tells the first line with a bad byte or a long word. `Memory` may come at
/// any text.
#[tactic(auto, unfolding(crate::specs::Limited::limited_fault))]
pub fn limited_lines(alloc: Global, bytes: &[u8]) -> Result<Items<Line>, LinesFault>
    ensures ok { IfOk result (λ v. (limited_fault bytes.now ≡ None) × (v ≡ logical_lines bytes.now)) }
    ensures err { IfErr result (λ e. (e ≡ LinesFault.Memory) ⊎ (limited_fault bytes.now ≡ Some e)) }
{
    if bytes.len() > MOST_BYTES {
        return Err(LinesFault::TooLong {
            bytes: bytes.len() as u64,
        });
    }
    match lines(alloc, bytes, MOST_WORD_BYTES) {
        Ok(lines) => Ok(lines),
        Err(fault) => Err(fault_of_text(fault)),
    }
}
