//! Why a run stopped.

use lid_texts_feed::FeedFault;

/// Why a run stopped before its text was written.
#[derive(Clone, Copy)]
pub enum RunFault {
    /// The rows of the file are not had.
    Feed(FeedFault),
    /// The file has fewer rows than the run was to have: so many.
    Few { found: u64 },
    /// There was no memory.
    Memory,
    /// A write failed.
    Write,
}
