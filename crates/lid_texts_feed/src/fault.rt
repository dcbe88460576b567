//! Why there is no row.

ghost use Rattle.std.specs.Prelude.{◌≡◌};
ghost use Rattle.lid_texts_feed.specs.Fetching.{fetch_fault, feed_fault};

use lid_base_io::FetchFault;
use lid_texts::VecFault;
use std::alloc::AllocError;

/// Why the rows of a file are not had.
#[derive(Clone, Copy)]
pub enum FeedFault {
    /// A fetch failed.
    Read,
    /// There was no memory.
    Memory,
    /// The text stands for no rows.
    Refused(VecFault),
}

impl From<AllocError> for FeedFault {
    ghost use Rattle.std.specs.Prelude.{◌≡◌};
    ghost use Rattle.lid_texts_feed.specs.declared.fault.FeedFault.TheVariants.{Memory};

    ghost from_gives = { λ _ e. e ≡ Memory };

    fn from(_error: AllocError) -> FeedFault {
        FeedFault::Memory
    }
}

/// The fault of a piece that could not be fetched or scanned.
pub(crate) fn unfetched(fault: FetchFault) -> FeedFault
    ensures { result ≡ fetch_fault fault }
{
    match fault {
        FetchFault::Read => FeedFault::Read,
        FetchFault::Memory => FeedFault::Memory,
    }
}

/// The fault of a text that was scanned to its end.
pub(crate) fn refused(fault: VecFault) -> FeedFault
    ensures { result ≡ feed_fault fault }
{
    match fault {
        VecFault::Memory => FeedFault::Memory,
        _ => FeedFault::Refused(fault),
    }
}
