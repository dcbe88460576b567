//! How a run ends that stopped.

ghost use Rattle.std.specs.Prelude.{◌≡◌};
ghost use Rattle.lid_top_clock.specs.Stops.{stop_of_feed, end_of_run};

use crate::fault::RunFault;
use lid_texts::VecFault;
use lid_texts_feed::FeedFault;
use lid_top_refusals::Refusal;
use lid_top_script::{JobEnd, Stop, rows_stop};

/// Why the rows of a file are not had.
pub(crate) fn feed_stop<'a>(vec: &'a str, fault: FeedFault) -> Stop<'a>
    ensures { result ≡ stop_of_feed vec.entry fault }
{
    match fault {
        FeedFault::Read => Stop::Read(vec),
        FeedFault::Memory => Stop::Memory,
        FeedFault::Refused(fault) => rows_stop(fault),
    }
}

/// How a run ends that was to have so many rows of a file.
pub(crate) fn run_end<'a>(vec: &'a str, count: u64, fault: RunFault) -> JobEnd<'a>
    ensures { result ≡ end_of_run vec.entry count fault }
{
    match fault {
        RunFault::Feed(fault) => JobEnd::Stopped(feed_stop(vec, fault)),
        RunFault::Few { found } => {
            JobEnd::Stopped(Stop::Refused(Refusal::Rows(VecFault::Changed { rows: count, found })))
        }
        RunFault::Memory => JobEnd::Stopped(Stop::Memory),
        RunFault::Write => JobEnd::Unwritten,
    }
}
