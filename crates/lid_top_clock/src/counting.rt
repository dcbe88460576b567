//! The first of two readings of rows, which judges and counts them and does not hold them.

ghost use Rattle.std.specs.Prelude.{◌≡◌, ℕ, ◌≤◌, List, IfOk, IfErr};
ghost use Rattle.lid_top_clock.specs.Clocking.{FileHasRows};
ghost use Rattle.lid_top_script.specs.Causes.{Misses};
ghost use Rattle.lid_top_script.specs.FetchSteps.{FetchesFile};
ghost use Rattle.lid_top_script.specs.Scripts.{rows_limit, vec_reading};

use crate::stops::feed_stop;
use lid_base::Shelf;
use lid_top_script::{Stop, Wrapped};
use std::alloc::Global;

/// Fetches and judges rows for the inputs of an accepted design, and counts them.
pub(crate) fn count_rows<'a, S: Shelf>(
    alloc: Global,
    shelf: &mut S,
    wrapped: &Wrapped,
    vec: &'a str,
) -> Result<u64, Stop<'a>>
    ensures ok { IfOk result (FileHasRows (S.held shelf.old) wrapped.now.design vec.now) }
    ensures err { IfErr result (Misses (S.held shelf.old) vec.now rows_limit (vec_reading wrapped.now.design) (S.faults shelf.old) (S.faults shelf.new)) }
    ensures fetched { FetchesFile S.whole (S.held shelf.old vec.now) vec.now rows_limit
        (S.fetches shelf.old) (S.fetches shelf.new) (S.faults shelf.old) (S.faults shelf.new) result }
    ensures kept { S.held shelf.new ≡ S.held shelf.old }
    ensures grows { (q : List ℕ) → S.faults shelf.old q ≤ S.faults shelf.new q }
{
    let checked = &wrapped.checked;
    let outs = checked.outputs().len() as u32;
    match lid_texts_feed::count_rows(alloc, shelf, vec, checked.inputs(), outs) {
        Ok(count) => Ok(count),
        Err(fault) => Err(feed_stop(vec, fault)),
    }
}
