//! `free`: the strict output rows, by threads that turn actors at shared stations.

ghost use Rattle.std.specs.Prelude.{◌≡◌, ◌++◌, ◌≤◌, if◌then◌else◌, [], IfOk};
ghost use Rattle.lid_texts_runs.specs.Runs.{tallies_text};
ghost use Rattle.lid_texts.specs.RowsText.{rows_text};
ghost use Rattle.lid_top_script.specs.Freed.{IsFreeText};
ghost use Rattle.lid_top_script.specs.Scripts.{freeing_script};
ghost use Rattle.lid_top_script.specs.Whole.{RunsAnywhere};
ghost use Rattle.lid_stations.specs.Placements.{links_of};

use crate::run::Fed;
use lid_base::Gate;
use lid_free::{FreeEnd, free_run_over};
use lid_texts::{print_rows, print_tallies};
use lid_texts_packed::InputRows;
use lid_top_script::Stop;
use std::alloc::{AllocError, Global};
use std::thread::Threads;

/// What is told of a free run: the rows, and the tallies where these are asked for.
fn end_text(alloc: Global, end: &FreeEnd, tally: bool) -> Result<Vec<u8>, AllocError>
    ensures { IfOk result (λ text. text.items ≡ rows_text end.now.rows.columns end.now.rows.bits
        ++ (if tally then tallies_text end.now.tallies end.now.finish end.now.finish_fired else [])) }
{
    let mut text = Vec::new(alloc);
    print_rows(&end.rows, &mut text)?;
    if tally {
        print_tallies(
            end.tallies.as_slice(),
            end.finish,
            end.finish_fired,
            &mut text,
        )?;
    }
    Ok(text)
}

/// The text of a free run of 1 to 64 workers and at most 1,000,000 rounds.
fn run_text<R: Threads + AllocGlobal + Sync, G: Gate>(
    rt: &R,
    gate: &G,
    fed: &Fed<'_>,
    workers: u32,
    rounds: u64,
    tally: bool,
) -> Result<Vec<u8>, AllocError>
    requires some { 1 ≤ workers }
    requires most { workers ≤ 64 }
    requires rounds { rounds ≤ 1000000 }
    ensures { IfOk result (λ text. IsFreeText fed.now.wrapped.now.design (links_of fed.now.wrapped.now.system)
        fed.now.wrapped.now.placement fed.now.rows.now.rows workers rounds tally text.items) }
{
    let wrapped = fed.wrapped;
    let _ = wrapped.checked.design();
    let end = free_run_over(
        rt,
        rt.alloc(),
        &wrapped.system,
        &wrapped.placement,
        InputRows::Packed(fed.rows),
        workers,
        rounds,
        gate,
    )?;
    end_text(rt.alloc(), &end, tally)
}

/// What `free` writes once the rows are read, of 1 to 64 workers and at most 1,000,000 rounds.
pub(crate) fn freed_text<'a, R: Threads + AllocGlobal + Sync, G: Gate>(
    rt: &R,
    gate: &G,
    fed: &Fed<'_>,
    workers: u32,
    rounds: u64,
    tally: bool,
) -> Result<Vec<u8>, Stop<'a>>
    requires some { 1 ≤ workers }
    requires most { workers ≤ 64 }
    requires rounds { rounds ≤ 1000000 }
    ensures { RunsAnywhere (freeing_script fed.now.wrapped.now.design (links_of fed.now.wrapped.now.system)
        fed.now.wrapped.now.placement workers rounds tally fed.now.rows.now.rows) result }
{
    match run_text(rt, gate, fed, workers, rounds, tally) {
        Ok(text) => Ok(text),
        Err(_) => Err(Stop::Memory),
    }
}
