//! The run of a generated design, from its system to what is told.

ghost use Rattle.std.specs.Prelude.{◌≡◌, ◌≤◌, List, length, None, IfOk};
ghost use Rattle.lid_net_law.specs.Agreement.{IsSystemOf};
ghost use Rattle.lid_check.specs.Acceptance.{IsAccepted};
ghost use Rattle.lid_design.specs.WellFormed.{IsWellFormed};
ghost use Rattle.lid_gen.specs.Designs.{generated, size_fault};
ghost use Rattle.lid_gen.specs.Runs.{generated_rows};
ghost use Rattle.lid_top_gen.specs.Counts.{AreRunCounts};
ghost use Rattle.lid_top_gen.specs.Told.{told_of};
ghost use Rattle.lid_net.specs.Graphs.{IsGraphOf};
ghost use Rattle.lid_top_script.specs.Generated.{IsSummary, IsSummaryText};
ghost use Rattle.lid_system.specs.declared.Channel.{Channel};
ghost use Rattle.lid_system.specs.Systems.{IsWellFormed as IsSystem};

use crate::counting::{Count, count_run};
use crate::placing::run_placement;
use crate::ratio::sink_ratio;
use crate::summary::{Summary, append_summary};
use lid_check::{Checked, acceptance_is_one, check};
use lid_check_rules::CheckFault;
use lid_design::Design;
use lid_gen::run_rows;
use lid_gen_laws::{
    generated_designs_are_accepted, generated_runs_fit, generated_systems_are_small,
};
use lid_net::{NetFault, build};
use lid_stations::Placed;
use lid_system::System;
use std::alloc::{AllocError, Global};

/// Runs the system of a generated design for its rows, and counts.
fn count_rows(
    alloc: Global,
    seed: u64,
    shells: u32,
    rows: u32,
    placed: &Placed<'_>,
) -> Result<Count, AllocError>
    requires sized { size_fault shells ≡ None }
    requires few { rows ≤ 1000000 }
    requires of { IsSystemOf (generated seed shells) placed.now.system }
    ensures { IfOk result (λ count. AreRunCounts placed.now.system placed.now.placement (generated_rows seed shells rows).bits count.cycles count.ones) }
{
    generated_designs_are_accepted();
    generated_runs_fit();
    let _ = &placed.system;
    let rows = run_rows(alloc, seed, shells, rows)?;
    count_run(alloc, placed, &rows)
}

/// What the run of the system of a generated design shows.
fn summarize(
    alloc: Global,
    seed: u64,
    shells: u32,
    rows: u32,
    system: &System,
) -> Result<Summary, AllocError>
    requires sized { size_fault shells ≡ None }
    requires few { rows ≤ 1000000 }
    requires system { IsSystem system.now }
    requires of { IsSystemOf (generated seed shells) system.now }
    requires graph { IsGraphOf (generated seed shells) system.now.channels }
    ensures { IfOk result (λ summary. IsSummary seed shells rows (told_of summary)) }
{
    generated_designs_are_accepted();
    generated_runs_fit();
    let placement = run_placement(alloc, seed, shells, rows, system)?;
    let placed = Placed {
        system,
        placement: &placement,
    };
    let count = count_rows(alloc, seed, shells, rows, &placed)?;
    let ratio = sink_ratio(alloc, &placed)?;
    Ok(Summary {
        shells,
        channels: system.channels.len() as u32,
        stations: placement.caps.len() as u64,
        rows,
        ones: count.ones,
        cycles: count.cycles,
        p: ratio.p,
        q: ratio.q,
    })
}

/// A design that is accepted, checked.
fn check_made(alloc: Global, design: Design) -> Result<Checked, AllocError>
    requires formed { IsWellFormed design }
    requires accepted { IsAccepted design }
    ensures { IfOk result (λ checked. checked ≡ design) }
{
    acceptance_is_one();
    match check(alloc, design, None) {
        Ok(checked) => Ok(checked),
        Err(CheckFault::Memory) => Err(AllocError),
        Err(_) => unreachable!(),
    }
}

/// The system of a design whose channels are not too many.
fn build_made(alloc: Global, checked: &Checked) -> Result<System, AllocError>
    requires { (channels : List Channel) → IsGraphOf checked.now channels → length channels ≤ 16384 }
    ensures formed { IfOk result IsSystem }
    ensures system { IfOk result (IsSystemOf checked.now) }
    ensures graph { IfOk result (λ s. IsGraphOf checked.now s.channels) }
{
    match build(alloc, checked) {
        Ok(system) => Ok(system),
        Err(NetFault::Memory) => Err(AllocError),
        Err(NetFault::TooManyChannels { .. }) => unreachable!(),
    }
}

/// What the run of a generated design shows.
fn summarize_design(
    alloc: Global,
    seed: u64,
    shells: u32,
    rows: u32,
    design: Design,
) -> Result<Summary, AllocError>
    requires sized { size_fault shells ≡ None }
    requires made { design ≡ generated seed shells }
    requires few { rows ≤ 1000000 }
    ensures { IfOk result (λ summary. IsSummary seed shells rows (told_of summary)) }
{
    generated_designs_are_accepted();
    generated_systems_are_small();
    let checked = check_made(alloc, design)?;
    let system = build_made(alloc, &checked)?;
    summarize(alloc, seed, shells, rows, &system)
}

/// The text of what the run of a generated design with so many rows shows.
pub(crate) fn run_text(
    alloc: Global,
    seed: u64,
    shells: u32,
    rows: u32,
    design: Design,
) -> Result<Vec<u8>, AllocError>
    requires sized { size_fault shells ≡ None }
    requires made { design ≡ generated seed shells }
    requires few { rows ≤ 1000000 }
    ensures { IfOk result (λ text. IsSummaryText seed shells rows text.items) }
{
    let summary = summarize_design(alloc, seed, shells, rows, design)?;
    let mut text = Vec::new(alloc);
    append_summary(&summary, &mut text)?;
    Ok(text)
}
