//! The relay stations of a generated run.

ghost use Rattle.std.specs.Prelude.{◌≡◌, ◌≤◌, length, None, IfOk};
ghost use Rattle.std.specs.List.{All};
ghost use Rattle.lid_gen.specs.Designs.{size_fault};
ghost use Rattle.lid_top_script.specs.Generated.{generated_placement};
ghost use Rattle.lid_stations.specs.Placements.{station_count};
ghost use Rattle.lid_system.specs.Systems.{IsWellFormed};

use lid_base::Items;
use lid_gen::run_relays;
use lid_gen_laws::generated_runs_fit;
use lid_stations::Placement;
use lid_system::System;
use std::alloc::{AllocError, Global};

/// How many stations stand on at most 16,384 channels with so many relay stations each, at most 3.
fn count_stations(relays: &[u32]) -> usize
    requires few { All (λ k. k ≤ 3) relays.now }
    requires short { length relays.now ≤ 16384 }
    ensures { result ≡ station_count relays.now }
{
    let mut count = 0;
    for relays in relays {
        count += *relays as usize + 1;
    }
    count
}

/// The placement of a run: relay stations as they are drawn, each of capacity 2.
pub(crate) fn run_placement(
    alloc: Global,
    seed: u64,
    shells: u32,
    rows: u32,
    system: &System,
) -> Result<Placement, AllocError>
    requires sized { size_fault shells ≡ None }
    requires rows { rows ≤ 1000000 }
    requires system { IsWellFormed system.now }
    ensures { IfOk result (λ p. p ≡ generated_placement seed shells rows (length system.now.channels)) }
{
    generated_runs_fit();
    let relays = run_relays(alloc, seed, shells, rows, system.channels.len() as u32)?;
    let caps = Vec::from_elem(alloc, 2, count_stations(&relays))?;
    Ok(Placement {
        relays: Items::from_vec(relays),
        caps: Items::from_vec(caps),
    })
}
