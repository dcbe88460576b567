//! The clocked run, counted.

ghost use Rattle.std.specs.Prelude.{◌≡◌, ◌≤◌, ℕ, if◌then◌else◌, length, IfOk};
ghost use Rattle.std.specs.List.{AllByRecursion, sum_by};
ghost use Rattle.lid_shell_laws.specs.Setups.{IsInputRow};
ghost use Rattle.lid_design.specs.Network.{Table};
ghost use Rattle.lid_top_gen.specs.Counts.{HasLife, AreRunCounts};
ghost use Rattle.lid_system.specs.Streams.{output_row};
ghost use Rattle.lid_system.specs.Systems.{Point};

use lid_clock_flat::FlatRows;
use lid_stations::Placed;
use lid_texts::Rows;
use std::alloc::{AllocError, Global};

/// What is counted of a run.
#[derive(Clone, Copy)]
pub(crate) struct Count {
    /// The cycles until the sink has fired for each row.
    pub cycles: u64,
    /// The bits of the output rows that are 1.
    pub ones: u64,
}

/// How many bits of a row are 1.
fn row_ones(row: &[bool]) -> u64
    ensures is { result ≡ sum_by (λ bit. if bit then 1 else 0) row.now }
    ensures most { result ≤ length row.now }
{
    let mut ones = 0;
    for bit in row {
        if *bit {
            ones += 1;
        }
    }
    ones
}

/// Runs a system with its stations clock by clock, and counts.
pub(crate) fn count_run(
    alloc: Global,
    placed: &Placed<'_>,
    rows: &Rows,
) -> Result<Count, AllocError>
    requires few { length rows.now.bits ≤ 1000000 }
    requires wide { AllByRecursion (IsInputRow placed.now.system) rows.now.bits }
    requires narrow { (b : Table Point) (t : ℕ) → length (output_row placed.now.system b t) ≤ 4 }
    requires lives { HasLife placed.now.system placed.now.placement rows.now.bits }
    ensures { IfOk result (λ count. AreRunCounts placed.now.system placed.now.placement rows.now.bits count.cycles count.ones) }
{
    let mut run = FlatRows::start(alloc, placed, rows)?;
    let mut cycles = 0;
    let mut ones = 0;
    while run.cycle() {
        cycles += 1;
        if let Some(row) = run.last() {
            ones += row_ones(row);
        }
    }
    Ok(Count { cycles, ones })
}
