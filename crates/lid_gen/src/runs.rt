//! The rows and the relay stations of a run.

ghost use Rattle.std.specs.Prelude.{◌≡◌, ◌≤◌, ◌*◌, IfOk, OnOk};
ghost use Rattle.lid_gen.specs.Draws.{state_after};
ghost use Rattle.lid_gen.specs.Runs.{row_from, rows_from, generated_rows, generated_relays};

use crate::draws::Draws;
use crate::names::numbered_names;
use lid_base::Items;
use lid_texts::Rows;
use std::alloc::{AllocError, Global};

/// A row of four bits.
fn draw_row(alloc: Global, draws: &mut Draws) -> Result<Items<bool>, AllocError>
    ensures row { IfOk result (λ row. row ≡ row_from draws.old.state) }
    ensures state { OnOk result (draws.new.state ≡ state_after 4 draws.old.state) }
{
    let mut bits = Vec::with_capacity(alloc, 4)?;
    for _ in 0..4u32 {
        bits.push(draws.draw(2) == 1)?;
    }
    Ok(Items::from_vec(bits))
}

/// So many rows of four bits.
fn draw_rows(alloc: Global, rows: u32, mut draws: Draws) -> Result<Items<Items<bool>>, AllocError>
    ensures { IfOk result (λ bits. bits ≡ rows_from draws.state rows) }
{
    let mut bits = Vec::with_capacity(alloc, rows as usize)?;
    for _ in 0..rows {
        bits.push(draw_row(alloc, &mut draws)?)?;
    }
    Ok(Items::from_vec(bits))
}

/// So many rows for the inputs of the design of the seed with so many shells, by the draws after those
/// of the design. There are at most 2,000 shells.
///
/// # Errors
/// Where there is no memory.
#[tactic(auto, unfolding(crate::specs::Runs::generated_rows))]
pub fn run_rows(alloc: Global, seed: u64, shells: u32, rows: u32) -> Result<Rows, AllocError>
    requires { shells ≤ 2000 }
    ensures { IfOk result (λ r. r ≡ generated_rows seed shells rows) }
{
    let mut draws = Draws::begin(seed);
    draws.skip(2 * shells + 4);
    let columns = numbered_names(alloc, b"x")?;
    Ok(Rows {
        columns,
        bits: draw_rows(alloc, rows, draws)?,
    })
}

/// How many relay stations stand on each channel of the run, by the draws after those of the rows: 0 to 3.
/// There are at most 2,000 shells and 1,000,000 rows.
///
/// # Errors
/// Where there is no memory.
#[tactic(auto, unfolding(crate::specs::Runs::generated_relays))]
pub fn run_relays(
    alloc: Global,
    seed: u64,
    shells: u32,
    rows: u32,
    channels: u32,
) -> Result<Vec<u32>, AllocError>
    requires shells { shells ≤ 2000 }
    requires rows { rows ≤ 1000000 }
    ensures { IfOk result (λ relays. relays.items ≡ generated_relays seed shells rows channels) }
{
    let mut draws = Draws::begin(seed);
    draws.skip(2 * shells + 4 + 4 * rows);
    let mut relays = Vec::with_capacity(alloc, channels as usize)?;
    for _ in 0..channels {
        relays.push(draws.draw(4))?;
    }
    Ok(relays)
}
