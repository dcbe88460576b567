//! An order of steps by level, kind and width. Nothing is promised of it.

ghost use Rattle.lid_strict_engine.specs.Programs.{IsProgram};

use lid_strict_engine::{Program, ProgramStep};
use lid_strict_tables::is_tabled;
use std::alloc::{AllocError, Global};

/// The greatest level that is told apart.
const MOST_LEVEL: u64 = 33_554_431;

/// One more than the greatest level of the nets that a step reads; it saturates.
fn level_of(step: ProgramStep, reads: &[u32], levels: &[u32]) -> u32 {
    let mut most = 0;
    for place in 0..step.width as usize {
        let net = reads
            .get(step.first.wrapping_add(place))
            .copied()
            .unwrap_or(0);
        let level = levels.get(net as usize).copied().unwrap_or(0);
        if level > most {
            most = level;
        }
    }
    most.saturating_add(1)
}

/// The kind of a step: its width where it is run by a table, and else a number above all of these, by its width.
fn kind_of(step: ProgramStep) -> u64 {
    let width = u64::from(step.width);
    if width < 7 || is_tabled(step) {
        width % 64
    } else {
        64 + width % 64
    }
}

/// A number for each step by which steps are ordered: its level, as far as levels are told apart, then its kind, then its place.
fn keys_of(alloc: Global, program: &Program) -> Result<Vec<u64>, AllocError> {
    let mut levels = Vec::from_elem(alloc, 0u32, program.nets)?;
    let mut keys = Vec::with_capacity(alloc, program.steps.len())?;
    let mut place = 0u64;
    for step in program.steps.as_slice() {
        let level = level_of(*step, program.reads.as_slice(), levels.as_slice());
        if let Some(seen) = levels.get_mut(step.out as usize) {
            *seen = level;
        }
        let kind = kind_of(*step);
        keys.push(
            (u64::from(level).min(MOST_LEVEL) << 39) | (kind << 32) | (place % 4_294_967_296),
        )?;
        place = place.wrapping_add(1);
    }
    Ok(keys)
}

/// The places of the steps of a program, those of a lower level first, and of one level those with a table before
/// the others, and of these those with fewer reads.
pub(crate) fn propose(alloc: Global, program: &Program) -> Result<Vec<usize>, AllocError> {
    let mut keys = keys_of(alloc, program)?;
    keys.sort_unstable();
    let mut order = Vec::with_capacity(alloc, keys.len())?;
    for key in keys.as_slice() {
        order.push((*key % 4_294_967_296) as usize)?;
    }
    Ok(order)
}
