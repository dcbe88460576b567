//! Which steps have a table of words, and the words of a table.

ghost use Rattle.std.specs.Prelude.{◌≡◌, ◌≤◌, ◌<◌, ◌-◌, ◌^◌, ◌++◌, ◌↔◌, IsTrue, IfOk, OnOk};
ghost use Rattle.lid_base.specs.Each.{from_each};
ghost use Rattle.lid_base.specs.Lists.{Extends};
ghost use Rattle.lid_cover.specs.Cover.{IsCover};
ghost use Rattle.lid_strict_engine.specs.Programs.{cover_with, step_cover, IsSpan};
ghost use Rattle.lid_strict_tables.specs.Wide.{word_of, IsTabled, IsTableOf};

use crate::mask::masks_of;
use crate::word::word_at;
use lid_cover::Cube;
use lid_strict_engine::ProgramStep;
use std::alloc::AllocError;

/// Whether a step has a table of words.
pub fn is_tabled(step: ProgramStep) -> bool
    ensures { IsTrue result ↔ IsTabled step }
{
    if step.width < 7 || step.width > 12 {
        return false;
    }
    1usize << (step.width - 7) <= step.cubes.end.saturating_sub(step.cubes.start)
}

/// Appends the words of the table of a cover.
fn push_words(words: &mut Vec<u64>, inputs: u32, on: bool, cubes: &[Cube]) -> Result<(), AllocError>
    requires many { 6 ≤ inputs }
    requires few { inputs ≤ 12 }
    requires cover { IsCover (cover_with inputs on cubes.now) }
    ensures { OnOk result (words.new.items ≡ words.old.items ++ from_each (word_of (cover_with inputs on cubes.now)) 0 (2 ^ (inputs - 6))) }
{
    let masks = masks_of(*words.allocator(), cubes)?;
    for high in 0..1u64 << (inputs - 6) {
        words.push(word_at(on, cubes, masks.as_slice(), high))?;
    }
    Ok(())
}

/// What the table of a step is: one number where it reads few nets; where it has a table of words these are appended, and
/// it is the place of the first.
///
/// # Errors
/// Where there is no memory.
pub fn push_table(
    words: &mut Vec<u64>,
    cubes: &[Cube],
    step: ProgramStep,
) -> Result<u64, AllocError>
    requires rows { IsSpan cubes.now step.cubes }
    requires cover { IsCover (step_cover cubes.now step) }
    ensures is { IfOk result (λ table. IsTableOf words.new.items cubes.now step table) }
    ensures kept { OnOk result (Extends words.old.items words.new.items) }
{
    if !is_tabled(step) {
        return Ok(step.table);
    }
    let first = words.len() as u64;
    let own = &cubes[step.cubes.start..step.cubes.end];
    push_words(words, step.width, step.on, own)?;
    Ok(first)
}
