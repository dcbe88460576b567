//! A program gets its groups.

ghost use Rattle.std.specs.Prelude.{◌≡◌, ◌≤◌, ◌<◌, ◌+◌, ◌↔◌, true, IsTrue, length, map, IfOk};
ghost use Rattle.std.specs.List.{AllByRecursion, flat_map};
ghost use Rattle.lid_cover.specs.Cover.{IsCover};
ghost use Rattle.lid_strict_engine.specs.Programs.{step_cover, program_covers, IsSpan, IsProgram};
ghost use Rattle.lid_strict_tables.specs.Wide.{IsTabled};
ghost use Rattle.lid_strict_widths.specs.Steps.{step_out, own_reads};
ghost use Rattle.lid_strict_widths.specs.Orders.{IsRunOrder};
ghost use Rattle.lid_strict_widths.specs.Groups.{IsGroup, Tile, AreTables, IsByWidth};

use crate::group::{ByWidth, Group, Tables};
use crate::ordering::collect_steps;
use lid_cover::Cube;
use lid_strict_engine::{Program, ProgramStep};
use lid_strict_tables::{is_tabled, push_table};
use std::alloc::{AllocError, Global};

/// The nets that steps write.
fn outs_of(alloc: Global, steps: &[ProgramStep]) -> Result<Vec<u32>, AllocError>
    ensures { IfOk result (λ outs. outs.items ≡ map step_out steps.now) }
{
    let mut outs = Vec::with_capacity(alloc, steps.len())?;
    for step in steps {
        outs.push(step.out)?;
    }
    Ok(outs)
}

/// The truth tables of steps, each as one number or in words.
fn tables_of(alloc: Global, cubes: &[Cube], steps: &[ProgramStep]) -> Result<Tables, AllocError>
    requires rows { AllByRecursion (λ s. IsSpan cubes.now s.cubes) steps.now }
    requires covers { AllByRecursion (λ s. IsCover (step_cover cubes.now s)) steps.now }
    ensures { IfOk result (λ kept. AreTables kept.words.items cubes.now steps.now kept.tables.items) }
{
    let mut tables = Vec::with_capacity(alloc, steps.len())?;
    let mut words = Vec::new(alloc);
    for step in steps {
        let table = push_table(&mut words, cubes, *step)?;
        tables.push(table)?;
    }
    Ok(Tables { words, tables })
}

/// The nets that steps read, step after step.
fn reads_of(alloc: Global, reads: &[u32], steps: &[ProgramStep]) -> Result<Vec<u32>, AllocError>
    requires { AllByRecursion (λ s. s.first + s.width ≤ length reads.now) steps.now }
    ensures { IfOk result (λ own. own.items ≡ flat_map (own_reads reads.now) steps.now) }
{
    let mut own = Vec::with_capacity(alloc, reads.len())?;
    for step in steps {
        let first = step.first;
        own.extend_from_slice(&reads[first..first + step.width as usize])?;
    }
    Ok(own)
}

/// Whether a step is one of these.
fn belongs(step: ProgramStep, width: u32, tabled: bool) -> bool
    ensures { result ≡ true → (step.width ≡ width) × (IsTrue tabled ↔ IsTabled step) }
{
    step.width == width && is_tabled(step) == tabled
}

/// A group from a step on (the longest, which no clause says).
fn group_from(steps: &[ProgramStep], start: usize) -> Group
    requires there { start < length steps.now }
    ensures start { result.start ≡ start }
    ensures more { start < result.end }
    ensures group { IsGroup steps.now result }
{
    let width = steps[start].width;
    let mut end = start + 1;
    let tabled = is_tabled(steps[start]);
    while end < steps.len() && belongs(steps[end], width, tabled) {
        end += 1;
    }
    Group {
        start,
        end,
        width,
        tabled,
    }
}

/// Steps in groups.
fn groups_of(alloc: Global, steps: &[ProgramStep]) -> Result<Vec<Group>, AllocError>
    ensures { IfOk result (λ groups. Tile steps.now 0 groups.items (length steps.now)) }
{
    let mut groups = Vec::new(alloc);
    let mut start = 0;
    while start < steps.len() {
        let group = group_from(steps, start);
        groups.push(group)?;
        start = group.end;
    }
    Ok(groups)
}

/// A program that is run in an order, with its steps in groups (the longest, which no clause says).
///
/// # Errors
/// Where there is no memory.
pub fn by_width(program: Program, order: Vec<usize>) -> Result<ByWidth, AllocError>
    requires ready { IsProgram program }
    requires order { IsRunOrder (program_covers program) order.items }
    ensures is { IfOk result IsByWidth }
    ensures program { IfOk result (λ x. x.program ≡ program) }
    ensures order { IfOk result (λ x. x.order.items ≡ order.items) }
{
    let alloc = *program.steps.allocator();
    let steps = collect_steps(alloc, program.steps.as_slice(), order.as_slice())?;
    let outs = outs_of(alloc, steps.as_slice())?;
    let kept = tables_of(alloc, program.cubes.as_slice(), steps.as_slice())?;
    let reads = reads_of(alloc, program.reads.as_slice(), steps.as_slice())?;
    let groups = groups_of(alloc, steps.as_slice())?;
    let Tables { words, tables } = kept;
    Ok(ByWidth {
        program,
        order,
        outs,
        words,
        tables,
        reads,
        groups,
    })
}
