//! The order in which a program is run: that by level and width is proposed, and tested before it is taken.

ghost use Rattle.std.specs.Prelude.{◌≡◌, ◌≤◌, ◌<◌, ◌+◌, ◌↔◌, ℕ, true, IsTrue, length, Some, slice_get, get_or, IfOk};
ghost use Rattle.std.specs.List.{AllByRecursion};
ghost use Rattle.lid_base.specs.Lists.{Among};
ghost use Rattle.lid_base.specs.Each.{from_each};
ghost use Rattle.lid_strict_engine.specs.declared.program.ProgramStep.{ProgramStep};
ghost use Rattle.lid_strict_engine.specs.Programs.{program_covers, IsStep, IsProgram};
ghost use Rattle.lid_strict_widths.specs.Steps.{steps_at, own_reads};
ghost use Rattle.lid_strict_widths.specs.Orders.{IsRunOrder, AreLastWrites, ReadsPast, WritesAll};

use crate::levels::propose;
use lid_strict_engine::{Program, ProgramStep};
use std::alloc::{AllocError, Global};

/// The steps at some places.
pub(crate) fn collect_steps(
    alloc: Global,
    steps: &[ProgramStep],
    places: &[usize],
) -> Result<Vec<ProgramStep>, AllocError>
    requires { AllByRecursion (λ k. k < length steps.now) places.now }
    ensures { IfOk result (λ picked. picked.items ≡ steps_at steps.now places.now) }
{
    let mut picked = Vec::with_capacity(alloc, places.len())?;
    for place in places {
        picked.push(steps[*place])?;
    }
    Ok(picked)
}

/// Whether some numbers are places of steps.
fn are_places(numbers: &[usize], steps: &[ProgramStep]) -> bool
    ensures { IsTrue result ↔ AllByRecursion (λ k. k < length steps.now) numbers.now }
{
    numbers.iter().all(|number| *number < steps.len())
}

/// For each net below a number the place after the last step that writes it, and 0 where none does.
fn last_writes(alloc: Global, nets: usize, steps: &[ProgramStep]) -> Result<Vec<usize>, AllocError>
    requires { AllByRecursion (λ s. s.out < nets) steps.now }
    ensures long { IfOk result (λ last. length last.items ≡ nets) }
    ensures are { IfOk result (λ last. AreLastWrites steps.now last.items) }
{
    let mut last = Vec::from_elem(alloc, 0, nets)?;
    for j in 0..steps.len() {
        last[steps[j].out as usize] = j + 1;
    }
    Ok(last)
}

/// Whether the last writes of some nets are before a place.
fn are_past(nets: &[u32], last: &[usize], place: usize) -> bool
    requires { AllByRecursion (λ k. k < length last.now) nets.now }
    ensures { result ≡ true → AllByRecursion (λ k. get_or last.now k 0 ≤ place) nets.now }
{
    for net in nets {
        if last[*net as usize] > place {
            return false;
        }
    }
    true
}

/// Whether no step reads what it writes or a later one.
fn reads_past(reads: &[u32], steps: &[ProgramStep], last: &[usize]) -> bool
    requires reads { AllByRecursion (λ k. k < length last.now) reads.now }
    requires steps { AllByRecursion (λ s. s.first + s.width ≤ length reads.now) steps.now }
    ensures { result ≡ true → ReadsPast reads.now steps.now last.now }
{
    for j in 0..steps.len() {
        let first = steps[j].first;
        let nets = &reads[first..first + steps[j].width as usize];
        if !are_past(nets, last, j) {
            return false;
        }
    }
    true
}

/// Whether what each of some steps writes is written.
fn writes_all(steps: &[ProgramStep], last: &[usize]) -> bool
    requires { AllByRecursion (λ s. s.out < length last.now) steps.now }
    ensures { result ≡ true → WritesAll steps.now last.now }
{
    for step in steps {
        if last[step.out as usize] == 0 {
            return false;
        }
    }
    true
}

/// Whether some steps of a program may be run in place of all of it.
fn may_stand_in(program: &Program, steps: &[ProgramStep], last: &[usize]) -> bool
    requires ready { IsProgram program.now }
    requires steps { AllByRecursion (λ s. Among s program.now.steps.items) steps.now }
    requires long { length last.now ≡ program.now.nets }
    ensures reads { result ≡ true → ReadsPast program.now.reads.items steps.now last.now }
    ensures writes { result ≡ true → WritesAll program.now.steps.items last.now }
{
    writes_all(program.steps.as_slice(), last) && reads_past(program.reads.as_slice(), steps, last)
}

/// Whether a program may be run in an order.
fn may_run_in(program: &Program, order: &[usize]) -> Result<bool, AllocError>
    requires { IsProgram program.now }
    ensures { IfOk result (λ may. may ≡ true → IsRunOrder (program_covers program.now) order.now) }
{
    if !are_places(order, program.steps.as_slice()) {
        return Ok(false);
    }
    let alloc = *program.steps.allocator();
    let steps = collect_steps(alloc, program.steps.as_slice(), order)?;
    let last = last_writes(alloc, program.nets, steps.as_slice())?;
    Ok(may_stand_in(program, steps.as_slice(), last.as_slice()))
}

/// The numbers below one, in order.
fn numbers_below(alloc: Global, count: usize) -> Result<Vec<usize>, AllocError>
    ensures { IfOk result (λ numbers. numbers.items ≡ from_each (λ k. k) 0 count) }
{
    let mut numbers = Vec::with_capacity(alloc, count)?;
    for number in 0..count {
        numbers.push(number)?;
    }
    Ok(numbers)
}

/// The order in which the steps of a program stand.
///
/// # Errors
/// Where there is no memory.
pub fn as_laid(program: &Program) -> Result<Vec<usize>, AllocError>
    ensures { IfOk result (λ order. IsRunOrder (program_covers program.now) order.items) }
{
    numbers_below(*program.steps.allocator(), program.steps.len())
}

/// An order in which a program may be run: by level and width where that passes its test, else as its steps stand.
///
/// # Errors
/// Where there is no memory.
pub fn by_level(program: &Program) -> Result<Vec<usize>, AllocError>
    requires { IsProgram program.now }
    ensures { IfOk result (λ order. IsRunOrder (program_covers program.now) order.items) }
{
    let order = propose(*program.steps.allocator(), program)?;
    if may_run_in(program, order.as_slice())? {
        return Ok(order);
    }
    as_laid(program)
}
