//! One row: the covers of a program are run, group by group.

ghost use Rattle.std.specs.Prelude.{◌≡◌, ◌≤◌, ◌<◌, ◌+◌, ◌^◌, IsTrue, ℕ, Bool, List, length, map, Some, slice_get};
ghost use Rattle.std.specs.List.{AllByRecursion};
ghost use Rattle.lid_strict_engine.specs.Truth.{is_set, IsTruthTable};
ghost use Rattle.lid_cover.specs.declared.Cover.{Cover};
ghost use Rattle.lid_cover.specs.Cover.{cover_value};
ghost use Rattle.lid_design.specs.Flat.{IsRow, ReadEarlier};
ghost use Rattle.lid_strict_engine.specs.Programs.{program_covers};
ghost use Rattle.lid_strict_engine.specs.Rows.{bit_at, AreRightAt, known_after};
ghost use Rattle.lid_strict_tables.specs.Wide.{IsWideTable};
ghost use Rattle.lid_strict_widths.specs.Steps.{reads_before};
ghost use Rattle.lid_strict_widths.specs.Groups.{IsGroup, run_steps, run_covers, IsByWidth, RightUpTo};

use crate::group::{ByWidth, Group};
use crate::packing::{Five, Four, One, Packing, Six, Three, Two};
use crate::rows::value_of_step;
use lid_strict_engine::ProgramStep;

/// A bit of a truth table.
fn bit_of(table: u64, place: u64) -> bool
    requires { place < 64 }
    ensures { result ≡ is_set table place }
{
    (table >> place) % 2 == 1
}

/// The value of a cover of this width, by its table.
fn value_by_table<P: Packing>(table: u64, nets: &[u32], bits: &[bool]) -> bool
    requires width { length nets.now ≡ P.width }
    requires few { length nets.now ≤ 6 }
    requires below { AllByRecursion (λ k. k < length bits.now) nets.now }
    ensures { (cover : Cover) → IsTruthTable table cover → cover.inputs ≡ length nets.now → result ≡ cover_value cover (map (bit_at bits.now) nets.now) }
{
    bit_of(table, P::pack(bits, nets))
}

/// Runs the steps of a group of this width by their truth tables, and answers where the reads after theirs begin.
fn settle_by<P: Packing>(x: &ByWidth, group: Group, reads_at: usize, bits: &mut [bool]) -> usize
    requires is { IsByWidth x.now }
    requires group { IsGroup (run_steps x.now) group }
    requires width { group.width ≡ P.width }
    requires few { group.width ≤ 6 }
    requires at { reads_at ≡ reads_before (run_steps x.now) group.start }
    requires size { x.now.program.nets ≤ length bits.old }
    ensures at { result ≡ reads_before (run_steps x.now) group.end }
    ensures size { length bits.new ≡ length bits.old }
    ensures bits { RightUpTo (run_covers x.now) group.start bits.old group.end bits.new }
{
    let width = group.width as usize;
    let mut at = reads_at;
    for i in group.start..group.end {
        let nets = &x.reads.as_slice()[at..at + width];
        let value = value_by_table::<P>(x.tables[i], nets, bits);
        bits[x.outs[i] as usize] = value;
        at += width;
    }
    at
}

/// The value of a cover that reads six nets more than this, by its table of words.
fn value_by_words<P: Packing>(words: &[u64], first: u64, nets: &[u32], bits: &[bool]) -> bool
    requires width { length nets.now ≡ 6 + P.width }
    requires few { P.width ≤ 6 }
    requires below { AllByRecursion (λ k. k < length bits.now) nets.now }
    requires room { first + 2 ^ P.width ≤ length words.now }
    ensures { (cover : Cover) → IsWideTable words.now first cover → cover.inputs ≡ length nets.now → result ≡ cover_value cover (map (bit_at bits.now) nets.now) }
{
    let high = P::pack(bits, &nets[6..]);
    bit_of(words[(first + high) as usize], Six::pack(bits, &nets[..6]))
}

/// Runs the steps of a group that read six nets more than this by their tables of words, and answers where the reads after
/// theirs begin.
fn settle_by_words<P: Packing>(
    x: &ByWidth,
    group: Group,
    reads_at: usize,
    bits: &mut [bool],
) -> usize
    requires is { IsByWidth x.now }
    requires group { IsGroup (run_steps x.now) group }
    requires width { group.width ≡ 6 + P.width }
    requires few { P.width ≤ 6 }
    requires tabled { IsTrue group.tabled }
    requires at { reads_at ≡ reads_before (run_steps x.now) group.start }
    requires size { x.now.program.nets ≤ length bits.old }
    ensures at { result ≡ reads_before (run_steps x.now) group.end }
    ensures size { length bits.new ≡ length bits.old }
    ensures bits { RightUpTo (run_covers x.now) group.start bits.old group.end bits.new }
{
    let width = group.width as usize;
    let mut place = reads_at;
    for i in group.start..group.end {
        let nets = &x.reads.as_slice()[place..place + width];
        let value = value_by_words::<P>(x.words.as_slice(), x.tables[i], nets, bits);
        bits[x.outs[i] as usize] = value;
        place += width;
    }
    place
}

/// The step that is run after so many others.
fn step_at(x: &ByWidth, i: usize) -> ProgramStep
    requires is { IsByWidth x.now }
    requires within { i < length (run_steps x.now) }
    ensures { slice_get (run_steps x.now) i ≡ Some result }
{
    x.program.steps[x.order[i]]
}

/// Runs the steps of a group by the rows of their covers, and answers where the reads after theirs begin.
fn settle_by_rows(x: &ByWidth, group: Group, reads_at: usize, bits: &mut [bool]) -> usize
    requires is { IsByWidth x.now }
    requires group { IsGroup (run_steps x.now) group }
    requires at { reads_at ≡ reads_before (run_steps x.now) group.start }
    requires size { x.now.program.nets ≤ length bits.old }
    ensures at { result ≡ reads_before (run_steps x.now) group.end }
    ensures size { length bits.new ≡ length bits.old }
    ensures bits { RightUpTo (run_covers x.now) group.start bits.old group.end bits.new }
{
    let mut at = reads_at;
    for i in group.start..group.end {
        let step = step_at(x, i);
        let value = value_of_step(&x.program, step, bits);
        bits[step.out as usize] = value;
        at += step.width as usize;
    }
    at
}

/// Runs the steps of a group that have tables of words, and answers where the reads after theirs begin.
fn settle_tabled(x: &ByWidth, group: Group, reads_at: usize, bits: &mut [bool]) -> usize
    requires is { IsByWidth x.now }
    requires group { IsGroup (run_steps x.now) group }
    requires tabled { IsTrue group.tabled }
    requires at { reads_at ≡ reads_before (run_steps x.now) group.start }
    requires size { x.now.program.nets ≤ length bits.old }
    ensures at { result ≡ reads_before (run_steps x.now) group.end }
    ensures size { length bits.new ≡ length bits.old }
    ensures bits { RightUpTo (run_covers x.now) group.start bits.old group.end bits.new }
{
    match group.width {
        7 => settle_by_words::<One>(x, group, reads_at, bits),
        8 => settle_by_words::<Two>(x, group, reads_at, bits),
        9 => settle_by_words::<Three>(x, group, reads_at, bits),
        10 => settle_by_words::<Four>(x, group, reads_at, bits),
        11 => settle_by_words::<Five>(x, group, reads_at, bits),
        12 => settle_by_words::<Six>(x, group, reads_at, bits),
        _ => settle_by_rows(x, group, reads_at, bits),
    }
}

/// Runs the steps of a group, and answers where the reads after theirs begin.
fn settle_group(x: &ByWidth, group: Group, reads_at: usize, bits: &mut [bool]) -> usize
    requires is { IsByWidth x.now }
    requires group { IsGroup (run_steps x.now) group }
    requires at { reads_at ≡ reads_before (run_steps x.now) group.start }
    requires size { x.now.program.nets ≤ length bits.old }
    ensures at { result ≡ reads_before (run_steps x.now) group.end }
    ensures size { length bits.new ≡ length bits.old }
    ensures bits { RightUpTo (run_covers x.now) group.start bits.old group.end bits.new }
{
    if group.tabled {
        return settle_tabled(x, group, reads_at, bits);
    }
    match group.width {
        1 => settle_by::<One>(x, group, reads_at, bits),
        2 => settle_by::<Two>(x, group, reads_at, bits),
        3 => settle_by::<Three>(x, group, reads_at, bits),
        4 => settle_by::<Four>(x, group, reads_at, bits),
        5 => settle_by::<Five>(x, group, reads_at, bits),
        6 => settle_by::<Six>(x, group, reads_at, bits),
        _ => settle_by_rows(x, group, reads_at, bits),
    }
}

/// Runs the covers of a program. Where bits are right at some nets, and each cover reads these and the
/// outputs of covers before it alone, then they are right at the outputs of all covers too.
pub fn settle_by_width(x: &ByWidth, bits: &mut [bool])
    requires is { IsByWidth x.now }
    requires size { x.now.program.nets ≤ length bits.old }
    ensures size { length bits.new ≡ length bits.old }
    ensures bits { (f : ℕ → Bool) (known : List ℕ) → IsRow (program_covers x.now.program) f → ReadEarlier known (program_covers x.now.program)
        → AreRightAt f known bits.old → AreRightAt f (known_after known (program_covers x.now.program)) bits.new }
{
    let mut at = 0;
    for group in x.groups.as_slice() {
        at = settle_group(x, *group, at, bits);
    }
}
