//! Covers in the order of a pearl: early ones, that no input leads to, and late ones.

ghost use Rattle.std.specs.Prelude.{◌≡◌, ◌<◌, ◌+◌, ℕ, true, false, ◌++◌, ◌∷◌, [], length, filter, set, IfOk, OnOk};
ghost use Rattle.std.specs.List.{AllByRecursion, list_all};
ghost use Rattle.lid_base.specs.Lists.{Among};
ghost use Rattle.lid_design.specs.Flat.{IsFlat, IsFlatCover};
ghost use Rattle.lid_strict_engine.specs.Programs.{program_covers, IsProgram};
ghost use Rattle.lid_strict_engine.specs.Rows.{bit_at};
ghost use Rattle.lid_strict_widths.specs.Groups.{IsByWidth};
ghost use Rattle.lid_pearl.specs.Inside.{held, is_picked, AreKnownMarks};

use lid_design::{Flat, FlatCover, FlatLatch};
use lid_strict_engine::Program;
use lid_strict_widths::{ByWidth, by_level, by_width};
use std::alloc::{AllocError, Global};

/// Covers in two programs, in each of which their order is kept: those whose outputs are marked, and the others.
#[derive(Drop)]
pub struct Halves {
    pub early: Program,
    pub late: Program,
}

/// Whether all of some nets are marked.
fn are_marked(marks: &[bool], nets: &[u32]) -> bool
    requires { AllByRecursion (λ k. k < length marks.now) nets.now }
    ensures { result ≡ list_all (bit_at marks.now) nets.now }
{
    let mut all = true;
    for net in nets {
        all &= marks[*net as usize];
    }
    all
}

/// Marks the outputs of latches.
fn mark_held(marks: &mut [bool], latches: &[FlatLatch])
    requires below { AllByRecursion (λ k. k < length marks.old) (held latches.now) }
    ensures size { length marks.new ≡ length marks.old }
    ensures held { (k : ℕ) → Among k (held latches.now) → bit_at marks.new k ≡ true }
    ensures alone { (k : ℕ) → bit_at marks.new k ≡ true → (bit_at marks.old k ≡ false) → Among k (held latches.now) }
{
    for i in 0..latches.len() {
        marks[latches[i].out as usize] = true;
    }
}

/// Marks the output of a cover exactly where all that it reads is marked.
fn mark_cover(marks: &mut [bool], cover: &FlatCover)
    requires ins { AllByRecursion (λ k. k < length marks.old) cover.now.ins }
    requires out { cover.now.out < length marks.old }
    ensures { marks.new ≡ set marks.old cover.now.out (list_all (bit_at marks.old) cover.now.ins) }
{
    let known = are_marked(marks, cover.ins.as_slice());
    marks[cover.out as usize] = known;
}

/// Marks what is known in a state, where latches are marked: the output of each cover that reads marked
/// nets alone.
fn mark_covers(marks: &mut [bool], flat: &Flat)
    requires size { length marks.old ≡ flat.now.nets }
    requires rules { IsFlat flat.now }
    requires held { AreKnownMarks flat.now [] (bit_at marks.old) }
    ensures size { length marks.new ≡ length marks.old }
    ensures marked { AreKnownMarks flat.now flat.now.covers (bit_at marks.new) }
{
    let covers = flat.covers.as_slice();
    for i in 0..covers.len() {
        mark_cover(marks, &covers[i]);
    }
}

/// Marks what is known in a state, where no net is marked.
fn mark(marks: &mut [bool], flat: &Flat)
    requires size { length marks.old ≡ flat.now.nets }
    requires none { (k : ℕ) → bit_at marks.old k ≡ false }
    requires rules { IsFlat flat.now }
    ensures size { length marks.new ≡ length marks.old }
    ensures marked { AreKnownMarks flat.now flat.now.covers (bit_at marks.new) }
{
    mark_held(marks, flat.latches.as_slice());
    mark_covers(marks, flat);
}

/// The marks of what is known in a state.
pub fn find_marks(alloc: Global, flat: &Flat) -> Result<Vec<bool>, AllocError>
    requires { IsFlat flat.now }
    ensures size { IfOk result (λ marks. length marks.items ≡ flat.now.nets) }
    ensures marked { IfOk result (λ marks. AreKnownMarks flat.now flat.now.covers (bit_at marks.items)) }
{
    let mut marks = Vec::from_elem(alloc, false, flat.nets as usize)?;
    mark(marks.as_mut_slice(), flat);
    Ok(marks)
}

/// Whether a cover's output is marked, or is not, as wanted.
fn is_wanted(marks: &[bool], cover: &FlatCover, wanted: bool) -> bool
    requires { cover.now.out < length marks.now }
    ensures { result ≡ is_picked (bit_at marks.now) wanted cover.now }
{
    if wanted {
        marks[cover.out as usize]
    } else {
        !marks[cover.out as usize]
    }
}

/// Lays out the covers whose outputs are marked, or those whose outputs are not, by level and width.
pub fn lay_out(
    alloc: Global,
    flat: &Flat,
    marks: &[bool],
    wanted: bool,
) -> Result<ByWidth, AllocError>
    requires size { length marks.now ≡ flat.now.nets }
    requires rules { IsFlat flat.now }
    ensures is { IfOk result IsByWidth }
    ensures nets { IfOk result (λ x. x.program.nets ≡ flat.now.nets) }
    ensures shown { IfOk result (λ x. program_covers x.program ≡ filter (is_picked (bit_at marks.now) wanted) flat.now.covers) }
{
    let mut program = Program::new(alloc, flat.nets as usize);
    let covers = flat.covers.as_slice();
    for i in 0..covers.len() {
        push_if(&mut program, &covers[i], marks, wanted)?;
    }
    run_by_level(program)
}

/// A program with an order in which it is run.
pub fn run_by_level(program: Program) -> Result<ByWidth, AllocError>
    requires { IsProgram program }
    ensures is { IfOk result IsByWidth }
    ensures program { IfOk result (λ x. x.program ≡ program) }
{
    let order = by_level(&program)?;
    by_width(program, order)
}

/// Lays covers out in two programs, and lets go of each once it is laid out.
pub fn take_apart(
    alloc: Global,
    nets: u32,
    covers: Vec<FlatCover>,
    marks: &[bool],
) -> Result<Halves, AllocError>
    requires size { length marks.now ≡ nets }
    requires rules { AllByRecursion IsFlatCover covers.items }
    requires below { AllByRecursion (λ c. AllByRecursion (λ k. k < nets) c.ins × (c.out < nets)) covers.items }
    ensures laid { IfOk result (λ halves. IsProgram halves.early × IsProgram halves.late) }
    ensures nets { IfOk result (λ halves. (halves.early.nets ≡ nets) × (halves.late.nets ≡ nets)) }
    ensures early { IfOk result (λ halves. program_covers halves.early ≡ filter (is_picked (bit_at marks.now) true) covers.items) }
    ensures late { IfOk result (λ halves. program_covers halves.late ≡ filter (is_picked (bit_at marks.now) false) covers.items) }
{
    let mut halves = no_halves(alloc, nets, covers.as_slice(), marks)?;
    for cover in covers {
        push_half(&mut halves, &cover, marks)?;
    }
    Ok(halves)
}

/// Two programs without covers, each with room for its covers.
fn no_halves(
    alloc: Global,
    nets: u32,
    covers: &[FlatCover],
    marks: &[bool],
) -> Result<Halves, AllocError>
    ensures laid { IfOk result (λ halves. IsProgram halves.early × IsProgram halves.late) }
    ensures nets { IfOk result (λ halves. (halves.early.nets ≡ nets) × (halves.late.nets ≡ nets)) }
    ensures none { IfOk result (λ halves. (program_covers halves.early ≡ []) × (program_covers halves.late ≡ [])) }
{
    let early = program_with(alloc, nets, room_for(covers, marks, true))?;
    let late = program_with(alloc, nets, room_for(covers, marks, false))?;
    Ok(Halves { early, late })
}

/// How many covers there are, how many nets they read, and how many rows they have.
#[derive(Clone, Copy)]
struct Room {
    steps: usize,
    reads: usize,
    cubes: usize,
}

/// What the covers take whose outputs are marked, or those whose outputs are not. Nothing is promised of it.
fn room_for(covers: &[FlatCover], marks: &[bool], wanted: bool) -> Room {
    let mut room = Room {
        steps: 0,
        reads: 0,
        cubes: 0,
    };
    for cover in covers {
        let marked = marks.get(cover.out as usize).copied().unwrap_or(!wanted);
        if marked == wanted {
            room.steps = room.steps.wrapping_add(1);
            room.reads = room.reads.wrapping_add(cover.ins.len());
            room.cubes = room.cubes.wrapping_add(cover.cover.cubes.len());
        }
    }
    room
}

/// A program without covers, with room for some.
#[tactic(auto, unfolding(lid_strict_engine::specs::Programs::program_covers))]
fn program_with(alloc: Global, nets: u32, room: Room) -> Result<Program, AllocError>
    ensures laid { IfOk result IsProgram }
    ensures nets { IfOk result (λ p. p.nets ≡ nets) }
    ensures none { IfOk result (λ p. program_covers p ≡ []) }
{
    let steps = Vec::with_capacity(alloc, room.steps)?;
    let reads = Vec::with_capacity(alloc, room.reads)?;
    let cubes = Vec::with_capacity(alloc, room.cubes)?;
    let nets = nets as usize;
    Ok(Program {
        nets,
        steps,
        reads,
        cubes,
    })
}

/// Adds a cover to the program in which it belongs.
fn push_half(halves: &mut Halves, cover: &FlatCover, marks: &[bool]) -> Result<(), AllocError>
    requires laid { IsProgram halves.old.early × IsProgram halves.old.late }
    requires nets { (length marks.now ≡ halves.old.early.nets) × (length marks.now ≡ halves.old.late.nets) }
    requires rules { IsFlatCover cover.now }
    requires below { AllByRecursion (λ k. k < length marks.now) cover.now.ins × (cover.now.out < length marks.now) }
    ensures laid { OnOk result (IsProgram halves.new.early × IsProgram halves.new.late) }
    ensures nets { (halves.new.early.nets ≡ halves.old.early.nets) × (halves.new.late.nets ≡ halves.old.late.nets) }
    ensures early { OnOk result (program_covers halves.new.early ≡ program_covers halves.old.early ++ filter (is_picked (bit_at marks.now) true) (cover.now ∷ [])) }
    ensures late { OnOk result (program_covers halves.new.late ≡ program_covers halves.old.late ++ filter (is_picked (bit_at marks.now) false) (cover.now ∷ [])) }
{
    push_if(&mut halves.early, cover, marks, true)?;
    push_if(&mut halves.late, cover, marks, false)?;
    Ok(())
}

/// Adds a cover where its output is marked, or is not, as wanted.
fn push_if(
    program: &mut Program,
    cover: &FlatCover,
    marks: &[bool],
    wanted: bool,
) -> Result<(), AllocError>
    requires laid { IsProgram program.old }
    requires rules { IsFlatCover cover.now }
    requires below { AllByRecursion (λ k. k < program.old.nets) cover.now.ins × (cover.now.out < program.old.nets) }
    requires size { length marks.now ≡ program.old.nets }
    ensures laid { OnOk result (IsProgram program.new) }
    ensures nets { program.new.nets ≡ program.old.nets }
    ensures shown { OnOk result (program_covers program.new ≡ program_covers program.old ++ filter (is_picked (bit_at marks.now) wanted) (cover.now ∷ [])) }
{
    if !is_wanted(marks, cover, wanted) {
        return Ok(());
    }
    program.push(cover.ins.as_slice(), cover.out, &cover.cover)
}
