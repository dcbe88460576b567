//! Pearls.

ghost use Rattle.std.specs.Prelude.{◌≡◌, ◌<◌, ◌++◌, ℕ, Bool, true, List, length, map, IfOk};
ghost use Rattle.std.specs.List.{AllByRecursion};
ghost use Rattle.std.specs.Arc.{arc_value};
ghost use Rattle.lid_design.specs.declared.FlatLatch.{FlatLatch};
ghost use Rattle.lid_design.specs.Flat.{latch_init, latch_input, IsFlat, IsRow, ReadEarlier};
ghost use Rattle.lid_strict_engine.specs.Programs.{program_covers, IsProgram};
ghost use Rattle.lid_strict_widths.specs.Groups.{IsByWidth};
ghost use Rattle.lid_pearl.specs.Pearls.{IsSplit};
ghost use Rattle.lid_pearl.specs.Inside.{held, AreLatchNets, AreSettled, IsOrdered, laid_flat, IsLaidOut, AreHeld};

use crate::same::{are_same_latches, is_same_program};
use crate::split::{Halves, find_marks, lay_out, run_by_level, take_apart};
use lid_design::{Flat, FlatLatch};
use lid_strict_engine::{copy_of, first_state, put_bits, take_bits};
use lid_strict_widths::{ByWidth, settle_by_width};
use std::alloc::{AllocError, Global};
use std::marker::Model;
use std::sync::Arc;

/// The latches of a pearl, and beside them what a row goes through: the nets that they give, and those that they read.
#[derive(Drop)]
struct Latches {
    all: Vec<FlatLatch>,
    held: Vec<u32>,
    taken: Vec<u32>,
}

/// The nets of a pearl: how many there are, those of its inputs and outputs, and its latches.
#[derive(Drop)]
struct Shape {
    nets: u32,
    ins: Vec<u32>,
    outs: Vec<u32>,
    latches: Latches,
}

/// The covers of a pearl, by level and width. No input leads to the early ones, which are run for the state alone.
#[derive(Drop)]
struct Plan {
    early: ByWidth,
    late: ByWidth,
}

/// What pearls can have in common: their nets, and their covers as they are run.
#[derive(Drop)]
struct Layout {
    shape: Shape,
    plan: Plan,
}

/// The bits that the latches hold, and those of the nets: of early nets those of the present state.
#[derive(Drop)]
struct Row {
    state: Vec<bool>,
    bits: Vec<bool>,
}

/// A flat part and its state. A contract sees these two alone. A copy has its layout in common with the pearl, which no
/// clause says, since only memory hangs on it.
#[derive(Drop)]
pub struct Pearl {
    layout: Arc<Layout>,
    row: Row,
}

impl Model for Pearl {
    ghost use Rattle.std.specs.Arc.{arc_value};
    ghost use Rattle.lid_pearl.specs.Pearls.{View};
    ghost use Rattle.lid_pearl.specs.Inside.{laid_flat, IsLaidOut, AreHeld};

    ghost Value = { View };

    ghost view = { λ p. record { flat = laid_flat (arc_value p.layout); state = p.row.state.items } };

    ghost invariant = { λ p. IsLaidOut (arc_value p.layout) × AreHeld (arc_value p.layout) p.row.state.items p.row.bits.items };
}

impl Pearl {
    ghost use Rattle.lid_pearl.specs.Pearls.{IsReordered, Shows, Steps};

    /// A pearl in its initial state. Its covers are those of the flat part, with those that no input
    /// leads to before the others.
    pub fn make(alloc: Global, flat: &Flat) -> Result<Pearl, AllocError>
        requires { IsFlat flat.now }
        ensures reordered { IfOk result (λ pearl. IsReordered flat.now pearl.flat) }
        ensures rules { IfOk result (λ pearl. IsFlat pearl.flat) }
        ensures state { IfOk result (λ pearl. pearl.state ≡ map latch_init flat.now.latches) }
    {
        let shape = shape_of(
            alloc,
            flat.nets,
            flat.ins.as_slice(),
            flat.outs.as_slice(),
            flat.latches.as_slice(),
        )?;
        let plan = plan_of(alloc, flat)?;
        begin(alloc, Layout { shape, plan })
    }

    /// A pearl in its initial state, as `make` gives it, of a flat part that is taken apart: what a cover
    /// takes is given back once it is laid out.
    pub fn lay_out(alloc: Global, flat: Flat) -> Result<Pearl, AllocError>
        requires { IsFlat flat }
        ensures reordered { IfOk result (λ pearl. IsReordered flat pearl.flat) }
        ensures rules { IfOk result (λ pearl. IsFlat pearl.flat) }
        ensures state { IfOk result (λ pearl. pearl.state ≡ map latch_init flat.latches) }
    {
        let shape = shape_of(
            alloc,
            flat.nets,
            flat.ins.as_slice(),
            flat.outs.as_slice(),
            flat.latches.as_slice(),
        )?;
        let plan = plan_apart(alloc, flat)?;
        begin(alloc, Layout { shape, plan })
    }

    /// An equal pearl, with the same layout: its own bits alone take memory.
    ///
    /// # Errors
    /// Memory is wanting, or the layout cannot have an owner more.
    pub fn copy(&self) -> Result<Pearl, AllocError>
        ensures { IfOk result (λ copy. copy ≡ self.now) }
    {
        let layout = Arc::try_clone(&self.layout)?;
        let row = copy_row(&self.row)?;
        Ok(Pearl { layout, row })
    }

    /// The same pearl, with the layout of another one in place of its own where the two are equal.
    pub fn with_layout_of(self, other: &Pearl) -> Pearl
        ensures { result ≡ self }
    {
        if !is_same_layout(&self.layout, &other.layout) {
            return self;
        }
        match Arc::try_clone(&other.layout) {
            Ok(layout) => {
                let Pearl { row, .. } = self;
                Pearl { layout, row }
            }
            Err(_) => self,
        }
    }

    /// The number of outputs.
    pub fn outs(&self) -> usize
        ensures { result ≡ length self.now.flat.outs }
    {
        self.layout.shape.outs.len()
    }

    /// Writes the outputs of the present state.
    pub fn outputs(&self, into: &mut [bool])
        requires { length into.old ≡ length self.now.flat.outs }
        ensures { Shows self.now into.new }
    {
        let bits = self.row.bits.as_slice();
        take_bits(bits, self.layout.shape.outs.as_slice(), into);
    }

    /// Moves the state by one row, and writes the new outputs.
    pub fn step(&mut self, inputs: &[bool], into: &mut [bool])
        requires inputs { length inputs.now ≡ length self.old.flat.ins }
        requires outs { length into.old ≡ length self.old.flat.outs }
        ensures { Steps self.old inputs.now self.new into.new }
    {
        run(
            &self.layout,
            self.row.state.as_mut_slice(),
            self.row.bits.as_mut_slice(),
            inputs,
            into,
        );
    }
}

/// A pearl of a layout, in its initial state.
fn begin(alloc: Global, layout: Layout) -> Result<Pearl, AllocError>
    requires { IsLaidOut layout }
    ensures flat { IfOk result (λ pearl. pearl.flat ≡ laid_flat layout) }
    ensures state { IfOk result (λ pearl. pearl.state ≡ map latch_init layout.shape.latches.all.items) }
{
    let row = first_row(alloc, &layout.shape, &layout.plan.early)?;
    let layout = Arc::new(alloc, layout)?;
    Ok(Pearl { layout, row })
}

/// Gives early nets the bits of a state, by the nets that latches give.
fn settle_state(outs: &[u32], early: &ByWidth, state: &[bool], bits: &mut [bool])
    requires is { IsByWidth early.now }
    requires below { AllByRecursion (λ k. k < early.now.program.nets) outs.now }
    requires reads { ReadEarlier outs.now (program_covers early.now.program) }
    requires long { length state.now ≡ length outs.now }
    requires size { length bits.old ≡ early.now.program.nets }
    ensures size { length bits.new ≡ length bits.old }
    ensures settled { (latches : List FlatLatch) → outs.now ≡ held latches → AreSettled latches early.now.program state.now bits.new }
{
    put_bits(bits, outs, state);
    settle_by_width(early, bits);
}

/// Goes on by a row: runs the late covers, takes the new state, settles it, and writes the outputs.
fn run(layout: &Layout, state: &mut [bool], bits: &mut [bool], inputs: &[bool], into: &mut [bool])
    requires laid { IsLaidOut layout.now }
    requires held { AreHeld layout.now state.old bits.old }
    requires inputs { length inputs.now ≡ length layout.now.shape.ins.items }
    requires outs { length into.old ≡ length layout.now.shape.outs.items }
    ensures held { AreHeld layout.now state.new bits.new }
    ensures state { (f : ℕ → Bool) → IsRow (program_covers layout.now.plan.early.program) f → IsRow (program_covers layout.now.plan.late.program) f
        → map f (held layout.now.shape.latches.all.items) ≡ state.old → map f layout.now.shape.ins.items ≡ inputs.now
        → state.new ≡ map f (map latch_input layout.now.shape.latches.all.items) }
    ensures outs { (f : ℕ → Bool) → IsRow (program_covers layout.now.plan.early.program) f
        → map f (held layout.now.shape.latches.all.items) ≡ state.new → into.new ≡ map f layout.now.shape.outs.items }
{
    let Layout { shape, plan } = layout;
    put_bits(bits, shape.ins.as_slice(), inputs);
    settle_by_width(&plan.late, bits);
    take_bits(bits, shape.latches.taken.as_slice(), state);
    settle_state(shape.latches.held.as_slice(), &plan.early, state, bits);
    take_bits(bits, shape.outs.as_slice(), into);
}

/// So many nets, and some of them as inputs, outputs and latches.
fn shape_of(
    alloc: Global,
    nets: u32,
    ins: &[u32],
    outs: &[u32],
    latches: &[FlatLatch],
) -> Result<Shape, AllocError>
    ensures nets { IfOk result (λ shape. shape.nets ≡ nets) }
    ensures ins { IfOk result (λ shape. shape.ins.items ≡ ins.now) }
    ensures outs { IfOk result (λ shape. shape.outs.items ≡ outs.now) }
    ensures latches { IfOk result (λ shape. shape.latches.all.items ≡ latches.now) }
    ensures sides { IfOk result (λ shape. AreLatchNets shape.latches.all.items shape.latches.held.items shape.latches.taken.items) }
{
    let ins = copy_of(alloc, ins)?;
    let outs = copy_of(alloc, outs)?;
    let latches = latches_of(alloc, latches)?;
    Ok(Shape {
        nets,
        ins,
        outs,
        latches,
    })
}

/// Some latches, with the nets that they give and read.
fn latches_of(alloc: Global, latches: &[FlatLatch]) -> Result<Latches, AllocError>
    ensures all { IfOk result (λ made. made.all.items ≡ latches.now) }
    ensures sides { IfOk result (λ made. AreLatchNets made.all.items made.held.items made.taken.items) }
{
    let all = copy_of(alloc, latches)?;
    let held = held_of(alloc, latches)?;
    let taken = taken_of(alloc, latches)?;
    Ok(Latches { all, held, taken })
}

/// The nets that latches give.
fn held_of(alloc: Global, latches: &[FlatLatch]) -> Result<Vec<u32>, AllocError>
    ensures { IfOk result (λ nets. nets.items ≡ held latches.now) }
{
    let mut nets = Vec::with_capacity(alloc, latches.len())?;
    for latch in latches {
        nets.push(latch.out)?;
    }
    Ok(nets)
}

/// The nets that latches read.
fn taken_of(alloc: Global, latches: &[FlatLatch]) -> Result<Vec<u32>, AllocError>
    ensures { IfOk result (λ nets. nets.items ≡ map latch_input latches.now) }
{
    let mut nets = Vec::with_capacity(alloc, latches.len())?;
    for latch in latches {
        nets.push(latch.input)?;
    }
    Ok(nets)
}

/// The covers of a flat part, early and late ones, by level and width.
fn plan_of(alloc: Global, flat: &Flat) -> Result<Plan, AllocError>
    requires { IsFlat flat.now }
    ensures is { IfOk result (λ plan. IsByWidth plan.early × IsByWidth plan.late) }
    ensures ordered { IfOk result (λ plan. IsOrdered flat.now.nets flat.now.ins flat.now.outs flat.now.latches plan.early.program plan.late.program) }
    ensures split { IfOk result (λ plan. IsSplit flat.now.covers (program_covers plan.early.program) (program_covers plan.late.program)) }
    ensures rules { IfOk result (λ plan. ReadEarlier (flat.now.ins ++ held flat.now.latches)
        (program_covers plan.early.program ++ program_covers plan.late.program)) }
{
    let marks = find_marks(alloc, flat)?;
    let early = lay_out(alloc, flat, marks.as_slice(), true)?;
    let late = lay_out(alloc, flat, marks.as_slice(), false)?;
    Ok(Plan { early, late })
}

/// The covers of a flat part that is taken apart, early and late ones, by level and width.
fn plan_apart(alloc: Global, flat: Flat) -> Result<Plan, AllocError>
    requires { IsFlat flat }
    ensures is { IfOk result (λ plan. IsByWidth plan.early × IsByWidth plan.late) }
    ensures ordered { IfOk result (λ plan. IsOrdered flat.nets flat.ins flat.outs flat.latches plan.early.program plan.late.program) }
    ensures split { IfOk result (λ plan. IsSplit flat.covers (program_covers plan.early.program) (program_covers plan.late.program)) }
    ensures rules { IfOk result (λ plan. ReadEarlier (flat.ins ++ held flat.latches)
        (program_covers plan.early.program ++ program_covers plan.late.program)) }
{
    let marks = find_marks(alloc, &flat)?;
    let Flat { nets, covers, .. } = flat;
    let halves = take_apart(alloc, nets, covers.into_vec(), marks.as_slice())?;
    run_halves(halves)
}

/// Covers that were laid out, by level and width.
fn run_halves(halves: Halves) -> Result<Plan, AllocError>
    requires { IsProgram halves.early × IsProgram halves.late }
    ensures is { IfOk result (λ plan. IsByWidth plan.early × IsByWidth plan.late) }
    ensures programs { IfOk result (λ plan. (plan.early.program ≡ halves.early) × (plan.late.program ≡ halves.late)) }
{
    let Halves { early, late } = halves;
    let early = run_by_level(early)?;
    let late = run_by_level(late)?;
    Ok(Plan { early, late })
}

/// The bits of a pearl as it begins.
fn first_row(alloc: Global, shape: &Shape, early: &ByWidth) -> Result<Row, AllocError>
    requires latches { AreLatchNets shape.now.latches.all.items shape.now.latches.held.items shape.now.latches.taken.items }
    requires nets { early.now.program.nets ≡ shape.now.nets }
    requires is { IsByWidth early.now }
    requires below { AllByRecursion (λ k. k < shape.now.nets) (held shape.now.latches.all.items) }
    requires reads { ReadEarlier (held shape.now.latches.all.items) (program_covers early.now.program) }
    ensures state { IfOk result (λ row. row.state.items ≡ map latch_init shape.now.latches.all.items) }
    ensures size { IfOk result (λ row. length row.bits.items ≡ shape.now.nets) }
    ensures settled { IfOk result (λ row. AreSettled shape.now.latches.all.items early.now.program row.state.items row.bits.items) }
{
    let outs = shape.latches.held.as_slice();
    let state = first_state(alloc, shape.latches.all.as_slice())?;
    let mut bits = Vec::from_elem(alloc, false, shape.nets as usize)?;
    settle_state(outs, early, state.as_slice(), bits.as_mut_slice());
    Ok(Row { state, bits })
}

/// Equal bits.
fn copy_row(row: &Row) -> Result<Row, AllocError>
    ensures state { IfOk result (λ copy. copy.state.items ≡ row.now.state.items) }
    ensures bits { IfOk result (λ copy. copy.bits.items ≡ row.now.bits.items) }
{
    let alloc = *row.bits.allocator();
    let state = copy_of(alloc, row.state.as_slice())?;
    let bits = copy_of(alloc, row.bits.as_slice())?;
    Ok(Row { state, bits })
}

/// Whether two layouts are the same, which is asked of their fields.
fn is_same_layout(layout: &Layout, other: &Layout) -> bool
    ensures { result ≡ true → (laid_flat layout.now ≡ laid_flat other.now)
        × ((state bits : List Bool) → AreHeld layout.now state bits → AreHeld other.now state bits) }
{
    if !is_same_shape(&layout.shape, &other.shape) {
        return false;
    }
    if !is_same_program(&layout.plan.early.program, &other.plan.early.program) {
        return false;
    }
    is_same_program(&layout.plan.late.program, &other.plan.late.program)
}

/// Whether two pearls have as many nets, and the same of them as inputs, outputs and latches.
fn is_same_shape(shape: &Shape, other: &Shape) -> bool
    ensures nets { result ≡ true → shape.now.nets ≡ other.now.nets }
    ensures ins { result ≡ true → shape.now.ins.items ≡ other.now.ins.items }
    ensures outs { result ≡ true → shape.now.outs.items ≡ other.now.outs.items }
    ensures latches { result ≡ true → shape.now.latches.all.items ≡ other.now.latches.all.items }
{
    shape.nets == other.nets
        && shape.ins.as_slice() == other.ins.as_slice()
        && shape.outs.as_slice() == other.outs.as_slice()
        && are_same_latches(shape.latches.all.as_slice(), other.latches.all.as_slice())
}
