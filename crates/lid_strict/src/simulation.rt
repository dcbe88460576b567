//! Runs of networks that are laid out.

ghost use Rattle.std.specs.Prelude.{◌≡◌, ◌+◌, ◌<◌, ℕ, Bool, List, [], length, map, slice_index_or, IfOk, OnOk};
ghost use Rattle.std.specs.List.{AllByRecursion};
ghost use Rattle.lid_design.specs.Network.{Table, IsStrict};
ghost use Rattle.lid_check_digraph.specs.Graphs.{IsOrder};
ghost use Rattle.lid_check_elab.specs.Elaborations.{shown_driver};
ghost use Rattle.lid_strict_engine.specs.Programs.{IsProgram};
ghost use Rattle.lid_strict_engine.specs.Rows.{bit_at};
ghost use Rattle.lid_check_parts.specs.Parts.{HasCover};
ghost use Rattle.lid_strict.specs.Networks.{driver_list, reads_of, AreTakenBelow, rows_at};
ghost use Rattle.lid_strict.specs.Layouts.{IsRunnable, IsSettled, IsEngineOf, FitsRow, HasRows, Gives};

use crate::layout::{Layout, lay_out};
use crate::source::RowSource;
use crate::stems::{stems_of, write_stems};
use crate::store::RowStore;
use lid_check_elab::ColumnDriver;
use lid_design::Design;
use lid_strict_engine::{copy_of, put_bits, take_bits};
use lid_strict_widths::{ByWidth, by_level, by_width, settle_by_width};
use std::alloc::{AllocError, Global};

/// The bit of a number, and 0 where there is none.
pub(crate) fn bit_of(bits: &[bool], number: u32) -> bool
    ensures { result ≡ bit_at bits.now number }
{
    bits.get(number as usize).copied().unwrap_or(false)
}

/// Writes the bits of some places of an input row, and 0 where it has none.
fn read_row<R: RowSource>(rows: &R, row: usize, places: &[u32], into: &mut [bool])
    requires row { row < length (R.rows rows.now) }
    requires wide { length into.old ≡ length places.now }
    ensures { into.new ≡ map (bit_at (slice_index_or (R.rows rows.now) row [])) places.now }
{
    for i in 0..places.len() {
        into[i] = rows.bit(row, places[i]);
    }
}

/// Writes the bits of some numbers.
fn pick(bits: &[bool], numbers: &[u32], into: &mut [bool])
    requires { length into.old ≡ length numbers.now }
    ensures { into.new ≡ map (bit_at bits.now) numbers.now }
{
    for i in 0..numbers.len() {
        into[i] = bit_of(bits, numbers[i]);
    }
}

/// The program of a layout as it is run: by level and width.
fn engine_of(layout: &Layout) -> Result<ByWidth, AllocError>
    requires { IsProgram layout.now.program }
    ensures { IfOk result (IsEngineOf layout.now) }
{
    let program = layout.program.copy()?;
    let order = by_level(&program)?;
    by_width(program, order)
}

/// Fills the bits of a row, from its inputs and what latches hold, and moves that on. It is compiled by itself, since
/// such a loop was once slower when it was inlined into its callers.
#[inline(never)]
fn run_row(
    layout: &Layout,
    engine: &ByWidth,
    inputs: &[bool],
    state: &mut [bool],
    bits: &mut [bool],
)
    requires runnable { IsRunnable layout.now }
    requires engine { IsEngineOf layout.now engine.now }
    requires inputs { length inputs.now ≡ length layout.now.places.items }
    requires state { length state.old ≡ length layout.now.held.items }
    requires bits { length bits.old ≡ layout.now.program.nets }
    ensures state_size { length state.new ≡ length layout.now.held.items }
    ensures bits_size { length bits.new ≡ layout.now.program.nets }
    ensures state { state.new ≡ map (bit_at bits.new) layout.now.taken.items }
    ensures bits { (row : List Bool) (f : ℕ → Bool) → inputs.now ≡ map (bit_at row) layout.now.places.items → FitsRow layout.now row state.old f
        → (k : ℕ) → IsSettled layout.now k → bit_at bits.new k ≡ f k }
{
    put_bits(bits, layout.held.as_slice(), state);
    put_bits(bits, layout.ins.as_slice(), inputs);
    settle_by_width(engine, bits);
    take_bits(bits, layout.taken.as_slice(), state);
}

/// What is run: a network that is laid out, and the numbers whose bits are asked for.
#[derive(Drop)]
pub(crate) struct Runnable {
    pub(crate) layout: Layout,
    pub(crate) outs: Vec<u32>,
}

/// Makes a network ready to run: lays it out by stems, and asks for the stems of some numbers.
pub(crate) fn make_ready(
    alloc: Global,
    design: &Design,
    drivers: &[ColumnDriver],
    order: &[u32],
    outs: &[u32],
) -> Result<Runnable, AllocError>
    requires ordered { IsOrder (reads_of (map (shown_driver design.now) drivers.now)) order.now }
    requires covers { AllByRecursion (HasCover design.now) drivers.now }
    requires taken { AreTakenBelow (map (shown_driver design.now) drivers.now) }
    requires outs { AllByRecursion (λ k. k < length drivers.now) outs.now }
    ensures runnable { IfOk result (λ ready. IsRunnable ready.layout) }
    ensures outs { IfOk result (λ ready. AllByRecursion (IsSettled ready.layout) ready.outs.items) }
    ensures many { IfOk result (λ ready. length ready.outs.items ≡ length outs.now) }
    ensures runs { IfOk result (λ ready. (rows : List (List Bool)) (b : Table ℕ) → IsStrict (driver_list (map (shown_driver design.now) drivers.now)) rows b
        → Gives ready rows b (rows_at outs.now b (length rows))) }
{
    let found = stems_of(alloc, design, drivers, order)?;
    let stems = found.as_slice();
    let layout = lay_out(alloc, design, drivers, order, stems)?;
    let mut asked = Vec::new(alloc);
    write_stems(stems, outs, &mut asked)?;
    Ok(Runnable {
        layout,
        outs: asked,
    })
}

/// What a run goes by.
#[derive(Drop)]
struct Simulation<'r, R> {
    layout: &'r Layout,
    engine: &'r ByWidth,
    outs: &'r [u32],
    rows: &'r R,
}

/// Runs what is laid out row by row, and puts the bits of some numbers in each row where none were put before.
pub(crate) fn run_ready<R: RowSource, W: RowStore>(
    alloc: Global,
    ready: &Runnable,
    rows: &R,
    into: &mut W,
) -> Result<(), AllocError>
    requires runnable { IsRunnable ready.now.layout }
    requires outs { AllByRecursion (IsSettled ready.now.layout) ready.now.outs.items }
    requires width { W.width (W.form into.old) ≡ length ready.now.outs.items }
    requires none { W.has into.old [] }
    ensures form { OnOk result (W.form into.new ≡ W.form into.old) }
    ensures rows { OnOk result (HasRows ready.now.layout ready.now.outs.items (R.rows rows.now) (W.has into.new)) }
{
    let engine = engine_of(&ready.layout)?;
    let run = Simulation {
        layout: &ready.layout,
        engine: &engine,
        outs: ready.outs.as_slice(),
        rows,
    };
    run_layout(alloc, &run, into)
}

/// Runs what is laid out row by row from the first bits of its latches on, and puts the bits of some numbers in each
/// row, where none were put before.
fn run_layout<R: RowSource, W: RowStore>(
    alloc: Global,
    run: &Simulation<'_, R>,
    into: &mut W,
) -> Result<(), AllocError>
    requires runnable { IsRunnable run.now.layout.now }
    requires engine { IsEngineOf run.now.layout.now run.now.engine.now }
    requires outs { AllByRecursion (IsSettled run.now.layout.now) run.now.outs.now }
    requires width { W.width (W.form into.old) ≡ length run.now.outs.now }
    requires none { W.has into.old [] }
    ensures form { OnOk result (W.form into.new ≡ W.form into.old) }
    ensures rows { OnOk result (HasRows run.now.layout.now run.now.outs.now (R.rows run.now.rows.now) (W.has into.new)) }
{
    let mut state = copy_of(alloc, run.layout.first.as_slice())?;
    let mut inputs = Vec::from_elem(alloc, false, run.layout.places.len())?;
    let mut bits = Vec::from_elem(alloc, false, run.layout.program.nets)?;
    let mut out = Vec::from_elem(alloc, false, run.outs.len())?;
    run_rows(
        run,
        state.as_mut_slice(),
        inputs.as_mut_slice(),
        bits.as_mut_slice(),
        out.as_mut_slice(),
        into,
    )
}

/// Runs what is laid out row by row, and puts the bits of some numbers in each row, where none were put before.
fn run_rows<R: RowSource, W: RowStore>(
    run: &Simulation<'_, R>,
    state: &mut [bool],
    inputs: &mut [bool],
    bits: &mut [bool],
    out: &mut [bool],
    into: &mut W,
) -> Result<(), AllocError>
    requires runnable { IsRunnable run.now.layout.now }
    requires engine { IsEngineOf run.now.layout.now run.now.engine.now }
    requires outs { AllByRecursion (IsSettled run.now.layout.now) run.now.outs.now }
    requires state { state.old ≡ run.now.layout.now.first.items }
    requires inputs { length inputs.old ≡ length run.now.layout.now.places.items }
    requires bits { length bits.old ≡ run.now.layout.now.program.nets }
    requires out { length out.old ≡ length run.now.outs.now }
    requires width { W.width (W.form into.old) ≡ length run.now.outs.now }
    requires none { W.has into.old [] }
    ensures form { OnOk result (W.form into.new ≡ W.form into.old) }
    ensures rows { OnOk result (HasRows run.now.layout.now run.now.outs.now (R.rows run.now.rows.now) (W.has into.new)) }
{
    for t in 0..run.rows.count() {
        read_row(run.rows, t, run.layout.places.as_slice(), inputs);
        run_row(run.layout, run.engine, inputs, state, bits);
        pick(bits, run.outs, out);
        into.push(out)?;
    }
    Ok(())
}
