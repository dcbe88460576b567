//! The wires of the nets of a shell.

ghost use Rattle.std.specs.Prelude.{◌≡◌, ◌<◌, map, length, IfOk};
ghost use Rattle.std.specs.List.{AllByRecursion};
ghost use Rattle.lid_base.specs.Each.{from_each};
ghost use Rattle.lid_design.specs.Flat.{IsFlat, IsFlatCover, latch_out};
ghost use Rattle.lid_emit_cells.specs.declared.wire.Wire.TheVariants.{Now, Later};
ghost use Rattle.lid_emit_shells.specs.Filling.{overwritten, passed_by, passed, cover_out, is_passing, wire_read, here_of, after_of, skips_of, AreNetsWithin, IsCoverWithin};

use lid_check_rules::passes_on;
use lid_design::{Flat, FlatCover, FlatLatch};
use lid_emit_cells::Wire;
use std::alloc::{AllocError, Global};

/// The wires of so many nets of shell v.
fn wires_now(alloc: Global, v: u32, nets: u32) -> Result<Vec<Wire>, AllocError>
    ensures { IfOk result (λ wires. wires.items ≡ from_each (Now v) 0 nets) }
{
    let mut wires = Vec::with_capacity(alloc, nets as usize)?;
    for k in 0..nets {
        wires.push(Wire::Now(v, k))?;
    }
    Ok(wires)
}

/// The wires of so many nets of shell v after a firing.
fn wires_later(alloc: Global, v: u32, nets: u32) -> Result<Vec<Wire>, AllocError>
    ensures { IfOk result (λ wires. wires.items ≡ from_each (Later v) 0 nets) }
{
    let mut wires = Vec::with_capacity(alloc, nets as usize)?;
    for k in 0..nets {
        wires.push(Wire::Later(v, k))?;
    }
    Ok(wires)
}

/// The wires of the nets of a shell, now and after a firing.
#[derive(Drop)]
pub(crate) struct Wires {
    pub(crate) here: Vec<Wire>,
    pub(crate) after: Vec<Wire>,
}

/// Gives some nets their wires, in order.
fn put_wires(wires: &mut Vec<Wire>, nets: &[u32], values: &[Wire])
    requires within { AreNetsWithin (length wires.old.items) nets.now }
    requires long { length values.now ≡ length nets.now }
    ensures { wires.new.items ≡ overwritten nets.now values.now wires.old.items }
{
    for j in 0..nets.len() {
        wires[nets[j] as usize] = values[j];
    }
}

/// Gives the net of each latch the wire that the latch reads.
fn put_latches(wires: &mut Vec<Wire>, latches: &[FlatLatch], here: &[Wire])
    requires within { AllByRecursion (λ latch. (latch.input < length here.now) × (latch.out < length wires.old.items)) latches.now }
    ensures { wires.new.items ≡ overwritten (map latch_out latches.now) (map (wire_read here.now) latches.now) wires.old.items }
{
    for latch in latches {
        wires[latch.out as usize] = here[latch.input as usize];
    }
}

/// Gives the net of a cover that passes its input on the wire of the net that it reads.
fn pass_by(wires: &mut Vec<Wire>, c: &FlatCover)
    requires rules { IsFlatCover c.now }
    requires within { IsCoverWithin (length wires.old.items) c.now }
    ensures { wires.new.items ≡ passed_by c.now wires.old.items }
{
    if passes_on(&c.cover) {
        wires[c.out as usize] = wires[c.ins.as_slice()[0] as usize];
    }
}

/// Gives the nets of covers that pass their input on the wires of the nets that they read, in order.
fn pass_on(wires: &mut Vec<Wire>, covers: &[FlatCover])
    requires rules { AllByRecursion IsFlatCover covers.now }
    requires within { AllByRecursion (IsCoverWithin (length wires.old.items)) covers.now }
    ensures { wires.new.items ≡ passed covers.now wires.old.items }
{
    for c in covers {
        pass_by(wires, c);
    }
}

/// Marks the nets of covers that pass their input on.
fn mark(marks: &mut Vec<bool>, covers: &[FlatCover])
    requires rules { AllByRecursion IsFlatCover covers.now }
    requires within { AllByRecursion (IsCoverWithin (length marks.old.items)) covers.now }
    ensures { marks.new.items ≡ overwritten (map cover_out covers.now) (map is_passing covers.now) marks.old.items }
{
    for c in covers {
        marks[c.out as usize] = passes_on(&c.cover);
    }
}

/// For each net whether it has the wires of another.
///
/// # Errors
/// Where there is no memory.
pub(crate) fn mark_passing(alloc: Global, flat: &Flat) -> Result<Vec<bool>, AllocError>
    requires { IsFlat flat.now }
    ensures { IfOk result (λ marks. marks.items ≡ skips_of flat.now) }
{
    let mut marks = Vec::from_elem(alloc, false, flat.nets as usize)?;
    mark(&mut marks, flat.covers.as_slice());
    Ok(marks)
}

/// The wires of the nets of shell v, whose inputs have these.
fn wires_here(alloc: Global, v: u32, flat: &Flat, reads: &[Wire]) -> Result<Vec<Wire>, AllocError>
    requires rules { IsFlat flat.now }
    requires long { length reads.now ≡ length flat.now.ins }
    ensures { IfOk result (λ here. here.items ≡ here_of v flat.now reads.now) }
{
    let mut here = wires_now(alloc, v, flat.nets)?;
    put_wires(&mut here, flat.ins.as_slice(), reads);
    pass_on(&mut here, flat.covers.as_slice());
    Ok(here)
}

/// The wires of the nets of shell v after a firing, with the wires that inputs read and those of the nets
/// before it.
fn wires_after(
    alloc: Global,
    v: u32,
    flat: &Flat,
    reads: &[Wire],
    here: &[Wire],
) -> Result<Vec<Wire>, AllocError>
    requires rules { IsFlat flat.now }
    requires long { length reads.now ≡ length flat.now.ins }
    requires here { length here.now ≡ flat.now.nets }
    ensures { IfOk result (λ after. after.items ≡ after_of v flat.now reads.now here.now) }
{
    let mut after = wires_later(alloc, v, flat.nets)?;
    put_wires(&mut after, flat.ins.as_slice(), reads);
    put_latches(&mut after, flat.latches.as_slice(), here);
    pass_on(&mut after, flat.covers.as_slice());
    Ok(after)
}

/// The wires of the nets of shell v, whose inputs have these.
///
/// # Errors
/// Where there is no memory.
pub(crate) fn wires_of(
    alloc: Global,
    v: u32,
    flat: &Flat,
    reads: &[Wire],
) -> Result<Wires, AllocError>
    requires rules { IsFlat flat.now }
    requires long { length reads.now ≡ length flat.now.ins }
    ensures here { IfOk result (λ wires. wires.here.items ≡ here_of v flat.now reads.now) }
    ensures after { IfOk result (λ wires. wires.after.items ≡ after_of v flat.now reads.now (here_of v flat.now reads.now)) }
{
    let here = wires_here(alloc, v, flat, reads)?;
    let after = wires_after(alloc, v, flat, reads, here.as_slice())?;
    Ok(Wires { here, after })
}
