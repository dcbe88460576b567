//! All shells of a system, and the wires of their nets.

ghost use Rattle.std.specs.Prelude.{◌≡◌, ◌+◌, ◌<◌, ◌≤◌, ℕ, Bool, List, length, Some, slice_get, IfOk};
ghost use Rattle.std.specs.List.{AllByRecursion};
ghost use Rattle.lid_design.specs.Flat.{IsFlat};
ghost use Rattle.lid_pearl.specs.Pearls.{Shows};
ghost use Rattle.lid_net_law.specs.Agreement.{IsSystemOf};
ghost use Rattle.lid_system.specs.Systems.{IsWellFormed};
ghost use Rattle.lid_system.specs.declared.Node.TheVariants as node;
ghost use Rattle.lid_emit_cells.specs.declared.shell.Shell.{Shell};
ghost use Rattle.lid_emit_shells.specs.Reading.{ReadsBelow, lasts_from};
ghost use Rattle.lid_emit_shells.specs.Filling.{shell_of, skips_of};
ghost use Rattle.lid_emit_shells.specs.Making.{IsMadeShell, AreBegun};
ghost use Rattle.lid_emit_shells.specs.Shells.{AreShells};

use crate::lasts::last_stations;
use crate::nets::{Wires, mark_passing, wires_of};
use crate::reads::input_wires;
use lid_base::Items;
use lid_check::Checked;
use lid_design::Flat;
use lid_emit_cells::Shell;
use lid_pearl::Pearl;
use lid_stations::Placed;
use lid_system::{InBit, Node, System, shells_stand_between_source_and_sink};
use std::alloc::{AllocError, Global};

/// The shells of a system in order, and for each the bits of its outputs in the first row.
#[derive(Drop)]
pub struct Shells {
    pub shells: Items<Shell>,
    pub begins: Items<Items<bool>>,
}

/// The shells of a design's system, whose channels have stations, with the wires of their nets.
///
/// # Errors
/// Where there is no memory.
pub fn make_shells(
    alloc: Global,
    checked: &Checked,
    placed: &Placed<'_>,
) -> Result<Shells, AllocError>
    requires { IsSystemOf checked.now placed.now.system }
    ensures { IfOk result (AreShells checked.now placed.now.system placed.now.placement) }
{
    let shells = shells_of(alloc, checked, placed)?;
    let begins = all_begins(alloc, placed.system)?;
    Ok(Shells {
        shells: Items::from_vec(shells),
        begins: Items::from_vec(begins),
    })
}

/// The shells of a design's system.
fn shells_of(
    alloc: Global,
    checked: &Checked,
    placed: &Placed<'_>,
) -> Result<Vec<Shell>, AllocError>
    requires { IsSystemOf checked.now placed.now.system }
    ensures count { IfOk result (λ shells. length placed.now.system.nodes ≡ length shells.items + 2) }
    ensures each { IfOk result (λ shells. (i : ℕ) (shell : Shell) → slice_get shells.items i ≡ Some shell
        → IsMadeShell checked.now placed.now.system (lasts_from 0 placed.now.placement.relays) (i + 1) shell) }
{
    let lasts = last_stations(alloc, placed.placement.relays.as_slice())?;
    all_shells(alloc, checked, placed.system, lasts.as_slice())
}

/// The shells of a design's system, by the last stations of channels.
fn all_shells(
    alloc: Global,
    checked: &Checked,
    system: &System,
    lasts: &[u32],
) -> Result<Vec<Shell>, AllocError>
    requires of { IsSystemOf checked.now system.now }
    requires system { IsWellFormed system.now }
    requires lasts { length lasts.now ≡ length system.now.channels }
    ensures count { IfOk result (λ shells. length system.now.nodes ≡ length shells.items + 2) }
    ensures each { IfOk result (λ shells. (i : ℕ) (shell : Shell)
        → slice_get shells.items i ≡ Some shell → IsMadeShell checked.now system.now lasts.now (i + 1) shell) }
{
    let mut shells = Vec::new(alloc);
    for v in 1..system.nodes.len() - 1 {
        shells.push(shell_at(alloc, checked, system, lasts, v as u32)?)?;
    }
    Ok(shells)
}

/// The shell at a node of a design's system, by the last stations of channels.
fn shell_at(
    alloc: Global,
    checked: &Checked,
    system: &System,
    lasts: &[u32],
    v: u32,
) -> Result<Shell, AllocError>
    requires of { IsSystemOf checked.now system.now }
    requires system { IsWellFormed system.now }
    requires lasts { length lasts.now ≡ length system.now.channels }
    requires shell { (0 < v) × (v + 1 < length system.now.nodes) }
    ensures { IfOk result (IsMadeShell checked.now system.now lasts.now v) }
{
    let (_, ins) = pearl_at(system, v);
    let flat = checked.flat(alloc, v - 1)?;
    make_shell(alloc, v, flat, lasts, ins)
}

/// The pearl at a node of a system, and what its inputs read.
fn pearl_at(system: &System, v: u32) -> (&Pearl, &[InBit])
    requires system { IsWellFormed system.now }
    requires shell { (0 < v) × (v + 1 < length system.now.nodes) }
    ensures { slice_get system.now.nodes v ≡ Some (node.Shell result.0.now result.1.now) }
{
    shells_stand_between_source_and_sink();
    match &system.nodes.as_slice()[v as usize] {
        Node::Shell { pearl, ins } => (pearl, ins.as_slice()),
        _ => unreachable!(),
    }
}

/// Shell v of a flat part, whose inputs read these, by the last stations of channels.
fn make_shell(
    alloc: Global,
    v: u32,
    flat: Flat,
    lasts: &[u32],
    ins: &[InBit],
) -> Result<Shell, AllocError>
    requires rules { IsFlat flat }
    requires width { length ins.now ≡ length flat.ins }
    requires below { AllByRecursion (ReadsBelow (length lasts.now)) ins.now }
    ensures { IfOk result (λ shell. shell ≡ shell_of v flat lasts.now ins.now) }
{
    let reads = input_wires(alloc, lasts, ins)?;
    let wires = wires_of(alloc, v, &flat, reads.as_slice())?;
    fill_shell(alloc, flat, wires)
}

/// A shell of a flat part and its wires.
fn fill_shell(alloc: Global, flat: Flat, wires: Wires) -> Result<Shell, AllocError>
    requires { IsFlat flat }
    ensures { IfOk result (λ shell. shell ≡ record { flat = flat; here = wires.here.items; after = wires.after.items; skips = skips_of flat }) }
{
    let skips = mark_passing(alloc, &flat)?;
    Ok(Shell {
        flat,
        here: Items::from_vec(wires.here),
        after: Items::from_vec(wires.after),
        skips: Items::from_vec(skips),
    })
}

/// The bits that the outputs of all pearls of a system begin with.
fn all_begins(alloc: Global, system: &System) -> Result<Vec<Items<bool>>, AllocError>
    requires { IsWellFormed system.now }
    ensures count { IfOk result (λ begins. length system.now.nodes ≡ length begins.items + 2) }
    ensures each { IfOk result (λ begins. (i : ℕ) (bits : List Bool) → slice_get begins.items i ≡ Some bits → AreBegun system.now (i + 1) bits) }
{
    let mut begins = Vec::new(alloc);
    for v in 1..system.nodes.len() - 1 {
        begins.push(begins_at(alloc, system, v as u32)?)?;
    }
    Ok(begins)
}

/// The bits that the outputs of the pearl at a node begin with.
fn begins_at(alloc: Global, system: &System, v: u32) -> Result<Items<bool>, AllocError>
    requires system { IsWellFormed system.now }
    requires shell { (0 < v) × (v + 1 < length system.now.nodes) }
    ensures { IfOk result (AreBegun system.now v) }
{
    let (pearl, _) = pearl_at(system, v);
    outputs_of(alloc, pearl)
}

/// The bits of the outputs of a pearl in its present state.
fn outputs_of(alloc: Global, pearl: &Pearl) -> Result<Items<bool>, AllocError>
    ensures { IfOk result (Shows pearl.now) }
{
    let mut outs = Vec::from_elem(alloc, false, pearl.outs())?;
    pearl.outputs(outs.as_mut_slice());
    Ok(Items::from_vec(outs))
}
