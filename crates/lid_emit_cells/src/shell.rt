//! The cells of shells.

ghost use Rattle.std.specs.Prelude.{◌≡◌, ◌<◌, ◌∷◌, [], ℕ, OnOk, IfOk, map, length, Some, slice_get};
ghost use Rattle.std.specs.List.{AllByRecursion};
ghost use Rattle.lid_base.specs.Lists.{Among};
ghost use Rattle.lid_design.specs.declared.Cell.TheVariants.{Names};
ghost use Rattle.lid_emit_circuit.specs.Wires as circuit;
ghost use Rattle.lid_emit_circuit.specs.Plans.{CircuitPlan};
ghost use Rattle.lid_emit_names.specs.Named.{written};
ghost use Rattle.lid_emit_circuit.specs.Lists.{latch_wires, cover_wires, shell_wires};
ghost use Rattle.lid_emit_cells.specs.Shown.{wire_of};
ghost use Rattle.lid_emit_cells.specs.Drafts.{name_on, name_at, with_cells, with_wires};
ghost use Rattle.lid_emit_cells.specs.Matches.{AreWires, IsPlanShell, IsWhole};

use crate::cell::copy_cover;
use crate::pen::Pen;
use crate::wire::Wire;
use lid_base::Items;
use lid_cover::Cube;
use lid_design::{Flat, FlatCover, FlatLatch};
use std::alloc::{AllocError, Global};

/// A shell: the flat part of its pearl, and for each net the wire that has it, the wire that has it after
/// a firing, and whether these are the wires of another net.
#[derive(Drop)]
pub struct Shell {
    pub flat: Flat,
    pub here: Items<Wire>,
    pub after: Items<Wire>,
    pub skips: Items<bool>,
}

/// The wire of a net.
fn wire_at(wires: &[Wire], k: u32) -> Wire
    requires { k < length wires.now }
    ensures { slice_get wires.now k ≡ Some result }
{
    wires[k as usize]
}

/// The wires of some nets.
fn wires_at(alloc: Global, wires: &[Wire], nets: &[u32]) -> Result<Vec<Wire>, AllocError>
    requires { AllByRecursion (λ k. k < length wires.now) nets.now }
    ensures { IfOk result (λ found. (wire : ℕ → circuit.Wire) → AreWires wire wires.now → map wire_of found.items ≡ map wire nets.now) }
{
    let mut found = Vec::with_capacity(alloc, nets.len())?;
    for net in nets {
        found.push(wire_at(wires, *net))?;
    }
    Ok(found)
}

impl Pen<'_> {
    /// Pushes the cells of a latch's net.
    fn push_state(&mut self, v: u32, shell: &Shell, latch: FlatLatch) -> Result<(), AllocError>
        requires whole { IsWhole shell.now }
        requires there { Among latch shell.now.flat.latches }
        ensures { OnOk result ((q : CircuitPlan) → IsPlanShell q v shell.now → self.new ≡ with_wires q self.old (latch_wires v latch)) }
    {
        let now = Wire::Now(v, latch.out);
        let kept = Wire::Kept(v, latch.out);
        let input = wire_at(shell.here.as_slice(), latch.input);
        self.push_latch(now, latch.init, kept)?;
        let cubes = [Cube { care: 3, value: 3 }, Cube { care: 5, value: 4 }];
        self.push_gate(kept, &[Wire::Fire(v), input, now], &cubes)
    }

    /// Pushes a cover that drives a wire of a net, by the wires of the nets that it reads.
    fn push_net(&mut self, wire: Wire, wires: &[Wire], c: &FlatCover) -> Result<(), AllocError>
        requires { AllByRecursion (λ k. k < length wires.now) c.now.ins }
        ensures { OnOk result ((read : ℕ → circuit.Wire) → AreWires read wires.now
            → self.new ≡ with_cells self.old (Names (map (name_on self.old) (map read c.now.ins)) (name_at self.old wire) (written c.now.cover) ∷ [])) }
    {
        let reads = wires_at(self.alloc, wires, c.ins.as_slice())?;
        let cover = copy_cover(self.alloc, &c.cover)?;
        self.push_cover(wire, reads.as_slice(), cover)
    }

    /// Pushes the cells of a cover's net, where it has some.
    fn push_logic(&mut self, v: u32, shell: &Shell, c: &FlatCover) -> Result<(), AllocError>
        requires whole { IsWhole shell.now }
        requires there { Among c.now shell.now.flat.covers }
        ensures { OnOk result ((q : CircuitPlan) → IsPlanShell q v shell.now → self.new ≡ with_wires q self.old (cover_wires q v c.now)) }
    {
        if shell.skips.as_slice()[c.out as usize] {
            return Ok(());
        }
        self.push_net(Wire::Now(v, c.out), shell.here.as_slice(), c)?;
        self.push_net(Wire::Later(v, c.out), shell.after.as_slice(), c)
    }

    /// Pushes all cells of a shell.
    pub(crate) fn push_shell(&mut self, v: u32, shell: &Shell) -> Result<(), AllocError>
        requires { IsWhole shell.now }
        ensures { OnOk result ((q : CircuitPlan) → IsPlanShell q v shell.now → self.new ≡ with_wires q self.old (shell_wires q v)) }
    {
        for latch in shell.flat.latches.as_slice() {
            self.push_state(v, shell, *latch)?;
        }
        for c in shell.flat.covers.as_slice() {
            self.push_logic(v, shell, c)?;
        }
        Ok(())
    }
}
