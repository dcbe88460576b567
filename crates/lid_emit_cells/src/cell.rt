//! Cells that drive wires.

ghost use Rattle.std.specs.Prelude.{◌≡◌, ◌<◌, ◌^◌, ◌∷◌, [], true, length, map, IfOk, OnOk, None};
ghost use Rattle.lid_cover.specs.declared.Cover.{Cover};
ghost use Rattle.lid_design.specs.declared.Cell.TheVariants.{Names, Latch};
ghost use Rattle.lid_design.specs.declared.LatchKind.TheVariants.{Plain};
ghost use Rattle.lid_emit_names.specs.Named.{written, init_of};
ghost use Rattle.lid_emit_cells.specs.Drafts.{name_at, with_cells, gate_cell, constant_cell};

use crate::pen::Pen;
use crate::wire::Wire;
use lid_base::{Items, Name};
use lid_cover::{Cover, Cube};
use lid_design::{Cell, Init, LatchKind};
use std::alloc::{AllocError, Global};

/// How a latch begins with a bit.
fn init_of(first: bool) -> Init
    ensures { result ≡ init_of first }
{
    if first { Init::One } else { Init::Zero }
}

/// A cover that is 1 where some of these cubes agrees with its inputs.
pub(crate) fn cover_of(alloc: Global, inputs: u32, cubes: &[Cube]) -> Result<Cover, AllocError>
    ensures { IfOk result (λ cover. cover ≡ record { inputs = inputs; on = true; cubes = cubes.now }) }
{
    let cubes = Vec::from_slice(alloc, cubes)?;
    Ok(Cover {
        inputs,
        on: true,
        cubes: Items::from_vec(cubes),
    })
}

/// A cover of the same values that can be written.
pub(crate) fn copy_cover(alloc: Global, cover: &Cover) -> Result<Cover, AllocError>
    ensures { IfOk result (λ copy. copy ≡ written cover.now) }
{
    if !cover.on && cover.cubes.is_empty() {
        return cover_of(alloc, cover.inputs, &[Cube { care: 0, value: 0 }]);
    }
    let cubes = Vec::from_slice(alloc, cover.cubes.as_slice())?;
    Ok(Cover {
        inputs: cover.inputs,
        on: cover.on,
        cubes: Items::from_vec(cubes),
    })
}

impl Pen<'_> {
    /// The names of some wires.
    fn names_of(&self, wires: &[Wire]) -> Result<Items<Name>, AllocError>
        ensures { IfOk result (λ names. names ≡ map (name_at self.now) wires.now) }
    {
        let mut names = Vec::with_capacity(self.alloc, wires.len())?;
        for wire in wires {
            names.push(self.name_of(*wire)?)?;
        }
        Ok(Items::from_vec(names))
    }

    /// A latch that drives a wire, with its first bit.
    fn latch_cell(&self, wire: Wire, first: bool, input: Wire) -> Result<Cell, AllocError>
        ensures { IfOk result (λ cell. cell ≡ Latch (name_at self.now input) (name_at self.now wire) Plain None (init_of first)) }
    {
        let input = self.name_of(input)?;
        let out = self.name_of(wire)?;
        Ok(Cell::Latch {
            input,
            out,
            kind: LatchKind::Plain,
            control: None,
            init: init_of(first),
        })
    }

    /// A cover that drives a wire, and reads others.
    fn cover_cell(&self, wire: Wire, reads: &[Wire], cover: Cover) -> Result<Cell, AllocError>
        ensures { IfOk result (λ cell. cell ≡ Names (map (name_at self.now) reads.now) (name_at self.now wire) cover) }
    {
        let inputs = self.names_of(reads)?;
        let out = self.name_of(wire)?;
        Ok(Cell::Names { inputs, out, cover })
    }

    /// Pushes a cell.
    fn push(&mut self, cell: Cell) -> Result<(), AllocError>
        ensures { OnOk result (self.new ≡ with_cells self.old (cell ∷ [])) }
    {
        self.cells.push(cell)?;
        Ok(())
    }

    /// Pushes a latch that drives a wire, with its first bit.
    pub(crate) fn push_latch(
        &mut self,
        wire: Wire,
        first: bool,
        input: Wire,
    ) -> Result<(), AllocError>
        ensures { OnOk result (self.new ≡ with_cells self.old (Latch (name_at self.old input) (name_at self.old wire) Plain None (init_of first) ∷ [])) }
    {
        let cell = self.latch_cell(wire, first, input)?;
        self.push(cell)
    }

    /// Pushes a cover that drives a wire, and reads others.
    pub(crate) fn push_cover(
        &mut self,
        wire: Wire,
        reads: &[Wire],
        cover: Cover,
    ) -> Result<(), AllocError>
        ensures { OnOk result (self.new ≡ with_cells self.old (Names (map (name_at self.old) reads.now) (name_at self.old wire) cover ∷ [])) }
    {
        let cell = self.cover_cell(wire, reads, cover)?;
        self.push(cell)
    }

    /// Pushes a cell that drives a wire where some of these cubes agrees with the wires that it reads.
    pub(crate) fn push_gate(
        &mut self,
        wire: Wire,
        reads: &[Wire],
        cubes: &[Cube],
    ) -> Result<(), AllocError>
        requires { length reads.now < 2 ^ 32 }
        ensures { OnOk result (self.new ≡ with_cells self.old (gate_cell self.old wire reads.now cubes.now ∷ [])) }
    {
        let cover = cover_of(self.alloc, reads.len() as u32, cubes)?;
        self.push_cover(wire, reads, cover)
    }

    /// Pushes a constant.
    pub(crate) fn push_constant(&mut self, wire: Wire, bit: bool) -> Result<(), AllocError>
        ensures { OnOk result (self.new ≡ with_cells self.old (constant_cell self.old wire bit ∷ [])) }
    {
        if bit {
            return self.push_gate(wire, &[], &[Cube { care: 0, value: 0 }]);
        }
        self.push_gate(wire, &[], &[])
    }
}
