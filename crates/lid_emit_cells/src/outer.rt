//! The cells at the outside of a wrapped system.

ghost use Rattle.std.specs.Prelude.{◌≡◌, ◌<◌, ◌^◌, ◌∷◌, [], OnOk, length, Some, slice_get, true, false};
ghost use Rattle.lid_base.specs.Each.{from_each};
ghost use Rattle.lid_emit_circuit.specs.Wires as circuit;
ghost use Rattle.lid_emit_circuit.specs.Plans.{CircuitPlan};
ghost use Rattle.lid_emit_circuit.specs.Lists.{outer_wires};
ghost use Rattle.lid_emit_cells.specs.Drafts.{with_wires};
ghost use Rattle.lid_emit_cells.specs.Matches.{IsOuterOf};

use crate::pen::Pen;
use crate::wire::Wire;
use lid_base::Items;
use lid_cover::Cube;
use std::alloc::AllocError;

/// The outside: how many data inputs there are, the number of the sink, how many ends source and sink
/// have, and what each data output shows.
#[derive(Drop)]
pub struct Outer {
    pub inputs: u32,
    pub last: u32,
    pub first_ends: u32,
    pub last_ends: u32,
    pub shows: Items<Wire>,
}

impl Pen<'_> {
    /// Pushes a data input, as stations read it.
    fn push_given(&mut self, outer: &Outer, j: u32) -> Result<(), AllocError>
        requires { j < outer.now.inputs }
        ensures { OnOk result ((q : CircuitPlan) → IsOuterOf q outer.now → self.new ≡ with_wires q self.old (circuit.given j ∷ [])) }
    {
        let reads = [Wire::Entry(j)];
        self.push_gate(Wire::Given(j), &reads, &[Cube { care: 1, value: 1 }])
    }

    /// Pushes a data output.
    fn push_shown(&mut self, outer: &Outer, j: u32, wire: Wire) -> Result<(), AllocError>
        requires { slice_get outer.now.shows j ≡ Some wire }
        ensures { OnOk result ((q : CircuitPlan) → IsOuterOf q outer.now → self.new ≡ with_wires q self.old (circuit.shown j ∷ [])) }
    {
        let reads = [Wire::May(outer.last, outer.last_ends), wire];
        self.push_gate(Wire::Shown(j), &reads, &[Cube { care: 3, value: 3 }])
    }

    /// Pushes what tells that a row is offered.
    fn push_valid(&mut self, outer: &Outer) -> Result<(), AllocError>
        ensures { OnOk result ((q : CircuitPlan) → IsOuterOf q outer.now → self.new ≡ with_wires q self.old (circuit.valid ∷ [])) }
    {
        let reads = [Wire::May(outer.last, outer.last_ends)];
        self.push_gate(Wire::Valid, &reads, &[Cube { care: 1, value: 1 }])
    }

    /// Pushes what tells that no row is taken.
    fn push_stop(&mut self, outer: &Outer) -> Result<(), AllocError>
        ensures { OnOk result ((q : CircuitPlan) → IsOuterOf q outer.now → self.new ≡ with_wires q self.old (circuit.stop ∷ [])) }
    {
        let reads = [Wire::May(0, outer.first_ends)];
        self.push_gate(Wire::Stop, &reads, &[Cube { care: 1, value: 0 }])
    }

    /// Pushes all data inputs.
    fn push_givens(&mut self, outer: &Outer) -> Result<(), AllocError>
        ensures { OnOk result ((q : CircuitPlan) → IsOuterOf q outer.now → self.new ≡ with_wires q self.old (from_each circuit.given 0 outer.now.inputs)) }
    {
        for j in 0..outer.inputs {
            self.push_given(outer, j)?;
        }
        Ok(())
    }

    /// Pushes the two constants, and what tells of rows.
    fn push_four(&mut self, outer: &Outer) -> Result<(), AllocError>
        ensures { OnOk result ((q : CircuitPlan) → IsOuterOf q outer.now
            → self.new ≡ with_wires q self.old (circuit.steady false ∷ circuit.steady true ∷ circuit.valid ∷ circuit.stop ∷ [])) }
    {
        self.push_constant(Wire::Steady(false), false)?;
        self.push_constant(Wire::Steady(true), true)?;
        self.push_valid(outer)?;
        self.push_stop(outer)
    }

    /// Pushes all data outputs.
    fn push_showns(&mut self, outer: &Outer) -> Result<(), AllocError>
        requires { length outer.now.shows < 2 ^ 32 }
        ensures { OnOk result ((q : CircuitPlan) → IsOuterOf q outer.now
            → self.new ≡ with_wires q self.old (from_each circuit.shown 0 (length outer.now.shows))) }
    {
        for j in 0..outer.shows.len() {
            let wire = outer.shows.as_slice()[j];
            self.push_shown(outer, j as u32, wire)?;
        }
        Ok(())
    }

    /// Pushes all cells at the outside.
    pub(crate) fn push_outer(&mut self, outer: &Outer) -> Result<(), AllocError>
        requires { length outer.now.shows < 2 ^ 32 }
        ensures { OnOk result ((q : CircuitPlan) → IsOuterOf q outer.now → self.new ≡ with_wires q self.old (outer_wires q)) }
    {
        self.push_givens(outer)?;
        self.push_four(outer)?;
        self.push_showns(outer)
    }
}
