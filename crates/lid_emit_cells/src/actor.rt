//! The cells of actors.

ghost use Rattle.std.specs.Prelude.{◌≡◌, ◌==◌, ◌<◌, ◌^◌, ◌+◌, ◌∷◌, [], OnOk, length, Some, slice_get};
ghost use Rattle.lid_base.specs.Each.{from_each};
ghost use Rattle.lid_emit_circuit.specs.Plans.{CircuitPlan};
ghost use Rattle.lid_emit_circuit.specs.Network.{sink};
ghost use Rattle.lid_emit_circuit.specs.Wires.{may, fire};
ghost use Rattle.lid_emit_cells.specs.declared.actor.Fill.{Fill};
ghost use Rattle.lid_emit_circuit.specs.Lists.{actor_wires};
ghost use Rattle.lid_emit_cells.specs.Drafts.{with_wires};
ghost use Rattle.lid_emit_cells.specs.Matches.{IsActorOf};

use crate::pen::Pen;
use crate::wire::Wire;
use lid_base::Items;
use lid_cover::Cube;
use std::alloc::AllocError;

/// A station that an actor fills, and its capacity.
#[derive(Clone, Copy)]
pub struct Fill {
    pub station: u32,
    pub capacity: u32,
}

/// An actor: the stations that it drains, and those that it fills, in order.
#[derive(Drop)]
pub struct ActorStations {
    pub ins: Items<u32>,
    pub outs: Items<Fill>,
}

impl Pen<'_> {
    /// Pushes the link of end i of an actor, which drains a station.
    fn push_drain(
        &mut self,
        v: u32,
        actor: &ActorStations,
        i: u32,
        station: u32,
    ) -> Result<(), AllocError>
        requires small { i + 1 < 2 ^ 32 }
        requires end { slice_get actor.now.ins i ≡ Some station }
        ensures { OnOk result ((q : CircuitPlan) → IsActorOf q v actor.now → self.new ≡ with_wires q self.old (may v (i + 1) ∷ [])) }
    {
        let reads = [Wire::May(v, i), Wire::Level(station, 1)];
        self.push_gate(Wire::May(v, i + 1), &reads, &[Cube { care: 3, value: 3 }])
    }

    /// Pushes the link of a later end of an actor, which fills the i-th of its stations.
    fn push_fill(
        &mut self,
        v: u32,
        actor: &ActorStations,
        i: u32,
        fill: Fill,
    ) -> Result<(), AllocError>
        requires small { length actor.now.ins + i + 1 < 2 ^ 32 }
        requires end { slice_get actor.now.outs i ≡ Some fill }
        ensures { OnOk result ((q : CircuitPlan) → IsActorOf q v actor.now → self.new ≡ with_wires q self.old (may v (length actor.now.ins + i + 1) ∷ [])) }
    {
        let end = actor.ins.len() as u32 + i;
        let reads = [Wire::May(v, end), Wire::Level(fill.station, fill.capacity)];
        self.push_gate(Wire::May(v, end + 1), &reads, &[Cube { care: 3, value: 1 }])
    }

    /// Pushes the wire of an actor that fires; `last` says whether it is the sink.
    fn push_fire(&mut self, v: u32, actor: &ActorStations, last: bool) -> Result<(), AllocError>
        requires { length actor.now.ins + length actor.now.outs + 1 < 2 ^ 32 }
        ensures { OnOk result ((q : CircuitPlan) → IsActorOf q v actor.now → (v == sink q) ≡ last → self.new ≡ with_wires q self.old (fire v ∷ [])) }
    {
        let may = Wire::May(v, actor.ins.len() as u32 + actor.outs.len() as u32);
        let wire = Wire::Fire(v);
        if v == 0 {
            let both = [Cube { care: 3, value: 3 }];
            return self.push_gate(wire, &[may, Wire::Offer], &both);
        }
        if last {
            let without = [Cube { care: 3, value: 1 }];
            return self.push_gate(wire, &[may, Wire::Block], &without);
        }
        self.push_gate(wire, &[may], &[Cube { care: 1, value: 1 }])
    }

    /// Pushes the links of an actor, from the first, which always holds.
    fn push_links(&mut self, v: u32, actor: &ActorStations) -> Result<(), AllocError>
        requires { length actor.now.ins + length actor.now.outs + 1 < 2 ^ 32 }
        ensures { OnOk result ((q : CircuitPlan) → IsActorOf q v actor.now
            → self.new ≡ with_wires q self.old (from_each (may v) 0 (length actor.now.ins + length actor.now.outs + 1))) }
    {
        self.push_constant(Wire::May(v, 0), true)?;
        for i in 0..actor.ins.len() {
            let station = actor.ins.as_slice()[i];
            self.push_drain(v, actor, i as u32, station)?;
        }
        for k in 0..actor.outs.len() {
            let fill = actor.outs.as_slice()[k];
            self.push_fill(v, actor, k as u32, fill)?;
        }
        Ok(())
    }

    /// Pushes all cells of an actor; `last` says whether it is the sink.
    pub(crate) fn push_actor(
        &mut self,
        v: u32,
        actor: &ActorStations,
        last: bool,
    ) -> Result<(), AllocError>
        requires { length actor.now.ins + length actor.now.outs + 1 < 2 ^ 32 }
        ensures { OnOk result ((q : CircuitPlan) → IsActorOf q v actor.now → (v == sink q) ≡ last → self.new ≡ with_wires q self.old (actor_wires q v)) }
    {
        self.push_links(v, actor)?;
        self.push_fire(v, actor, last)
    }
}
