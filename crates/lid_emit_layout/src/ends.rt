//! The stations that actors drain and fill.

ghost use Rattle.std.specs.Prelude.{◌≡◌, ◌≤◌, ◌<◌, ◌++◌, [], ◌∷◌, IfOk, OnOk, length};
ghost use Rattle.lid_emit_circuit.specs.Plans.{CircuitPlan};
ghost use Rattle.lid_emit_cells.specs.declared.actor.Fill.{Fill};
ghost use Rattle.lid_emit_layout.specs.Stations.{AreStationsOf, AreBetween};
ghost use Rattle.lid_emit_layout.specs.Ends.{AreUnjoined, Joins, AreJoined};

use lid_emit_cells::{Fill, Station};
use std::alloc::{AllocError, Global};

/// The stations that an actor drains, and those that it fills, in order, of all that were joined to it.
#[derive(Drop)]
pub(crate) struct Ends {
    pub ins: Vec<u32>,
    pub outs: Vec<Fill>,
}

impl Ends {
    /// Joins a station that the actor drains.
    fn drain(&mut self, station: u32) -> Result<(), AllocError>
        ensures ins { OnOk result (self.new.ins.items ≡ self.old.ins.items ++ station ∷ []) }
        ensures outs { OnOk result (self.new.outs.items ≡ self.old.outs.items) }
    {
        self.ins.push(station)?;
        Ok(())
    }

    /// Joins a station that it fills.
    fn fill(&mut self, fill: Fill) -> Result<(), AllocError>
        ensures ins { OnOk result (self.new.ins.items ≡ self.old.ins.items) }
        ensures outs { OnOk result (self.new.outs.items ≡ self.old.outs.items ++ fill ∷ []) }
    {
        self.outs.push(fill)?;
        Ok(())
    }
}

/// Joins a station to the actors that fill and drain it.
fn join(ends: &mut Vec<Ends>, number: u32, station: &Station) -> Result<(), AllocError>
    requires filled { station.now.filler < length ends.old.items }
    requires drained { station.now.drainer < length ends.old.items }
    ensures { OnOk result (Joins number station.now ends.old.items ends.new.items) }
{
    let fill = Fill {
        station: number,
        capacity: station.capacity,
    };
    ends[station.filler as usize].fill(fill)?;
    ends[station.drainer as usize].drain(number)?;
    Ok(())
}

/// Joins all stations, in order.
fn join_all(ends: &mut Vec<Ends>, stations: &[Station]) -> Result<(), AllocError>
    requires few { length stations.now ≤ 65536 }
    requires between { AreBetween (length ends.old.items) stations.now }
    ensures many { OnOk result (length ends.new.items ≡ length ends.old.items) }
    ensures joined { OnOk result ((q : CircuitPlan) → AreStationsOf q stations.now
        → AreJoined q 0 ends.old.items → AreJoined q (length stations.now) ends.new.items) }
{
    for s in 0..stations.len() {
        join(ends, s as u32, &stations[s])?;
    }
    Ok(())
}

/// So many actors, to which no station is joined.
fn alone(alloc: Global, actors: u32) -> Result<Vec<Ends>, AllocError>
    ensures { IfOk result (λ ends. AreUnjoined actors ends.items) }
{
    let mut ends = Vec::new(alloc);
    for _ in 0..actors {
        ends.push(Ends {
            ins: Vec::new(alloc),
            outs: Vec::new(alloc),
        })?;
    }
    Ok(ends)
}

/// The stations of so many actors.
pub(crate) fn make_ends(
    alloc: Global,
    actors: u32,
    stations: &[Station],
) -> Result<Vec<Ends>, AllocError>
    requires few { length stations.now ≤ 65536 }
    requires between { AreBetween actors stations.now }
    ensures many { IfOk result (λ ends. length ends.items ≡ actors) }
    ensures joined { IfOk result (λ ends. (q : CircuitPlan) → AreStationsOf q stations.now → AreJoined q (length stations.now) ends.items) }
{
    let mut ends = alone(alloc, actors)?;
    join_all(&mut ends, stations)?;
    Ok(ends)
}
