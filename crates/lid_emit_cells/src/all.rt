//! All cells of a wrapped system.

ghost use Rattle.std.specs.Prelude.{◌≡◌, ◌+◌, OnOk, IfOk, flat_map, length};
ghost use Rattle.lid_base.specs.Each.{from_each};
ghost use Rattle.lid_emit_circuit.specs.Plans.{CircuitPlan};
ghost use Rattle.lid_emit_circuit.specs.Lists.{station_wires, actor_wires, shell_wires, wires};
ghost use Rattle.lid_emit_cells.specs.Shown.{cells_by};
ghost use Rattle.lid_emit_cells.specs.Drafts.{with_wires};
ghost use Rattle.lid_emit_cells.specs.Matches.{AreAllSmall, IsAllOf};

use crate::actor::ActorStations;
use crate::names::Naming;
use crate::outer::Outer;
use crate::pen::Pen;
use crate::shell::Shell;
use crate::station::Station;
use lid_base::Items;
use lid_design::Cell;
use std::alloc::{AllocError, Global};

/// All that the cells of a wrapped system are made from. Shells are numbered from 1 on.
#[derive(Drop)]
pub struct All {
    pub outer: Outer,
    pub stations: Items<Station>,
    pub actors: Items<ActorStations>,
    pub shells: Items<Shell>,
}

impl Pen<'_> {
    /// Pushes the cells of all stations.
    fn push_stations(&mut self, all: &All) -> Result<(), AllocError>
        requires { AreAllSmall all.now }
        ensures { OnOk result ((q : CircuitPlan) → IsAllOf q all.now
            → self.new ≡ with_wires q self.old (flat_map (station_wires q) (from_each (λ s. s) 0 (length all.now.stations)))) }
    {
        for s in 0..all.stations.len() {
            let station = &all.stations.as_slice()[s];
            self.push_station(s as u32, station)?;
        }
        Ok(())
    }

    /// Pushes the cells of all actors.
    fn push_actors(&mut self, all: &All) -> Result<(), AllocError>
        requires { AreAllSmall all.now }
        ensures { OnOk result ((q : CircuitPlan) → IsAllOf q all.now
            → self.new ≡ with_wires q self.old (flat_map (actor_wires q) (from_each (λ v. v) 0 (length all.now.actors)))) }
    {
        for v in 0..all.actors.len() {
            let actor = &all.actors.as_slice()[v];
            let last = v as u32 == all.outer.last;
            self.push_actor(v as u32, actor, last)?;
        }
        Ok(())
    }

    /// Pushes the cells of all shells.
    fn push_shells(&mut self, all: &All) -> Result<(), AllocError>
        requires { AreAllSmall all.now }
        ensures { OnOk result ((q : CircuitPlan) → IsAllOf q all.now
            → self.new ≡ with_wires q self.old (flat_map (shell_wires q) (from_each (λ v. v) 1 (length all.now.shells)))) }
    {
        for i in 0..all.shells.len() {
            let shell = &all.shells.as_slice()[i];
            self.push_shell(i as u32 + 1, shell)?;
        }
        Ok(())
    }

    /// Pushes all cells of a wrapped system.
    fn push_all(&mut self, all: &All) -> Result<(), AllocError>
        requires { AreAllSmall all.now }
        ensures { OnOk result ((q : CircuitPlan) → IsAllOf q all.now → self.new ≡ with_wires q self.old (wires q)) }
    {
        self.push_outer(&all.outer)?;
        self.push_stations(all)?;
        self.push_actors(all)?;
        self.push_shells(all)
    }
}

/// All cells of a wrapped system: one for each wire that is no input.
///
/// # Errors
/// Where there is no memory.
pub fn make_cells(alloc: Global, naming: Naming<'_>, all: &All) -> Result<Vec<Cell>, AllocError>
    requires { AreAllSmall all.now }
    ensures { IfOk result (λ cells. (q : CircuitPlan) → IsAllOf q all.now → cells.items ≡ flat_map (cells_by q naming.entry) (wires q)) }
{
    let mut pen = Pen::new(alloc, naming);
    pen.push_all(all)?;
    Ok(pen.into_cells())
}
