//! `place`: the relay stations that wires of such lengths need.

ghost use Rattle.std.specs.Prelude.{◌≡◌, ◌≤◌, IfOk, IfErr};
ghost use Rattle.lid_stations_text.specs.Written.{stations_text};
ghost use Rattle.lid_top_script.specs.Causes.{IsWant};
ghost use Rattle.lid_top_script.specs.Scripts.{wires_script, place_script};
ghost use Rattle.lid_top_script.specs.Whole.{RunsOn};
ghost use Rattle.lid_stations.specs.Placed.{links_in};
ghost use Rattle.lid_stations.specs.Placements.{links_of};
ghost use Rattle.lid_system.specs.Systems.{IsWellFormed as IsSystem};

use lid_base::{Name, Shelf};
use lid_stations::Placed;
use lid_stations_text::print_stations;
use lid_system::System;
use lid_top_script::{Stop, WiresText, read_file, read_system};
use std::alloc::Global;

/// The text of a placement.
fn stations_text<'a>(alloc: Global, placed: &Placed<'_>) -> Result<Vec<u8>, Stop<'a>>
    ensures ok { IfOk result (λ text. text.items ≡ stations_text (links_in placed.now) placed.now.placement) }
    ensures err { IfErr result IsWant }
{
    let mut text = Vec::new(alloc);
    match print_stations(placed.system, placed.placement, &mut text) {
        Ok(()) => Ok(text),
        Err(_) => Err(Stop::Memory),
    }
}

/// What `place` writes for a system.
fn wires_text<'a, S: Shelf>(
    alloc: Global,
    shelf: &mut S,
    system: &System,
    wires: &'a str,
    reach: u64,
) -> Result<Vec<u8>, Stop<'a>>
    requires system { IsSystem system.now }
    requires reach { 1 ≤ reach }
    ensures { RunsOn S.whole S.held S.fetches S.faults shelf.old shelf.new (wires_script (links_of system.now) wires.now reach) result }
{
    match read_file(alloc, shelf, wires, &WiresText { system, reach }) {
        Ok(placement) => {
            let placement = &placement;
            stations_text(alloc, &Placed { system, placement })
        }
        Err(stop) => Err(stop),
    }
}

/// What `place` writes.
pub fn place_text<'a, S: Shelf>(
    alloc: Global,
    shelf: &mut S,
    net: &'a str,
    wires: &'a str,
    reach: u64,
    root: &Option<Name>,
) -> Result<Vec<u8>, Stop<'a>>
    requires { 1 ≤ reach }
    ensures { RunsOn S.whole S.held S.fetches S.faults shelf.old shelf.new (place_script net.now wires.now reach root.now) result }
{
    match read_system(alloc, shelf, net, root) {
        Ok(built) => wires_text(alloc, shelf, &built.system, wires, reach),
        Err(stop) => Err(stop),
    }
}
