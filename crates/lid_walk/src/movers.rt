//! The actors that are movers.

ghost use Rattle.std.specs.Prelude.{◌≡◌, ◌<◌, ◌+◌, length, take, OnOk};
ghost use Rattle.lid_stations.specs.Placements.{station_count};
ghost use Rattle.lid_stations.specs.Placed.{links_in};
ghost use Rattle.lid_stations.specs.Stations.{actor_count, mover};
ghost use Rattle.lid_texts_packed.specs.Input.{input_of};
ghost use Rattle.lid_walk.specs.Inside.{AreFirstActors};

use lid_shell::{Actor, actors_go_by_rules};
use lid_stations::Placed;
use lid_texts_packed::InputRows;
use std::alloc::{AllocError, Global};

/// Appends the movers of channel c, whose first station has this number.
fn push_movers_on<'r>(
    alloc: Global,
    placed: &Placed<'_>,
    rows: InputRows<'r>,
    c: usize,
    first: u32,
    actors: &mut Vec<Actor<'r>>,
) -> Result<(), AllocError>
    requires there { c < length placed.now.placement.relays }
    requires first { first ≡ station_count (take c placed.now.placement.relays) }
    requires before { AreFirstActors placed.now (input_of rows) (mover (links_in placed.now) placed.now.placement c 0) actors.old.items }
    ensures { OnOk result (AreFirstActors placed.now (input_of rows.entry) (mover (links_in placed.now) placed.now.placement (c + 1) 0) actors.new.items) }
{
    actors_go_by_rules();
    let count = rows.len() as u64;
    for place in 0..placed.placement.relays.as_slice()[c] {
        let station = first + place;
        actors.push(Actor::mover(alloc, station, station + 1, count))?;
    }
    Ok(())
}

/// Appends the movers, in the order of the stations that they drain, to the actors that are nodes.
pub(crate) fn push_movers<'r>(
    alloc: Global,
    placed: &Placed<'_>,
    rows: InputRows<'r>,
    actors: &mut Vec<Actor<'r>>,
) -> Result<(), AllocError>
    requires nodes { AreFirstActors placed.now (input_of rows) (length placed.now.system.nodes) actors.old.items }
    ensures { OnOk result (AreFirstActors placed.now (input_of rows.entry) (actor_count (links_in placed.now) placed.now.placement) actors.new.items) }
{
    let mut first = 0u32;
    for c in 0..placed.placement.relays.len() {
        push_movers_on(alloc, placed, rows, c, first, actors)?;
        first += placed.placement.relays.as_slice()[c] + 1;
    }
    Ok(())
}
