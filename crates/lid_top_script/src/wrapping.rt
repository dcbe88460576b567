//! The first steps of most commands: from the files of a netlist and of its stations to what is run.

ghost use Rattle.std.specs.Prelude.{◌≡◌, ℕ, ◌≤◌, List, IfOk, IfErr};
ghost use Rattle.lid_design.specs.WellFormed.{IsWellFormed};
ghost use Rattle.lid_top_script.specs.Causes.{FindsChannels, BuildsSystem, FailsSystem, GotChannels, GotSystem, MissesSystem, GotWrapped, MissesWrapped};
ghost use Rattle.lid_top_script.specs.FetchSteps.{FetchesFile, FetchesWrapped};
ghost use Rattle.lid_top_script.specs.Scripts.{net_limit};

use crate::fault::Stop;
use crate::placing::read_placement;
use crate::reading::read_file;
use crate::steps::{NetText, accept, build_system, channels_of};
use crate::wrapped::{Built, Graphed, NetFiles, Wrapped};
use lid_base::{Name, Shelf};
use lid_design::Design;
use std::alloc::Global;

/// Accepts a design that was read, and finds its channels.
fn graph_design<'a>(alloc: Global, design: Design, root: &Option<Name>) -> Result<Graphed, Stop<'a>>
    requires { IsWellFormed design }
    ensures ok { IfOk result (FindsChannels root.now design) }
    ensures err { IfErr result (FailsSystem root.now design) }
{
    match accept(alloc, design, root) {
        Ok(checked) => match channels_of(alloc, &checked) {
            Ok(channels) => Ok(Graphed { checked, channels }),
            Err(stop) => Err(stop),
        },
        Err(stop) => Err(stop),
    }
}

/// Accepts a design that was read, and builds its system.
fn build_design<'a>(alloc: Global, design: Design, root: &Option<Name>) -> Result<Built, Stop<'a>>
    requires { IsWellFormed design }
    ensures ok { IfOk result (BuildsSystem root.now design) }
    ensures err { IfErr result (FailsSystem root.now design) }
{
    match accept(alloc, design, root) {
        Ok(checked) => match build_system(alloc, &checked) {
            Ok(system) => Ok(Built { checked, system }),
            Err(stop) => Err(stop),
        },
        Err(stop) => Err(stop),
    }
}

/// Fetches, reads and accepts a netlist, and finds its channels, without the nodes that they join.
pub fn read_channels<'a, S: Shelf>(
    alloc: Global,
    shelf: &mut S,
    net: &'a str,
    root: &Option<Name>,
) -> Result<Graphed, Stop<'a>>
    ensures ok { IfOk result (GotChannels (S.held shelf.old) net.now root.now) }
    ensures err { IfErr result (MissesSystem (S.held shelf.old) net.now root.now (S.faults shelf.old) (S.faults shelf.new)) }
    ensures fetched { FetchesFile S.whole (S.held shelf.old net.now) net.now net_limit
        (S.fetches shelf.old) (S.fetches shelf.new) (S.faults shelf.old) (S.faults shelf.new) result }
    ensures kept { S.held shelf.new ≡ S.held shelf.old }
    ensures grows { (q : List ℕ) → S.faults shelf.old q ≤ S.faults shelf.new q }
{
    match read_file(alloc, shelf, net, &NetText) {
        Ok(design) => graph_design(alloc, design, root),
        Err(stop) => Err(stop),
    }
}

/// Fetches, reads and accepts a netlist, and builds its system.
pub fn read_system<'a, S: Shelf>(
    alloc: Global,
    shelf: &mut S,
    net: &'a str,
    root: &Option<Name>,
) -> Result<Built, Stop<'a>>
    ensures ok { IfOk result (GotSystem (S.held shelf.old) net.now root.now) }
    ensures err { IfErr result (MissesSystem (S.held shelf.old) net.now root.now (S.faults shelf.old) (S.faults shelf.new)) }
    ensures fetched { FetchesFile S.whole (S.held shelf.old net.now) net.now net_limit
        (S.fetches shelf.old) (S.fetches shelf.new) (S.faults shelf.old) (S.faults shelf.new) result }
    ensures kept { S.held shelf.new ≡ S.held shelf.old }
    ensures grows { (q : List ℕ) → S.faults shelf.old q ≤ S.faults shelf.new q }
{
    match read_file(alloc, shelf, net, &NetText) {
        Ok(design) => build_design(alloc, design, root),
        Err(stop) => Err(stop),
    }
}

/// Fetches, reads and accepts a netlist, builds its system, and fetches and reads its stations, where a file of them
/// is named; otherwise no channel has a relay station.
pub fn read_wrapped<'a, S: Shelf>(
    alloc: Global,
    shelf: &mut S,
    files: &NetFiles<'a>,
) -> Result<Wrapped, Stop<'a>>
    ensures ok { IfOk result (GotWrapped (S.held shelf.old) files.now.net.now files.now.stations.now files.now.root.now) }
    ensures err { IfErr result (MissesWrapped (S.held shelf.old) files.now.net.now files.now.stations.now files.now.root.now
        (S.faults shelf.old) (S.faults shelf.new)) }
    ensures fetched { FetchesWrapped S.whole (S.held shelf.old) files.now.net.now files.now.stations.now files.now.root.now
        (S.fetches shelf.old) (S.fetches shelf.new) (S.faults shelf.old) (S.faults shelf.new) result }
    ensures kept { S.held shelf.new ≡ S.held shelf.old }
    ensures grows { (q : List ℕ) → S.faults shelf.old q ≤ S.faults shelf.new q }
{
    let built = match read_system(alloc, shelf, files.net, files.root) {
        Ok(built) => built,
        Err(stop) => return Err(stop),
    };
    match read_placement(alloc, shelf, &built.system, files.stations) {
        Ok(placement) => Ok(Wrapped {
            checked: built.checked,
            system: built.system,
            placement,
        }),
        Err(stop) => Err(stop),
    }
}
