//! Accepted designs with their channels, with their systems, and with the stations of these.

ghost use Rattle.std.specs.Prelude.{◌≡◌};

use lid_base::{Items, Name, Text};
use lid_check::Checked;
use lid_stations::Placement;
use lid_system::{Channel, System};
use std::convert::AsStr;
use std::marker::Model;

/// The files from which a command reads a design and its stations, and the root.
#[derive(Clone, Copy)]
pub struct NetFiles<'a> {
    /// The file of the netlist.
    pub net: &'a str,
    /// That of the stations, where there is one.
    pub stations: &'a Option<Text>,
    /// The name of the root model, where it is not the first.
    pub root: &'a Option<Name>,
}

impl<'a> NetFiles<'a> {
    /// The files that words name.
    pub fn of(net: &'a Text, stations: &'a Option<Text>, root: &'a Option<Name>) -> NetFiles<'a>
        ensures net { result.net.now ≡ net.now }
        ensures stations { result.stations.now ≡ stations.now }
        ensures root { result.root.now ≡ root.now }
    {
        NetFiles {
            net: net.as_str(),
            stations,
            root,
        }
    }
}

/// An accepted design with its channels, without the nodes that they join. A contract sees both.
#[derive(Drop)]
pub struct Graphed {
    /// The design.
    pub checked: Checked,
    /// Its channels.
    pub channels: Items<Channel>,
}

impl Model for Graphed {
    ghost use Rattle.lid_top_script.specs.Wrapped.{Graphing};
    ghost use Rattle.lid_top_script.specs.Scripts.{HasChannels};

    ghost Value = { Graphing };

    ghost view = { λ g. record { design = g.checked; channels = g.channels } };

    ghost invariant = { λ g. HasChannels g.checked g.channels };
}

/// An accepted design with its system. A contract sees both.
#[derive(Drop)]
pub struct Built {
    /// The design.
    pub checked: Checked,
    /// Its system.
    pub system: System,
}

impl Model for Built {
    ghost use Rattle.lid_top_script.specs.Wrapped.{Building, IsBuilt};

    ghost Value = { Building };

    ghost view = { λ b. record { design = b.checked; system = b.system } };

    ghost invariant = { λ b. IsBuilt b.checked b.system };
}

/// An accepted design with its system, and a placement of stations that fits the system. A contract sees the
/// three of them.
#[derive(Drop)]
pub struct Wrapped {
    /// The design.
    pub checked: Checked,
    /// Its system.
    pub system: System,
    /// The stations.
    pub placement: Placement,
}

impl Model for Wrapped {
    ghost use Rattle.lid_top_script.specs.Wrapped.{Wrapping, IsWrapped};

    ghost Value = { Wrapping };

    ghost view = { λ w. record { design = w.checked; system = w.system; placement = w.placement } };

    ghost invariant = { λ w. IsWrapped w.checked w.system w.placement };
}
