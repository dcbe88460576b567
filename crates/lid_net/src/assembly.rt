//! The system of an accepted design, and its channels alone.

ghost use Rattle.std.specs.Prelude.{◌≡◌, ◌<◌, ◌≤◌, ◌⊎◌, ℕ, None, List, length, IfOk, IfErr};
ghost use Rattle.lid_design.specs.Elaboration.{columns};
ghost use Rattle.lid_system.specs.declared.Channel.{Channel};
ghost use Rattle.lid_system.specs.Systems.{IsWellFormed};
ghost use Rattle.lid_net_law.specs.Agreement.{IsSystemOf};
ghost use Rattle.lid_net_channels.specs.declared.fault.NetFault.TheVariants.{TooManyChannels, Memory};
ghost use Rattle.lid_net_channels.specs.Pieces.{AreChannelsOf};
ghost use Rattle.lid_net.specs.Steps.{origin_at};
ghost use Rattle.lid_net.specs.Graphs.{IsGraphOf};
ghost use Rattle.lid_net.specs.PearlParts.{ArePortsOf};
ghost use Rattle.lid_net.specs.Systems.{AreColumnsLed, AreLeads, AreNodesOf};

use crate::collect::collect_reads;
use crate::leading::lead_back;
use crate::marks::mark_ports;
use crate::nodes::{Ends, Wiring, make_nodes};
use crate::origin::Origin;
use crate::pearls::collect_ports;
use crate::ports::ShellPorts;
use lid_base::Items;
use lid_check::Checked;
use lid_net_channels::{NetFault, Read, cut_channels, name_bits, put_in_order};
use lid_system::{Channel, Node, System};
use std::alloc::{AllocError, Global};

/// The system of an accepted design: the source, a shell for each pearl and the sink, and a channel for
/// each 31 ports that one of them reads of another. It takes time in the columns, and in the order of
/// what is read, which is measured and not proved.
///
/// # Errors
/// `TooManyChannels` where there are more than 16,384, with their number; they are counted before any
/// channel or pearl is made. `Memory` where there is no memory.
pub fn build(alloc: Global, checked: &Checked) -> Result<System, NetFault>
    ensures formed { IfOk result IsWellFormed }
    ensures system { IfOk result (IsSystemOf checked.now) }
    ensures graph { IfOk result (λ s. IsGraphOf checked.now s.channels) }
    ensures err { IfErr result (λ fault. (fault ≡ Memory) ⊎ ((channels : List Channel) × IsGraphOf checked.now channels × (16384 < length channels)
        × (fault ≡ TooManyChannels (length channels)))) }
{
    match find_leads(alloc, checked) {
        Ok(leads) => join(alloc, checked, leads),
        Err(_) => Err(NetFault::Memory),
    }
}

/// The channels of the system of an accepted design, in the order in which `build` gives them, without
/// its nodes: one for each 31 ports that a node reads of another, the last of which may be shorter.
///
/// # Errors
/// Those of `build`.
pub fn find_channels(alloc: Global, checked: &Checked) -> Result<Items<Channel>, NetFault>
    ensures graph { IfOk result (IsGraphOf checked.now) }
    ensures few { IfOk result (λ channels. length channels ≤ 16384) }
    ensures err { IfErr result (λ fault. (fault ≡ Memory) ⊎ ((channels : List Channel) × IsGraphOf checked.now channels × (16384 < length channels)
        × (fault ≡ TooManyChannels (length channels)))) }
{
    match find_leads(alloc, checked) {
        Ok(leads) => cut_channels(alloc, leads.reads.as_slice()),
        Err(_) => Err(NetFault::Memory),
    }
}

/// Joins the nodes of a design and its channels.
fn join(alloc: Global, checked: &Checked, leads: Leads) -> Result<System, NetFault>
    requires ports { ArePortsOf checked.now (length (columns checked.now)) leads.ports.items }
    requires leads { AreLeads checked.now leads.origins.items leads.reads.items }
    ensures formed { IfOk result IsWellFormed }
    ensures system { IfOk result (IsSystemOf checked.now) }
    ensures graph { IfOk result (λ s. IsGraphOf checked.now s.channels) }
    ensures err { IfErr result (λ fault. (fault ≡ Memory) ⊎ ((channels : List Channel) × IsGraphOf checked.now channels × (16384 < length channels)
        × (fault ≡ TooManyChannels (length channels)))) }
{
    let channels = match cut_channels(alloc, leads.reads.as_slice()) {
        Ok(channels) => channels,
        Err(fault) => return Err(fault),
    };
    match nodes_of(alloc, checked, leads, channels.as_slice()) {
        Ok(nodes) => Ok(System { nodes, channels }),
        Err(_) => Err(NetFault::Memory),
    }
}

/// The ports of pearls, where columns are led back to, and what nodes read.
#[derive(Drop)]
struct Leads {
    ports: Vec<ShellPorts>,
    origins: Vec<Option<Origin>>,
    reads: Vec<Read>,
}

/// Leads the inputs of nodes back.
fn find_leads(alloc: Global, checked: &Checked) -> Result<Leads, AllocError>
    ensures ports { IfOk result (λ leads. ArePortsOf checked.now (length (columns checked.now)) leads.ports.items) }
    ensures leads { IfOk result (λ leads. AreLeads checked.now leads.origins.items leads.reads.items) }
{
    let ports = collect_ports(alloc, checked)?;
    let origins = find_origins(alloc, checked, ports.as_slice())?;
    let outputs = checked.network().outputs.as_slice();
    let mut reads = collect_reads(alloc, origins.as_slice(), ports.as_slice(), outputs)?;
    put_in_order(&mut reads);
    Ok(Leads {
        ports,
        origins,
        reads,
    })
}

/// Where each column is led back to.
fn find_origins(
    alloc: Global,
    checked: &Checked,
    ports: &[ShellPorts],
) -> Result<Vec<Option<Origin>>, AllocError>
    requires { ArePortsOf checked.now (length (columns checked.now)) ports.now }
    ensures { IfOk result (λ origins. AreColumnsLed checked.now origins.items) }
{
    let mut origins = Vec::from_elem(alloc, None, checked.network().columns.drivers.len())?;
    lead_columns(checked, ports, origins.as_mut_slice());
    Ok(origins)
}

/// Leads each column back, where none has an origin yet.
fn lead_columns(checked: &Checked, ports: &[ShellPorts], origins: &mut [Option<Origin>])
    requires ports { ArePortsOf checked.now (length (columns checked.now)) ports.now }
    requires size { length origins.old ≡ length (columns checked.now) }
    requires none { (k : ℕ) → origin_at origins.old k ≡ None }
    ensures size { length origins.new ≡ length origins.old }
    ensures led { AreColumnsLed checked.now origins.new }
{
    let network = checked.network();
    let design = checked.design();
    mark_ports(ports, origins);
    lead_back(
        design,
        network.columns.drivers.as_slice(),
        network.order.as_slice(),
        origins,
    );
}

/// The nodes of a design whose inputs are led back, with these channels.
fn nodes_of(
    alloc: Global,
    checked: &Checked,
    leads: Leads,
    channels: &[Channel],
) -> Result<Items<Node>, AllocError>
    requires ports { ArePortsOf checked.now (length (columns checked.now)) leads.ports.items }
    requires leads { AreLeads checked.now leads.origins.items leads.reads.items }
    requires channels { AreChannelsOf leads.reads.items channels.now }
    requires few { length channels.now ≤ 16384 }
    ensures { IfOk result (AreNodesOf checked.now leads.ports.items leads.origins.items channels.now) }
{
    let _ = checked.design();
    let Leads {
        ports,
        origins,
        reads,
    } = leads;
    let bits = name_bits(alloc, reads.as_slice(), channels)?;
    let wiring = Wiring {
        origins,
        reads,
        bits,
    };
    let ends = Ends {
        inputs: checked.inputs(),
        outputs: checked.outputs(),
        numbers: checked.network().outputs.as_slice(),
    };
    make_nodes(alloc, checked, &wiring, ports.as_slice(), &ends)
}
