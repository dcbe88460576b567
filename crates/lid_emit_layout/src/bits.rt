//! The bits of the tokens of a station.

ghost use Rattle.std.specs.Prelude.{◌≡◌, ◌≤◌, IfOk, length, slice_index_or, false};
ghost use Rattle.lid_emit_shells.specs.Shells.{nets_of, begins_before, wire_in};
ghost use Rattle.lid_emit_cells.specs.Shown.{wire_of};
ghost use Rattle.lid_emit_system.specs.Wrapping.{first_put};
ghost use Rattle.lid_emit_layout.specs.Bits.{IsBit, AreBits};

use crate::sites::Site;
use lid_base::Items;
use lid_emit_cells::{Bit, Shell, Wire};
use lid_emit_shells::Shells;
use lid_system::{Channel, Node, System};
use std::alloc::{AllocError, Global};

/// The bit of an output of shell v in the first row, and 0 where there is no such shell or output.
fn begins_at(shells: &Shells, v: u32, port: u32) -> bool
    ensures { result ≡ slice_index_or (begins_before shells.now.begins v) port false }
{
    if v == 0 {
        return false;
    }
    match shells.begins.as_slice().get(v as usize - 1) {
        Some(bits) => bits.as_slice().get(port as usize).copied().unwrap_or(false),
        None => false,
    }
}

/// The net of an output of a shell.
fn net_of(shell: &Shell, port: u32) -> u32
    ensures { result ≡ slice_index_or shell.now.flat.outs port 0 }
{
    shell
        .flat
        .outs
        .as_slice()
        .get(port as usize)
        .copied()
        .unwrap_or(0)
}

/// The wire that has a net of a shell after a firing.
fn wire_after(shell: &Shell, net: u32) -> Wire
    ensures { wire_of result ≡ wire_in shell.now.after net }
{
    shell
        .after
        .as_slice()
        .get(net as usize)
        .copied()
        .unwrap_or(Wire::Offer)
}

/// The wire of an output of shell v after a firing.
fn output_of(shells: &Shells, v: u32, port: u32) -> Wire
    ensures { wire_of result ≡ (nets_of shells.now).after v (slice_index_or ((nets_of shells.now).flat v).outs port 0) }
{
    if v == 0 {
        return Wire::Offer;
    }
    match shells.shells.as_slice().get(v as usize - 1) {
        Some(shell) => wire_after(shell, net_of(shell, port)),
        None => Wire::Offer,
    }
}

/// The port that bit j of the tokens of a channel comes from, and 0 past the last bit.
fn port_of(channel: &Channel, j: u32) -> u32
    ensures { result ≡ slice_index_or channel.now.ports j 0 }
{
    let ports = channel.ports.as_slice();
    ports.get(j as usize).copied().unwrap_or(0)
}

/// What the node from which a channel comes puts for a port.
fn put_first(system: &System, shells: &Shells, channel: &Channel, j: u32) -> Wire
    ensures { wire_of result ≡ first_put system.now (nets_of shells.now) channel.now j }
{
    let port = port_of(channel, j);
    match system.nodes.as_slice().get(channel.from as usize) {
        Some(Node::Shell { .. }) => output_of(shells, channel.from, port),
        Some(_) => Wire::Given(port),
        None => Wire::Given(0),
    }
}

/// Bit j of the tokens of a station of a channel.
fn bit_at(system: &System, shells: &Shells, channel: &Channel, site: Site, j: u32) -> Bit
    requires { site.place ≤ site.station }
    ensures { IsBit system.now (nets_of shells.now) channel.now site j result }
{
    let port = port_of(channel, j);
    let begins = begins_at(shells, site.filler, port);
    let put = if site.place == 0 {
        put_first(system, shells, channel, j)
    } else {
        Wire::Place(site.station - 1, 0, j)
    };
    Bit { begins, put }
}

/// All bits of the tokens of a station of a channel.
pub(crate) fn make_bits(
    alloc: Global,
    system: &System,
    shells: &Shells,
    channel: &Channel,
    site: Site,
) -> Result<Items<Bit>, AllocError>
    requires place { site.place ≤ site.station }
    requires few { length channel.now.ports ≤ 31 }
    ensures { IfOk result (AreBits system.now (nets_of shells.now) channel.now site) }
{
    let mut bits = Vec::new(alloc);
    for j in 0..channel.ports.len() {
        bits.push(bit_at(system, shells, channel, site, j as u32))?;
    }
    Ok(Items::from_vec(bits))
}
