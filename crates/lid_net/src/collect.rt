//! The ports that nodes read, by where their inputs are led back to.

ghost use Rattle.std.specs.Prelude.{◌≡◌, ◌≤◌, ◌++◌, ◌∷◌, [], length, map, flat_map, IfOk, OnOk};
ghost use Rattle.lid_net.specs.Marks.{ins_of};
ghost use Rattle.lid_net.specs.Reads.{read_at, all_reads};

use crate::leading::origin_of;
use crate::origin::Origin;
use crate::ports::ShellPorts;
use lid_net_channels::Read;
use std::alloc::{AllocError, Global};

/// What the nodes read: the shells, from node 1 on, and then the sink.
pub(crate) fn collect_reads(
    alloc: Global,
    origins: &[Option<Origin>],
    ports: &[ShellPorts],
    outputs: &[u32],
) -> Result<Vec<Read>, AllocError>
    requires few { length ports.now ≤ 4096 }
    ensures { IfOk result (λ reads. reads.items ≡ all_reads origins.now 1 (map ins_of ports.now ++ outputs.now ∷ [])) }
{
    let mut reads = Vec::new(alloc);
    for i in 0..ports.len() {
        push_reads(origins, i as u32 + 1, ports[i].ins.as_slice(), &mut reads)?;
    }
    push_reads(origins, ports.len() as u32 + 1, outputs, &mut reads)?;
    Ok(reads)
}

/// Appends what a node reads by some inputs.
fn push_reads(
    origins: &[Option<Origin>],
    to: u32,
    ins: &[u32],
    reads: &mut Vec<Read>,
) -> Result<(), AllocError>
    ensures { OnOk result (reads.new.items ≡ reads.old.items ++ flat_map (read_at origins.now to) ins.now) }
{
    for number in ins {
        push_read(origins, to, *number, reads)?;
    }
    Ok(())
}

/// Appends what a node reads by an input, where that is a port.
fn push_read(
    origins: &[Option<Origin>],
    to: u32,
    number: u32,
    reads: &mut Vec<Read>,
) -> Result<(), AllocError>
    ensures { OnOk result (reads.new.items ≡ reads.old.items ++ read_at origins.now to number) }
{
    match origin_of(origins, number) {
        Some(Origin::Port { node, place }) => {
            reads.push(Read {
                from: node,
                to,
                port: place,
            })?;
            Ok(())
        }
        _ => Ok(()),
    }
}
