//! The wires that inputs read.

ghost use Rattle.std.specs.Prelude.{◌≡◌, map, length, IfOk};
ghost use Rattle.std.specs.List.{AllByRecursion};
ghost use Rattle.lid_emit_shells.specs.Reading.{ReadsBelow, wire_by};

use lid_emit_cells::Wire;
use lid_system::InBit;
use std::alloc::{AllocError, Global};

/// The wire that an input reads: a constant, or a bit of the token in the first place of the last
/// station of a channel.
fn read_wire(lasts: &[u32], read: InBit) -> Wire
    requires { ReadsBelow (length lasts.now) read }
    ensures { result ≡ wire_by lasts.now read }
{
    match read {
        InBit::Const(bit) => Wire::Steady(bit),
        InBit::Port { chan, bit } => Wire::Place(lasts[chan as usize], 0, bit),
    }
}

/// The wires that some inputs read, by the last stations of channels. Each reads a constant, or one of
/// these channels.
///
/// # Errors
/// Where there is no memory.
pub fn input_wires(alloc: Global, lasts: &[u32], reads: &[InBit]) -> Result<Vec<Wire>, AllocError>
    requires { AllByRecursion (ReadsBelow (length lasts.now)) reads.now }
    ensures { IfOk result (λ wires. wires.items ≡ map (wire_by lasts.now) reads.now) }
{
    let mut wires = Vec::with_capacity(alloc, reads.len())?;
    for read in reads {
        wires.push(read_wire(lasts, *read))?;
    }
    Ok(wires)
}
