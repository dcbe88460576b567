//! The bits of channels that inputs read.

ghost use Rattle.std.specs.Prelude.{◌≡◌, ◌≤◌, ◌++◌, List, length, IfOk, OnOk};
ghost use Rattle.std.specs.List.{AllByRecursion};
ghost use Rattle.lid_base.specs.Lists.{Among};
ghost use Rattle.lid_base.specs.Each.{from_each};
ghost use Rattle.lid_system.specs.declared.Channel.{Channel};
ghost use Rattle.lid_system.specs.declared.InBit.TheVariants.{Port};
ghost use Rattle.lid_net_channels.specs.Reads.{AreAscending};
ghost use Rattle.lid_net_channels.specs.Pieces.{AreChannelsOf};
ghost use Rattle.lid_net_channels.specs.Bits.{bits_from, Carries, CarryAll};

use crate::reads::Read;
use lid_system::{Channel, InBit};
use std::alloc::{AllocError, Global};

/// The bits of the channels of some reads, in the order of the reads.
pub fn name_bits(
    alloc: Global,
    reads: &[Read],
    channels: &[Channel],
) -> Result<Vec<InBit>, AllocError>
    requires channels { AreChannelsOf reads.now channels.now }
    requires few { length channels.now ≤ 16384 }
    ensures { IfOk result (λ bits. CarryAll channels.now reads.now bits.items) }
{
    let mut bits = Vec::with_capacity(alloc, reads.len())?;
    push_all(channels, &mut bits)?;
    Ok(bits)
}

/// Appends the bits of some channels.
fn push_all(channels: &[Channel], bits: &mut Vec<InBit>) -> Result<(), AllocError>
    requires few { length channels.now ≤ 16384 }
    requires narrow { AllByRecursion (λ c. length c.ports ≤ 31) channels.now }
    ensures { OnOk result (bits.new.items ≡ bits.old.items ++ bits_from 0 channels.now) }
{
    for chan in 0..channels.len() {
        push_bits(chan as u32, channels[chan].ports.len(), bits)?;
    }
    Ok(())
}

/// Appends so many bits of a channel.
fn push_bits(chan: u32, ports: usize, bits: &mut Vec<InBit>) -> Result<(), AllocError>
    requires { ports ≤ 31 }
    ensures { OnOk result (bits.new.items ≡ bits.old.items ++ from_each (Port chan) 0 ports) }
{
    for bit in 0..ports {
        bits.push(InBit::Port {
            chan,
            bit: bit as u32,
        })?;
    }
    Ok(())
}

/// The bit that carries a read, by the bits of all reads in order.
pub fn find_bit(reads: &[Read], bits: &[InBit], read: Read) -> InBit
    requires ascending { AreAscending reads.now }
    requires there { Among read reads.now }
    requires all { length bits.now ≡ length reads.now }
    ensures { (channels : List Channel) → CarryAll channels reads.now bits.now → Carries channels read result }
{
    match reads.binary_search(&read) {
        Ok(place) => bits[place],
        Err(_) => unreachable!(),
    }
}
