//! Channels cut from reads.

ghost use Rattle.std.specs.Prelude.{◌≡◌, ◌≤◌, ◌<◌, ◌⊎◌, ◌+◌, ◌==◌, ◌&&◌, List, length, reverse, take, slice_index_or, if◌then◌else◌, IfOk, IfErr, OnOk};
ghost use Rattle.lid_system.specs.declared.Channel.{Channel};
ghost use Rattle.lid_net_channels.specs.declared.reads.Read.{Read};
ghost use Rattle.lid_net_channels.specs.declared.fault.NetFault.TheVariants.{TooManyChannels, Memory};
ghost use Rattle.lid_net_channels.specs.Pieces.{AreChannelsOf};
ghost use Rattle.lid_net_channels.specs.Cutting.{new_channel, with_port, extended, piece_for, grown, cut_back, last_width, joins, ArePieced};

use crate::fault::NetFault;
use crate::reads::Read;
use lid_base::Items;
use lid_system::Channel;
use std::alloc::{AllocError, Global};

/// The most channels of a system.
const MOST_CHANNELS: u64 = 16384;

/// The most ports of a channel.
const MOST_PORTS: u64 = 31;

/// The channels of some reads, in order: the ports that a node reads of another, in pieces of 31, the
/// last one shorter.
///
/// # Errors
/// `TooManyChannels` where there are more than 16,384, which is found before any is made; `Memory` where
/// there is no memory.
pub fn cut_channels(alloc: Global, reads: &[Read]) -> Result<Items<Channel>, NetFault>
    ensures ok { IfOk result (λ channels. AreChannelsOf reads.now channels × (length channels ≤ 16384)) }
    ensures err { IfErr result (λ fault. (fault ≡ Memory) ⊎ ((channels : List Channel) × AreChannelsOf reads.now channels × (16384 < length channels)
        × (fault ≡ TooManyChannels (length channels)))) }
{
    let count = count_channels(reads);
    if count > MOST_CHANNELS {
        return Err(NetFault::TooManyChannels { count });
    }
    match cut_all(alloc, reads) {
        Ok(channels) => Ok(channels),
        Err(_) => Err(NetFault::Memory),
    }
}

/// How many channels some reads take.
fn count_channels(reads: &[Read]) -> u64
    ensures { result ≡ length (cut_back (reverse reads.now)) }
{
    let mut count = 0u64;
    let mut width = 0u64;
    for i in 0..reads.len() {
        width = width_after(reads, i, width);
        count += one_if(width == 1);
    }
    count
}

/// How many ports the last channel has with a read more.
fn width_after(reads: &[Read], i: usize, width: u64) -> u64
    requires there { i < length reads.now }
    requires width { width ≡ last_width (cut_back (reverse (take i reads.now))) }
    ensures { result ≡ last_width (cut_back (reverse (take (i + 1) reads.now))) }
{
    if !goes_on(reads, i) {
        return 1;
    }
    if width < MOST_PORTS { width + 1 } else { 1 }
}

/// 1 where it is so, and else 0.
fn one_if(is: bool) -> u64
    ensures { result ≡ (if is then 1 else 0) }
{
    if is { 1 } else { 0 }
}

/// Whether a read is between the same nodes as the one before it.
fn goes_on(reads: &[Read], i: usize) -> bool
    requires { i < length reads.now }
    ensures { (r : Read) → r ≡ slice_index_or reads.now i r → result ≡ joins (reverse (take i reads.now)) r }
{
    if i == 0 {
        return false;
    }
    is_same_pair(&reads[i - 1], &reads[i])
}

/// Whether two reads are between the same nodes.
fn is_same_pair(a: &Read, b: &Read) -> bool
    ensures { result ≡ (a.now.from == b.now.from) && (a.now.to == b.now.to) }
{
    a.from == b.from && a.to == b.to
}

/// The channels of some reads.
fn cut_all(alloc: Global, reads: &[Read]) -> Result<Items<Channel>, AllocError>
    requires { length (cut_back (reverse reads.now)) ≤ 16384 }
    ensures { IfOk result (λ channels. reverse channels ≡ cut_back (reverse reads.now)) }
{
    let mut channels = Vec::new(alloc);
    for read in reads {
        push_read(alloc, &mut channels, *read)?;
    }
    Ok(Items::from_vec(channels))
}

/// Carries one more read.
fn push_read(alloc: Global, channels: &mut Vec<Channel>, read: Read) -> Result<(), AllocError>
    requires { ArePieced (reverse channels.old.items) }
    ensures { OnOk result (reverse channels.new.items ≡ grown read (reverse channels.old.items)) }
{
    match next_piece(channels.as_slice(), read) {
        Some(piece) => {
            let channel = begin(alloc, read, piece)?;
            channels.push(channel)?;
            Ok(())
        }
        None => extend_last(channels, read),
    }
}

/// The number of the piece that a read begins, and none where the last channel has room for it.
fn next_piece(channels: &[Channel], read: Read) -> Option<u32>
    requires { ArePieced (reverse channels.now) }
    ensures { result ≡ piece_for read (reverse channels.now) }
{
    if channels.is_empty() {
        return Some(0);
    }
    let last = &channels[channels.len() - 1];
    if !(last.from == read.from && last.to == read.to) {
        Some(0)
    } else if last.ports.len() < MOST_PORTS as usize {
        None
    } else {
        Some(last.piece + 1)
    }
}

/// Gives the last channel a port more, where there is one.
fn extend_last(channels: &mut Vec<Channel>, read: Read) -> Result<(), AllocError>
    ensures { OnOk result (reverse channels.new.items ≡ extended read (reverse channels.old.items)) }
{
    match channels.pop() {
        None => Ok(()),
        Some(last) => {
            let longer = add_port(last, read)?;
            channels.push(longer)?;
            Ok(())
        }
    }
}

/// A channel for the first port of a piece.
fn begin(alloc: Global, read: Read, piece: u32) -> Result<Channel, AllocError>
    ensures { IfOk result (λ channel. channel ≡ new_channel read piece) }
{
    let ports = vec![in alloc; read.port]?;
    Ok(Channel {
        from: read.from,
        to: read.to,
        piece,
        ports: Items::from_vec(ports),
    })
}

/// A channel with a port more.
fn add_port(channel: Channel, read: Read) -> Result<Channel, AllocError>
    ensures { IfOk result (λ longer. longer ≡ with_port channel read) }
{
    let Channel {
        from,
        to,
        piece,
        ports,
    } = channel;
    let mut ports = ports.into_vec();
    ports.push(read.port)?;
    Ok(Channel {
        from,
        to,
        piece,
        ports: Items::from_vec(ports),
    })
}
