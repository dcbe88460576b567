//! The printing of stations.

ghost use Rattle.std.specs.Prelude.{◌≡◌, ◌++◌, ◌∷◌, length, OnOk, OnErr};
ghost use Rattle.lid_base.specs.Lists.{Keeps};
ghost use Rattle.lid_base_lines.specs.Texts.{line_text, lines_text, spaced};
ghost use Rattle.lid_texts_runs.specs.Pieces.{node_name};
ghost use Rattle.lid_stations.specs.Placements.{links_of, Fits, station_count};
ghost use Rattle.lid_stations_text.specs.Written.{are_all_two, caps_words, channel_words, channel_lines, version_words, stations_text};

use lid_base_lines::{append_small_numbers, cut_back};
use lid_stations::Placement;
use lid_system::{Channel, System};
use lid_texts_runs::append_node;
use std::alloc::AllocError;

/// Whether each capacity is 2.
fn are_all_two(caps: &[u32]) -> bool
    ensures { result ≡ are_all_two caps.now }
{
    caps.iter().all(|capacity| *capacity == 2)
}

/// Appends the names of the nodes that a channel joins.
fn append_ends(count: u64, channel: &Channel, into: &mut Vec<u8>) -> Result<(), AllocError>
    ensures ok { OnOk result (into.new.items ≡ into.old.items ++ (node_name count channel.now.from ++ 32 ∷ node_name count channel.now.to)) }
    ensures kept { Keeps into.old.items into.new.items }
{
    append_node(count, u64::from(channel.from), into)?;
    into.push(b' ')?;
    append_node(count, u64::from(channel.to), into)
}

/// Appends the capacities of a channel, where not all are 2.
fn append_caps(two: bool, caps: &[u32], into: &mut Vec<u8>) -> Result<(), AllocError>
    ensures ok { OnOk result (into.new.items ≡ into.old.items ++ spaced (caps_words two caps.now)) }
    ensures kept { Keeps into.old.items into.new.items }
{
    if two {
        return Ok(());
    }
    append_small_numbers(caps, into)
}

/// Appends the line of a channel.
fn append_channel(
    count: u64,
    two: bool,
    channel: &Channel,
    relays: u32,
    caps: &[u32],
    into: &mut Vec<u8>,
) -> Result<(), AllocError>
    ensures ok { OnOk result (into.new.items ≡ into.old.items ++ line_text (channel_words count two channel.now relays caps.now)) }
    ensures kept { Keeps into.old.items into.new.items }
{
    append_ends(count, channel, into)?;
    append_small_numbers(&[channel.piece, relays], into)?;
    append_caps(two, caps, into)?;
    into.push(b'\n')?;
    Ok(())
}

/// Appends a line for each channel.
fn append_channels(
    count: u64,
    two: bool,
    channels: &[Channel],
    relays: &[u32],
    caps: &[u32],
    into: &mut Vec<u8>,
) -> Result<(), AllocError>
    requires counts { length relays.now ≡ length channels.now }
    requires caps { length caps.now ≡ station_count relays.now }
    ensures ok { OnOk result (into.new.items ≡ into.old.items ++ lines_text (channel_lines count two channels.now relays.now caps.now)) }
    ensures kept { Keeps into.old.items into.new.items }
{
    let mut left = caps;
    for (i, channel) in channels.iter().enumerate() {
        let (own, after) = left.split_at(relays[i] as usize + 1);
        append_channel(count, two, channel, relays[i], own, into)?;
        left = after;
    }
    Ok(())
}

/// Appends the header of stations.
#[tactic(auto, unfolding(lid_base_lines::specs::Texts::line_text))]
fn append_header(two: bool, into: &mut Vec<u8>) -> Result<(), AllocError>
    ensures ok { OnOk result (into.new.items ≡ into.old.items ++ line_text (version_words two)) }
    ensures kept { Keeps into.old.items into.new.items }
{
    if two {
        return into.extend_from_slice(b"lid-stations 1\n");
    }
    into.extend_from_slice(b"lid-stations 2\n")
}

/// Appends the header and the lines of all channels.
#[tactic(auto, unfolding(crate::specs::Written::stations_text))]
fn append_text(system: &System, placement: &Placement, into: &mut Vec<u8>) -> Result<(), AllocError>
    requires { Fits system.now placement.now }
    ensures ok { OnOk result (into.new.items ≡ into.old.items ++ stations_text (links_of system.now) placement.now) }
    ensures kept { Keeps into.old.items into.new.items }
{
    let caps = placement.caps.as_slice();
    let two = are_all_two(caps);
    append_header(two, into)?;
    append_channels(
        system.nodes.as_slice().len() as u64,
        two,
        system.channels.as_slice(),
        placement.relays.as_slice(),
        caps,
        into,
    )
}

/// Appends the text of a placement, with every channel in order: `lid-stations 1` and the relay stations
/// where each capacity is 2, and otherwise `lid-stations 2` with the capacities.
///
/// # Errors
/// Where there is no memory; `into` is then as it was.
pub fn print_stations(
    system: &System,
    placement: &Placement,
    into: &mut Vec<u8>,
) -> Result<(), AllocError>
    requires { Fits system.now placement.now }
    ensures ok { OnOk result (into.new.items ≡ into.old.items ++ stations_text (links_of system.now) placement.now) }
    ensures err { OnErr result (into.new.items ≡ into.old.items) }
{
    cut_back(into.len(), append_text(system, placement, into), into)
}
