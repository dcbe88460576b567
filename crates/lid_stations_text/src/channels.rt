//! The channel that a line names.

ghost use Rattle.std.specs.Prelude.{◌≡◌, ◌≤◌, length, List};
ghost use Rattle.lid_system.specs.declared.Channel.{Channel};
ghost use Rattle.lid_system.specs.Systems.{IsWellFormed};
ghost use Rattle.lid_stations.specs.Placements.{links_of};
ghost use Rattle.lid_stations_text.specs.Channels.{comes_before, is_between, AreInOrder};
ghost use Rattle.lid_stations_text.specs.Faults.{shell_by, node_by, place_where, channel_of};

use lid_base::{Name, is_same, number, word_at};
use lid_system::{Channel, System};

/// A channel by the nodes that it joins and its piece.
#[derive(Clone, Copy)]
struct Ends {
    from: u64,
    to: u64,
    piece: u64,
}

/// The node of a shell, by a word `u` and a number.
fn shell_by(count: u64, word: &[u8]) -> Option<u64>
    requires { 2 ≤ count }
    ensures { result ≡ shell_by count word.now }
{
    let [first, after @ ..] = word else {
        return None;
    };
    if *first != b'u' {
        return None;
    }
    match number(after) {
        Some(shell) if shell < count - 2 => Some(shell + 1),
        _ => None,
    }
}

/// The node that a word names, where there are so many.
fn node_by(count: u64, word: &[u8]) -> Option<u64>
    requires { 2 ≤ count }
    ensures { result ≡ node_by count word.now }
{
    if is_same(word, b"in") {
        return Some(0);
    }
    if is_same(word, b"out") {
        return Some(count - 1);
    }
    shell_by(count, word)
}

/// Whether a channel stands before those with these ends.
fn comes_before(channel: &Channel, ends: Ends) -> bool
    ensures { result ≡ comes_before ends channel.now }
{
    let from = u64::from(channel.from);
    let to = u64::from(channel.to);
    from < ends.from
        || from == ends.from
            && (to < ends.to || to == ends.to && u64::from(channel.piece) < ends.piece)
}

/// Whether a channel has these ends.
fn is_between(channel: &Channel, ends: Ends) -> bool
    ensures { result ≡ is_between ends channel.now }
{
    ends.from == u64::from(channel.from)
        && ends.to == u64::from(channel.to)
        && ends.piece == u64::from(channel.piece)
}

/// The place of the channel with these ends.
fn find_channel(channels: &[Channel], ends: Ends) -> Option<usize>
    requires { AreInOrder channels.now }
    ensures { result ≡ place_where (is_between ends) 0 channels.now }
{
    let place = channels.partition_point(|channel| comes_before(channel, ends));
    if place < channels.len() && is_between(&channels[place], ends) {
        Some(place)
    } else {
        None
    }
}

/// The place of the channel that a line names.
pub(crate) fn channel_of(system: &System, words: &[Name]) -> Option<usize>
    requires { IsWellFormed system.now }
    ensures { result ≡ channel_of (links_of system.now) words.now }
{
    let count = system.nodes.as_slice().len() as u64;
    let Some(from) = node_by(count, word_at(words, 0)) else {
        return None;
    };
    let Some(to) = node_by(count, word_at(words, 1)) else {
        return None;
    };
    let Some(piece) = number(word_at(words, 2)) else {
        return None;
    };
    find_channel(system.channels.as_slice(), Ends { from, to, piece })
}
