//! The text of the slack of all channels.

ghost use Rattle.std.specs.Prelude.{◌≡◌, ◌++◌, ◌<◌, length, IfOk, OnOk};
ghost use Rattle.lid_base_lines.specs.Texts.{line_text};
ghost use Rattle.lid_size_text.specs.Slacks.{channel_name, slack_words, next_ratio_word, IsSlackText};
ghost use Rattle.lid_slack.specs.Told.{IsCertified};
ghost use Rattle.lid_stations.specs.Placed.{links_in};
ghost use Rattle.lid_stations.specs.Placements.{links_of, Fits};
ghost use Rattle.lid_system.specs.Systems.{IsWellFormed};

use crate::ratio::append_ratio;
use lid_base_lines::append_number_word;
use lid_rate_ratio::Ratio;
use lid_slack::{Certified, PlainSlack, certify, new_ways, slack_by_ways};
use lid_stations::{Placed, Placement};
use lid_system::System;
use lid_texts_runs::append_node;
use std::alloc::{AllocError, Global};

/// Appends the ratio with one more: a line where there is no room for it.
fn append_next(next: Option<Ratio>, into: &mut Vec<u8>) -> Result<(), AllocError>
    ensures { OnOk result (into.new.items ≡ into.old.items ++ next_ratio_word next) }
{
    match next {
        Some(ratio) => append_ratio(ratio.p, ratio.q, into),
        None => into.extend_from_slice(b"-"),
    }
}

/// Appends the words that name a channel.
fn append_channel(system: &System, channel: u32, into: &mut Vec<u8>) -> Result<(), AllocError>
    requires { channel < length system.now.channels }
    ensures { OnOk result (into.new.items ≡ into.old.items ++ channel_name (links_of system.now) channel) }
{
    let count = system.nodes.as_slice().len() as u64;
    let named = &system.channels.as_slice()[channel as usize];
    append_node(count, u64::from(named.from), into)?;
    into.push(b' ')?;
    append_node(count, u64::from(named.to), into)?;
    append_number_word(u64::from(named.piece), into)
}

/// Appends the line of a channel with such slack.
#[tactic(auto, unfolding(lid_base_lines::specs::Texts::line_text))]
fn append_slack(
    system: &System,
    channel: u32,
    found: PlainSlack,
    into: &mut Vec<u8>,
) -> Result<(), AllocError>
    requires { channel < length system.now.channels }
    ensures { OnOk result (into.new.items ≡ into.old.items ++ line_text (slack_words (links_of system.now) channel found.added (next_ratio_word found.next))) }
{
    into.extend_from_slice(b"slack ")?;
    append_channel(system, channel, into)?;
    append_number_word(u64::from(found.added), into)?;
    into.extend_from_slice(b" next ")?;
    append_next(found.next, into)?;
    into.push(b'\n')?;
    Ok(())
}

/// The text of `slack_text`, from what is the same for all channels.
fn text_from(alloc: Global, placed: &Placed<'_>, present: &Certified) -> Result<Vec<u8>, AllocError>
    requires { IsCertified (links_in placed.now) placed.now.placement present.now }
    ensures { IfOk result (λ text. IsSlackText (links_in placed.now) placed.now.placement text.items) }
{
    let mut ways = new_ways(
        alloc,
        &present.graph,
        &present.cert,
        placed.placement.relays.as_slice(),
    )?;
    let mut text = Vec::new(alloc);
    for channel in 0..placed.system.channels.len() {
        let number = channel as u32;
        let found = slack_by_ways(alloc, placed, present, number, &mut ways)?;
        append_slack(placed.system, number, found, &mut text)?;
    }
    Ok(text)
}

/// The slack of each channel of a system, in order: a line with the channel, how many further relay stations it
/// takes, and the ratio of its component with one more. The placement as it is is certified once for all channels, and
/// what is searched for a channel is held no longer than for it.
///
/// # Errors
/// Where there is no memory.
pub fn slack_text(
    alloc: Global,
    system: &System,
    placement: &Placement,
) -> Result<Vec<u8>, AllocError>
    requires system { IsWellFormed system.now }
    requires fits { Fits system.now placement.now }
    ensures { IfOk result (λ text. IsSlackText (links_of system.now) placement.now text.items) }
{
    let placed = Placed { system, placement };
    let present = certify(alloc, &placed)?;
    text_from(alloc, &placed, &present)
}
