//! The slack of a channel, found.

ghost use Rattle.std.specs.Prelude.{◌≡◌, ℕ, ◌+◌, ◌<◌, ◌≤◌, length, IfOk, IfSome, IsNone, Some};
ghost use Rattle.lid_cert.specs.Certificates.{Certifies};
ghost use Rattle.lid_graph.specs.Ratios.{IsRatio};
ghost use Rattle.lid_system.specs.Systems.{IsWellFormed};
ghost use Rattle.lid_stations.specs.Placed.{links_in};
ghost use Rattle.lid_stations.specs.Placements.{links_of, Fits};
ghost use Rattle.lid_slack_longer.specs.Longer.{longer_marking, producer, room, KeepsRatio};
ghost use Rattle.lid_slack.specs.Slack.{IsSlack};
ghost use Rattle.lid_slack.specs.Told.{IsCertified, IsEnd, IsTold, IsNextRatio};
ghost use Rattle.lid_slack.specs.Trials.{IsPresent, CanProbe, ShowsPresent, marking_with, ProbeKeeps, IsAgainstMore, IsMostOf, IsFoundBy};

use crate::answer::{Slack, SlackAndNext};
use crate::bisection::bisect;
use crate::certified::{Certified, certify};
use crate::proposal::propose_slack;
use crate::trial::{Probe, outcome_of, part_of, producer, ratio_of};
use lid_base::Items;
use lid_cert::Cert;
use lid_rate_ratio::Ratio;
use lid_slack_longer::{room, stations_through};
use lid_stations::{Placed, Placement};
use lid_system::System;
use std::alloc::{AllocError, Global};

/// The present ratio of the channel's component, and a guess of the slack.
#[derive(Clone, Copy)]
struct Opening {
    present: Ratio,
    guess: u32,
}

/// The present ratio, and a guess.
fn open(
    alloc: Global,
    placed: &Placed<'_>,
    present: &Certified,
    channel: u32,
    most: u32,
) -> Result<Opening, AllocError>
    requires present { IsCertified (links_in placed.now) placed.now.placement present.now }
    requires channel { channel < length placed.now.system.channels }
    ensures present { IfOk result (λ opening. IsPresent placed.now.system placed.now.placement channel opening.present.p opening.present.q) }
    ensures guess { IfOk result (λ opening. opening.guess ≤ most) }
{
    let number = part_of(
        &present.graph,
        &present.cert,
        producer(placed.system, channel),
    );
    let ratio = ratio_of(&present.cert, number);
    let station = (stations_through(placed.placement, channel) as u32).wrapping_sub(1);
    let part = &present.cert.parts.as_slice()[number];
    let guess = propose_slack(alloc, &present.graph, part, station, ratio, most)?;
    Ok(Opening {
        present: ratio,
        guess,
    })
}

/// A certificate with so many further relay stations, if they keep the present ratio.
fn kept_cert(alloc: Global, probe: &Probe<'_>, more: u32) -> Result<Option<Cert>, AllocError>
    requires can { CanProbe probe.now more }
    requires present { ShowsPresent probe.now }
    ensures some { IfOk result (λ found. IfSome found (λ cert. Certifies (marking_with probe.now more) cert)) }
    ensures kept { IfOk result (λ found. IfSome found (λ cert. ProbeKeeps probe.now more)) }
    ensures none { IfOk result (λ found. IsNone found → ProbeKeeps probe.now more → ⊥) }
{
    let outcome = outcome_of(alloc, probe, more)?;
    if outcome.lowers {
        return Ok(None);
    }
    Ok(Some(outcome.trial.cert))
}

/// A closed walk with so many further relay stations that lowers the present ratio, and its ratio.
#[derive(Drop)]
struct Lower {
    walk: Items<u32>,
    ratio: Ratio,
}

/// A closed walk with so many further relay stations that lowers the present ratio, if there is one.
fn lower_walk(alloc: Global, probe: &Probe<'_>, more: u32) -> Result<Option<Lower>, AllocError>
    requires can { CanProbe probe.now more }
    requires present { ShowsPresent probe.now }
    ensures some { IfOk result (λ found. IfSome found (λ lower. IsAgainstMore probe.now more lower.walk)) }
    ensures ratio { IfOk result (λ found. IfSome found (λ lower. IsRatio (marking_with probe.now more)
        (producer (links_of probe.now.system.now) probe.now.channel) lower.ratio.p lower.ratio.q)) }
    ensures lowers { IfOk result (λ found. IfSome found (λ lower. ProbeKeeps probe.now more → ⊥)) }
    ensures none { IfOk result (λ found. IsNone found → ProbeKeeps probe.now more) }
{
    let outcome = outcome_of(alloc, probe, more)?;
    if !outcome.lowers {
        return Ok(None);
    }
    let trial = &outcome.trial;
    let walk = Vec::from_slice(
        alloc,
        trial.cert.parts.as_slice()[trial.part].cycle.as_slice(),
    )?;
    Ok(Some(Lower {
        walk: Items::from_vec(walk),
        ratio: ratio_of(&trial.cert, trial.part),
    }))
}

/// The slack, if it is so many further relay stations, of `most` at most.
fn settle(
    alloc: Global,
    probe: &Probe<'_>,
    added: u32,
    most: u32,
) -> Result<Option<SlackAndNext>, AllocError>
    requires can { CanProbe probe.now added }
    requires room { most ≡ room probe.now.placement.now probe.now.channel }
    requires present { ShowsPresent probe.now }
    ensures some { IfOk result (λ found. IfSome found (λ all. IsFoundBy probe.now all.slack all.next)) }
    ensures none { IfOk result (λ found. IsNone found → IsMostOf probe.now added → ⊥) }
{
    let Some(cert) = kept_cert(alloc, probe, added)? else {
        return Ok(None);
    };
    if added == most {
        let slack = Slack {
            added,
            cert,
            against: None,
        };
        return Ok(Some(SlackAndNext { slack, next: None }));
    }
    let Some(lower) = lower_walk(alloc, probe, added + 1)? else {
        return Ok(None);
    };
    Ok(Some(told(added, cert, lower)))
}

/// The slack, with a walk that lowers the ratio with one more.
fn told(added: u32, cert: Cert, lower: Lower) -> SlackAndNext
    ensures slack { result.slack ≡ record { added = added; cert = cert; against = Some lower.walk } }
    ensures next { result.next ≡ Some lower.ratio }
{
    let Lower { walk, ratio } = lower;
    SlackAndNext {
        slack: Slack {
            added,
            cert,
            against: Some(walk),
        },
        next: Some(ratio),
    }
}

/// The slack by bisection.
fn search(alloc: Global, probe: &Probe<'_>, most: u32) -> Result<SlackAndNext, AllocError>
    requires can { CanProbe probe.now most }
    requires room { most ≡ room probe.now.placement.now probe.now.channel }
    requires present { ShowsPresent probe.now }
    ensures { IfOk result (λ all. IsFoundBy probe.now all.slack all.next) }
{
    let added = bisect(alloc, probe, most)?;
    match settle(alloc, probe, added, most)? {
        Some(found) => Ok(found),
        None => unreachable!(),
    }
}

/// The slack of a channel and the ratio with one more, by certificates.
pub(crate) fn slack_certified(
    alloc: Global,
    placed: &Placed<'_>,
    present: &Certified,
    channel: u32,
) -> Result<SlackAndNext, AllocError>
    requires present { IsCertified (links_in placed.now) placed.now.placement present.now }
    requires channel { channel < length placed.now.system.channels }
    ensures slack { IfOk result (λ all. IsTold (links_in placed.now) placed.now.placement channel all.slack) }
    ensures next { IfOk result (λ all. IsNextRatio (links_in placed.now) placed.now.placement channel all.slack all.next) }
{
    let most = room(placed.placement, channel);
    let opening = open(alloc, placed, present, channel, most)?;
    let probe = Probe {
        system: placed.system,
        placement: placed.placement,
        channel,
        present: opening.present,
    };
    match settle(alloc, &probe, opening.guess, most)? {
        Some(found) => Ok(found),
        None => search(alloc, &probe, most),
    }
}

/// The slack of a channel and the ratio with one more, as `slack_and_next`, from what `certify` made: it is the
/// same for all channels.
///
/// # Errors
/// Where there is no memory.
pub fn slack_from(
    alloc: Global,
    system: &System,
    placement: &Placement,
    present: &Certified,
    channel: u32,
) -> Result<SlackAndNext, AllocError>
    requires system { IsWellFormed system.now }
    requires fits { Fits system.now placement.now }
    requires present { IsCertified (links_of system.now) placement.now present.now }
    requires channel { channel < length system.now.channels }
    ensures slack { IfOk result (λ all. IsTold (links_of system.now) placement.now channel all.slack) }
    ensures next { IfOk result (λ all. IsNextRatio (links_of system.now) placement.now channel all.slack all.next) }
{
    let placed = Placed { system, placement };
    slack_certified(alloc, &placed, present, channel)
}

/// The slack of a channel, as `slack`, and the ratio with one more, where there is room for it.
///
/// # Errors
/// Where there is no memory.
pub fn slack_and_next(
    alloc: Global,
    placed: &Placed<'_>,
    channel: u32,
) -> Result<SlackAndNext, AllocError>
    requires { channel < length placed.now.system.channels }
    ensures slack { IfOk result (λ all. IsTold (links_in placed.now) placed.now.placement channel all.slack) }
    ensures next { IfOk result (λ all. IsNextRatio (links_in placed.now) placed.now.placement channel all.slack all.next) }
{
    let present = certify(alloc, placed)?;
    slack_certified(alloc, placed, &present, channel)
}

/// The slack of a channel: the greatest number of further relay stations of capacity 2 after its last station,
/// from 0 to 64, with which the ratio of its component is not below the present one. The channel may have at
/// most 64 relay stations, and all channels together at most 65,536 stations. Every smaller number keeps the
/// ratio too, though it may be higher with some. A certificate comes with it, and a closed walk that lowers
/// the ratio with one more, where there is room for one more.
///
/// # Errors
/// Where there is no memory.
pub fn slack(
    alloc: Global,
    system: &System,
    placement: &Placement,
    channel: u32,
) -> Result<Slack, AllocError>
    requires system { IsWellFormed system.now }
    requires fits { Fits system.now placement.now }
    requires channel { channel < length system.now.channels }
    ensures added { IfOk result (λ slack. IsSlack (links_of system.now) placement.now channel slack.added) }
    ensures fewer { IfOk result (λ slack. (y : ℕ) → y ≤ slack.added → KeepsRatio (links_of system.now) placement.now channel y) }
    ensures cert { IfOk result (λ slack. Certifies (longer_marking (links_of system.now) placement.now channel slack.added) slack.cert) }
    ensures against { IfOk result (λ slack. IsEnd (links_of system.now) placement.now channel slack.added slack.against) }
{
    let placed = Placed { system, placement };
    let SlackAndNext { slack, .. } = slack_and_next(alloc, &placed, channel)?;
    Ok(slack)
}
