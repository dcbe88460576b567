//! What is found with some further relay stations on a channel.

ghost use Rattle.std.specs.Prelude.{◌≡◌, ◌<◌, ◌≤◌, ◌*◌, ◌^◌, ◌↔◌, true, false, length, IfOk, IsTrue};
ghost use Rattle.lid_cert.specs.Certificates.{Certifies, has_node, part_at};
ghost use Rattle.lid_graph.specs.Rateable.{IsRateable};
ghost use Rattle.lid_stations.specs.Placements.{links_of};
ghost use Rattle.lid_slack_longer.specs.Longer.{producer};
ghost use Rattle.lid_slack.specs.Trials.{CanProbe, ShowsPresent, marking_with, IsTrialOf, ProbeKeeps, IsAgainstMore};

use lid_cert::{Cert, part_with};
use lid_graph::Graph;
use lid_rate::find;
use lid_rate_ratio::Ratio;
use lid_slack_longer::longer;
use lid_stations::{Placement, marking};
use lid_system::System;
use std::alloc::{AllocError, Global};

/// A channel of a system with stations, and the present ratio of its component.
#[derive(Clone, Copy)]
pub(crate) struct Probe<'s> {
    pub(crate) system: &'s System,
    pub(crate) placement: &'s Placement,
    pub(crate) channel: u32,
    pub(crate) present: Ratio,
}

/// A certificate with some further relay stations, and the number of its part of the channel's component.
#[derive(Drop)]
pub(crate) struct Trial {
    pub(crate) cert: Cert,
    pub(crate) part: usize,
}

/// The number of the part that a transition stands in.
pub(crate) fn part_of(graph: &Graph, cert: &Cert, v: u32) -> usize
    requires graph { IsRateable graph.now }
    requires cert { Certifies graph.now cert.now }
    requires within { v < graph.now.nodes }
    ensures within { result < length cert.now.parts }
    ensures stands { has_node (part_at cert.now.parts result) v ≡ true }
{
    let _ = graph;
    match part_with(cert, v) {
        Some(part) => part,
        None => 0,
    }
}

/// The node that a channel comes from.
pub(crate) fn producer(system: &System, channel: u32) -> u32
    requires { channel < length system.now.channels }
    ensures { result ≡ producer (links_of system.now) channel }
{
    system.channels.as_slice()[channel as usize].from
}

/// The marked graph with so many further relay stations.
fn longer_marking(alloc: Global, probe: &Probe<'_>, more: u32) -> Result<Graph, AllocError>
    requires { CanProbe probe.now more }
    ensures is { IfOk result (λ g. g ≡ marking_with probe.now more) }
    ensures rateable { IfOk result IsRateable }
    ensures few { IfOk result (λ g. g.nodes ≤ 69634) }
{
    let longer = longer(alloc, probe.placement, probe.channel, more)?;
    marking(alloc, probe.system, &longer)
}

/// What is found with so many further relay stations.
fn attempt(alloc: Global, probe: &Probe<'_>, more: u32) -> Result<Trial, AllocError>
    requires { CanProbe probe.now more }
    ensures { IfOk result (λ trial. IsTrialOf probe.now more trial.cert trial.part) }
{
    let graph = longer_marking(alloc, probe, more)?;
    let cert = find(alloc, &graph)?;
    let part = part_of(&graph, &cert, producer(probe.system, probe.channel));
    Ok(Trial { cert, part })
}

/// The ratio of a part, by its number.
pub(crate) fn ratio_of(cert: &Cert, part: usize) -> Ratio
    requires { part < length cert.now.parts }
    ensures p { result.p ≡ (part_at cert.now.parts part).p }
    ensures q { result.q ≡ (part_at cert.now.parts part).q }
{
    let part = &cert.parts.as_slice()[part];
    Ratio {
        p: part.p,
        q: part.q,
    }
}

/// Whether a ratio is below another.
pub(crate) fn is_below(ratio: Ratio, other: Ratio) -> bool
    requires p { ratio.p < 2 ^ 31 }
    requires q { ratio.q < 2 ^ 31 }
    requires other_p { other.p < 2 ^ 31 }
    requires other_q { other.q < 2 ^ 31 }
    ensures { IsTrue result ↔ ratio.p * other.q < other.p * ratio.q }
{
    ratio.p * other.q < other.p * ratio.q
}

/// What is found with some further relay stations, and whether they lower the present ratio. Then the closed walk
/// of the trial's part shows it.
#[derive(Drop)]
pub(crate) struct Outcome {
    pub(crate) trial: Trial,
    pub(crate) lowers: bool,
}

/// What is found with so many further relay stations, beside the present ratio.
pub(crate) fn outcome_of(alloc: Global, probe: &Probe<'_>, more: u32) -> Result<Outcome, AllocError>
    requires can { CanProbe probe.now more }
    requires present { ShowsPresent probe.now }
    ensures trial { IfOk result (λ outcome. IsTrialOf probe.now more outcome.trial.cert outcome.trial.part) }
    ensures kept { IfOk result (λ outcome. outcome.lowers ≡ false → ProbeKeeps probe.now more) }
    ensures lower { IfOk result (λ outcome. IsTrue outcome.lowers → ProbeKeeps probe.now more → ⊥) }
    ensures walk { IfOk result (λ outcome. IsTrue outcome.lowers → IsAgainstMore probe.now more (part_at outcome.trial.cert.parts outcome.trial.part).cycle) }
{
    let trial = attempt(alloc, probe, more)?;
    let lowers = is_below(ratio_of(&trial.cert, trial.part), probe.present);
    Ok(Outcome { trial, lowers })
}

/// Whether the present ratio is kept with so many further relay stations.
pub(crate) fn keeps(alloc: Global, probe: &Probe<'_>, more: u32) -> Result<bool, AllocError>
    requires can { CanProbe probe.now more }
    requires present { ShowsPresent probe.now }
    ensures { IfOk result (λ kept. IsTrue kept ↔ ProbeKeeps probe.now more) }
{
    let outcome = outcome_of(alloc, probe, more)?;
    Ok(!outcome.lowers)
}
