//! Systems whose channels have stations.

use crate::placement::Placement;
use lid_system::System;
use std::marker::Model;

/// A well-formed system, and stations on its channels that fit it. Whoever makes one shows that they do, so whoever
/// takes one need not ask for it. A contract sees the two of them.
#[derive(Drop)]
pub struct Placed<'s> {
    /// The system.
    pub system: &'s System,
    /// How many relay stations each channel has, and how many tokens each station holds at most.
    pub placement: &'s Placement,
}

impl<'s> Model for Placed<'s> {
    ghost use Rattle.lid_stations.specs.Placed.{Placing, IsPlaced};

    ghost Value = { Placing };

    ghost view = { λ p. record { system = p.system.now; placement = p.placement.now } };

    ghost invariant = { λ p. IsPlaced p.system.now p.placement.now };
}
