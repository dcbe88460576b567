//! The slack of a channel.

use lid_base::Items;
use lid_cert::Cert;
use lid_rate_ratio::Ratio;

/// How many further relay stations a channel takes.
#[derive(Drop)]
pub struct Slack {
    /// The greatest number of further relay stations of capacity 2 after the last station of the channel, as
    /// far as there is room, with which the ratio of its component is not below the present one.
    pub added: u32,
    /// A certificate of the marked graph with so many more.
    pub cert: Cert,
    /// Where there is room for one more, a closed walk of the component in the marked graph with one more than
    /// `added`, by its edges, whose ratio is the least there, and below the present one.
    pub against: Option<Items<u32>>,
}

/// The slack of a channel, and the ratio with one more.
#[derive(Drop)]
pub struct SlackAndNext {
    pub slack: Slack,
    /// Where there is room for one more, the ratio of the component with one more than `added`, which is that
    /// of the walk `against`.
    pub next: Option<Ratio>,
}

/// The slack of a channel and the ratio with one more, without what shows them.
#[derive(Clone, Copy)]
pub struct PlainSlack {
    /// The greatest number of further relay stations, from 0 to 64, as in `Slack`.
    pub added: u32,
    /// Where there is room for one more, the ratio of the component with one more than `added`.
    pub next: Option<Ratio>,
}
