//! The slack of a channel: how many further relay stations it takes before the throughput of its component falls.
#![tactic(auto)]

mod answer;
mod bisection;
mod certified;
mod finding;
mod labelled;
mod laws;
mod proposal;
mod trial;

pub use answer::{PlainSlack, Slack, SlackAndNext};
pub use certified::{Certified, certify};
pub use finding::{slack, slack_and_next, slack_from};
pub use labelled::{slack_by_ways, slack_found, slack_shown};
pub use laws::keeping_is_not_lowering;
pub use lid_slack_guess::{Proposal, Ways, new_ways, propose};
pub use proposal::propose_slack;
