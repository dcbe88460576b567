//! What the nodes of a system do in a firing: from the tokens that they take to those that they put.
#![tactic(auto)]

mod shell;
mod sink;
mod source;
mod wires;

pub use shell::ShellNode;
pub use sink::SinkNode;
pub use source::SourceNode;
pub use wires::{InputRead, TokenPlaces};
