//! The part of an actor.

use lid_shell_nodes::{ShellNode, SinkNode, SourceNode};

/// What an actor is: a node, or a mover. The source keeps the row that it was given last, and the sink the
/// row that it made last.
#[derive(Drop)]
pub enum Role {
    /// The source.
    Source(SourceNode, Vec<bool>),
    /// A shell.
    Shell(ShellNode),
    /// A mover, which moves a token from one station to the next.
    Mover,
    /// The sink.
    Sink(SinkNode, Vec<bool>),
}
