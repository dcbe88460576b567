//! Reads: ports of nodes that other nodes read.

ghost use Rattle.std.specs.Prelude.{◌↔◌};
ghost use Rattle.lid_base.specs.Lists.{Among};
ghost use Rattle.lid_net_channels.specs.Reads.{AreAscending};

/// A port of a node that another node reads.
#[derive(Clone, Copy, Debug, PartialEq, Eq, PartialOrd, Ord)]
pub struct Read {
    /// The node whose port it is.
    pub from: u32,
    /// The node that reads it.
    pub to: u32,
    /// The place of the port among those of its node.
    pub port: u32,
}

/// Puts reads in order, each once. It takes no memory.
pub fn put_in_order(reads: &mut Vec<Read>)
    ensures ascending { AreAscending reads.new.items }
    ensures among { (r : _) → Among r reads.new.items ↔ Among r reads.old.items }
{
    reads.sort_unstable();
    reads.dedup();
}
