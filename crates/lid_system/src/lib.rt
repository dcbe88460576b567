//! Systems: nodes that are joined by channels, and the tokens that pass them.
#![tactic(auto)]

mod laws;
mod token;

pub use laws::{
    channels_have_one_stream, first_rows_have_the_first_tokens, shells_follow_tables,
    shells_stand_between_source_and_sink, some_system_is_well_formed, sources_give_rows,
    systems_have_one_output, systems_have_one_table, tokens_carry_bits,
};
use lid_base::{Items, Name};
use lid_pearl::Pearl;
pub use token::{pack, unpack};

/// Nodes and the channels between them. Node 0 is the source, the last node is the sink, and the
/// others are shells.
#[derive(Drop)]
pub struct System {
    pub nodes: Items<Node>,
    /// In the order of the nodes from which they come, of those to which they lead, and of pieces.
    pub channels: Items<Channel>,
}

/// A node of a system.
#[derive(Drop)]
pub enum Node {
    /// Gives the input rows: its port j has the bits of column j.
    Source {
        columns: Items<Name>,
    },
    /// Runs a pearl, whose outputs are its ports.
    Shell {
        pearl: Pearl,
        /// What each input of the pearl reads.
        ins: Items<InBit>,
    },
    /// Takes the output rows.
    Sink {
        columns: Items<Name>,
        /// What each column reads.
        ins: Items<InBit>,
    },
}

/// What an input reads.
#[derive(Clone, Copy, Debug, PartialEq, Eq)]
pub enum InBit {
    /// A bit that is the same in all rows.
    Const(bool),
    /// A bit of the tokens of a channel.
    Port { chan: u32, bit: u32 },
}

/// At most 31 ports of one node, as one token for each row.
#[derive(Drop)]
pub struct Channel {
    /// The number of the node whose ports these are.
    pub from: u32,
    /// The number of the node that reads them.
    pub to: u32,
    /// Which piece of the ports that lead from the one node to the other it is, counted from 0.
    pub piece: u32,
    /// The ports by their places among those of the node; bit j of a token is that of the j-th.
    pub ports: Items<u32>,
}
