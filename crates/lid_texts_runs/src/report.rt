//! The report on a system: its root, what it counts, and its channels.

ghost use Rattle.std.specs.Prelude.{◌≡◌, ◌+◌, ◌++◌, codes, OnOk, OnErr};
ghost use Rattle.lid_base.specs.Lists.{Keeps};
ghost use Rattle.lid_base_lines.specs.Texts.{line_text};
ghost use Rattle.lid_texts_runs.specs.Runs.{channel_words, channels_text, count_line, counts_text, report_text};

use crate::pieces::{Piece, append_pieces};
use lid_base::{Items, Name};
use lid_base_lines::cut_back;
use std::alloc::AllocError;

/// A channel of a system: its ends by the numbers of nodes, which of the channels between them it is,
/// and how many ports it carries.
#[derive(Clone, Copy)]
pub struct ChannelLine {
    pub from: u32,
    pub to: u32,
    pub piece: u32,
    pub ports: u32,
}

/// What is told of the system of an accepted design.
#[derive(Drop)]
pub struct Report {
    /// The name of the root.
    pub root: Name,
    pub shells: u32,
    /// The data inputs of the root.
    pub inputs: u32,
    pub outputs: u32,
    /// The latches over all paths.
    pub latches: u64,
    /// Those of them whose first bit was left open.
    pub defaulted: u64,
    pub channels: Items<ChannelLine>,
}

/// Appends a line of a name and a count.
fn append_count(name: &[u8], count: u64, into: &mut Vec<u8>) -> Result<(), AllocError>
    ensures ok { OnOk result (into.new.items ≡ into.old.items ++ count_line name.now count) }
    ensures kept { Keeps into.old.items into.new.items }
{
    append_pieces(&[Piece::Text(name), Piece::Number(count)], into)
}

/// Appends the lines of the counts.
fn append_counts(report: &Report, into: &mut Vec<u8>) -> Result<(), AllocError>
    ensures ok { OnOk result (into.new.items ≡ into.old.items ++ counts_text report.now) }
    ensures kept { Keeps into.old.items into.new.items }
{
    append_count(b"shells", u64::from(report.shells), into)?;
    append_count(b"inputs", u64::from(report.inputs), into)?;
    append_count(b"outputs", u64::from(report.outputs), into)?;
    append_count(b"latches", report.latches, into)?;
    append_count(b"defaulted", report.defaulted, into)?;
    append_count(b"channels", report.channels.len() as u64, into)
}

/// Appends the line of a channel, in a system with so many nodes.
fn append_channel(nodes: u64, channel: &ChannelLine, into: &mut Vec<u8>) -> Result<(), AllocError>
    ensures ok { OnOk result (into.new.items ≡ into.old.items ++ line_text (channel_words nodes channel.now)) }
    ensures kept { Keeps into.old.items into.new.items }
{
    let line = [
        Piece::Text(b"channel"),
        Piece::Node {
            count: nodes,
            node: u64::from(channel.from),
        },
        Piece::Node {
            count: nodes,
            node: u64::from(channel.to),
        },
        Piece::Number(u64::from(channel.piece)),
        Piece::Text(b"ports"),
        Piece::Number(u64::from(channel.ports)),
    ];
    append_pieces(&line, into)
}

/// Appends a line for each channel.
fn append_channels(
    nodes: u64,
    channels: &[ChannelLine],
    into: &mut Vec<u8>,
) -> Result<(), AllocError>
    ensures ok { OnOk result (into.new.items ≡ into.old.items ++ channels_text nodes channels.now) }
    ensures kept { Keeps into.old.items into.new.items }
{
    for channel in channels {
        append_channel(nodes, channel, into)?;
    }
    Ok(())
}

/// Appends the lines.
#[tactic(auto, unfolding(crate::specs::Runs::report_text))]
fn append_report(report: &Report, into: &mut Vec<u8>) -> Result<(), AllocError>
    ensures ok { OnOk result (into.new.items ≡ into.old.items ++ report_text report.now) }
    ensures kept { Keeps into.old.items into.new.items }
{
    append_pieces(
        &[Piece::Text(b"root"), Piece::Text(report.root.as_slice())],
        into,
    )?;
    append_counts(report, into)?;
    append_channels(
        u64::from(report.shells) + 2,
        report.channels.as_slice(),
        into,
    )
}

/// Appends a report: a line for the root and for each count, and then one for each channel in order.
///
/// # Errors
/// Want of memory. Then nothing was appended.
pub fn print_report(report: &Report, into: &mut Vec<u8>) -> Result<(), AllocError>
    ensures ok { OnOk result (into.new.items ≡ into.old.items ++ report_text report.now) }
    ensures err { OnErr result (into.new.items ≡ into.old.items) }
{
    cut_back(into.len(), append_report(report, into), into)
}
