//! `check`: whether a netlist is accepted, and its nodes and channels.

ghost use Rattle.std.specs.Prelude.{◌≡◌, ◌≤◌, ◌<◌, Option, length, map, IfOk, IfErr};
ghost use Rattle.std.specs.List.{AllByRecursion};
ghost use Rattle.lid_texts_runs.specs.Runs.{report_text};
ghost use Rattle.lid_top_script.specs.Outputs.{channel_line, report_of, root_name};
ghost use Rattle.lid_top_script.specs.Causes.{IsWant};
ghost use Rattle.lid_top_script.specs.Scripts.{check_script};
ghost use Rattle.lid_top_script.specs.Whole.{RunsOn};

use lid_base::{Items, Name, Shelf, copy_name};
use lid_check::Checked;
use lid_system::Channel;
use lid_texts_runs::{ChannelLine, Report, print_report};
use lid_top_script::{Graphed, Stop, read_channels};
use std::alloc::{AllocError, Global};

/// What is told of a channel.
fn line_of(channel: &Channel) -> ChannelLine
    requires { length channel.now.ports ≤ 31 }
    ensures { result ≡ channel_line channel.now }
{
    ChannelLine {
        from: channel.from,
        to: channel.to,
        piece: channel.piece,
        ports: channel.ports.len() as u32,
    }
}

/// What is told of some channels.
fn lines_of(alloc: Global, channels: &[Channel]) -> Result<Items<ChannelLine>, AllocError>
    requires { AllByRecursion (λ c. length c.ports ≤ 31) channels.now }
    ensures { IfOk result (λ lines. lines ≡ map channel_line channels.now) }
{
    let mut lines = Vec::with_capacity(alloc, channels.len())?;
    for channel in channels {
        lines.push(line_of(channel))?;
    }
    Ok(Items::from_vec(lines))
}

/// The name of the root.
fn root_name(checked: &Checked) -> &Name
    ensures { result.now ≡ root_name checked.now }
{
    let design = checked.design();
    &design.models.as_slice()[design.root as usize].name
}

/// What is told of an accepted design and its channels.
fn report_of(alloc: Global, graphed: &Graphed) -> Result<Report, AllocError>
    ensures { IfOk result (λ report. report ≡ report_of graphed.now.design graphed.now.channels) }
{
    let checked = &graphed.checked;
    let root = copy_name(alloc, root_name(checked).as_slice())?;
    let channels = lines_of(alloc, graphed.channels.as_slice())?;
    Ok(Report {
        root,
        shells: checked.pearls(),
        inputs: checked.inputs().len() as u32,
        outputs: checked.outputs().len() as u32,
        latches: checked.latches(),
        defaulted: checked.defaulted(),
        channels,
    })
}

/// What is printed of an accepted design and its channels.
fn print_graphed(alloc: Global, graphed: &Graphed) -> Result<Vec<u8>, AllocError>
    ensures { IfOk result (λ text. text.items ≡ report_text (report_of graphed.now.design graphed.now.channels)) }
{
    let report = report_of(alloc, graphed)?;
    let mut text = Vec::new(alloc);
    print_report(&report, &mut text)?;
    Ok(text)
}

/// The same, with want of memory as a reason to stop.
fn graphed_text<'a>(alloc: Global, graphed: &Graphed) -> Result<Vec<u8>, Stop<'a>>
    ensures ok { IfOk result (λ text. text.items ≡ report_text (report_of graphed.now.design graphed.now.channels)) }
    ensures err { IfErr result IsWant }
{
    match print_graphed(alloc, graphed) {
        Ok(text) => Ok(text),
        Err(_) => Err(Stop::Memory),
    }
}

/// What `check` writes.
pub fn check_text<'a, S: Shelf>(
    alloc: Global,
    shelf: &mut S,
    net: &'a str,
    root: &Option<Name>,
) -> Result<Vec<u8>, Stop<'a>>
    ensures { RunsOn S.whole S.held S.fetches S.faults shelf.old shelf.new (check_script net.now root.now) result }
{
    match read_channels(alloc, shelf, net, root) {
        Ok(graphed) => graphed_text(alloc, &graphed),
        Err(stop) => Err(stop),
    }
}
