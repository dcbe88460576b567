//! `rate`, `size` and `slack`: what is told of a system and its stations.

ghost use Rattle.std.specs.Prelude.{IfOk, IfErr};
ghost use Rattle.lid_top_whole.specs.Telling.{output_of};
ghost use Rattle.lid_top_script.specs.Causes.{IsWant};
ghost use Rattle.lid_top_script.specs.Outputs.{IsTextOf};
ghost use Rattle.lid_top_script.specs.Scripts.{telling_script};
ghost use Rattle.lid_top_script.specs.Whole.{RunsOn};
ghost use Rattle.lid_stations.specs.Markings.{marking};
ghost use Rattle.lid_stations.specs.Placements.{links_of};
ghost use Rattle.lid_rate_text.specs.Throughput.{IsRateText};

use lid_base::Shelf;
use lid_stations::marking;
use lid_top_script::{NetFiles, Stop, Wrapped, read_wrapped};
use std::alloc::{AllocError, Global};

/// What is told of a system and its stations.
#[derive(Clone, Copy)]
pub enum Telling {
    /// What `rate` writes: a certificate of the throughput.
    Rate,
    /// What `size` writes: the least capacities that keep the throughput.
    Size,
    /// What `slack` writes: the slack of each channel.
    Slack,
}

/// The text of a certificate of the throughput of a placement.
fn certified_text(alloc: Global, wrapped: &Wrapped) -> Result<Vec<u8>, AllocError>
    ensures { IfOk result (λ text. IsRateText (marking (links_of wrapped.now.system) wrapped.now.placement) text.items) }
{
    let graph = marking(alloc, &wrapped.system, &wrapped.placement)?;
    lid_rate_text::rate_text(alloc, &graph)
}

/// What is told of a system and its stations.
fn told_of(alloc: Global, wrapped: &Wrapped, telling: Telling) -> Result<Vec<u8>, AllocError>
    ensures { IfOk result (λ text. IsTextOf (output_of telling (links_of wrapped.now.system) wrapped.now.placement) text.items) }
{
    match telling {
        Telling::Rate => certified_text(alloc, wrapped),
        Telling::Size => lid_size_text::size_text(alloc, &wrapped.system, &wrapped.placement),
        Telling::Slack => lid_size_text::slack_text(alloc, &wrapped.system, &wrapped.placement),
    }
}

/// The same, with want of memory as a reason to stop.
fn told_text<'a>(alloc: Global, wrapped: &Wrapped, telling: Telling) -> Result<Vec<u8>, Stop<'a>>
    ensures ok { IfOk result (λ text. IsTextOf (output_of telling (links_of wrapped.now.system) wrapped.now.placement) text.items) }
    ensures err { IfErr result IsWant }
{
    match told_of(alloc, wrapped, telling) {
        Ok(text) => Ok(text),
        Err(_) => Err(Stop::Memory),
    }
}

/// What `rate`, `size` or `slack` writes. The netlist is read, whose root may be named, and its system built; then
/// the stations are read, where a file of them is named. Each file has at most 16,777,216 bytes.
///
/// # Errors
/// As the script has them: a file that is not read, the first fault of the netlist or of the stations, too many
/// channels; and want of memory.
pub fn telling_text<'a, S: Shelf>(
    alloc: Global,
    shelf: &mut S,
    files: &NetFiles<'a>,
    telling: Telling,
) -> Result<Vec<u8>, Stop<'a>>
    ensures { RunsOn S.whole S.held S.fetches S.faults shelf.old shelf.new
        (telling_script (output_of telling) files.now.net.now files.now.stations.now files.now.root.now) result }
{
    match read_wrapped(alloc, shelf, files) {
        Ok(wrapped) => told_text(alloc, &wrapped, telling),
        Err(stop) => Err(stop),
    }
}
