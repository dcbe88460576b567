//! What is at fault in lines of stations and wires.

ghost use Rattle.std.specs.Prelude.{◌≡◌, ◌⊎◌, [], length, slice_index_or, Some, None, IfOk, IfErr, OnOk};
ghost use Rattle.lid_system.specs.Systems.{IsWellFormed};
ghost use Rattle.lid_stations.specs.Placements.{links_of};
ghost use Rattle.lid_stations_text.specs.Forms.{IsForm};
ghost use Rattle.lid_stations_text.specs.Faults.{channel_of, amount_fault, line_fault};
ghost use Rattle.lid_stations_text.specs.Readings.{lines_fault};
ghost use Rattle.lid_stations_text.specs.Places.{AreFirstLines};

use crate::channels::channel_of;
use crate::fault::PlaceFault;
use crate::form::{Form, has_capacities, has_form, is_empty_wire, relays_of};
use lid_base::Line;
use lid_system::System;
use std::alloc::Global;

/// The most relay stations of a channel.
const MOST_RELAYS: u64 = 64;

/// What is at fault in what a line says of its channel.
fn find_wrong_amount(form: Form, line: &Line) -> Option<PlaceFault>
    requires { IsForm form }
    ensures { result ≡ amount_fault form line.now }
{
    let words = line.words.as_slice();
    if is_empty_wire(form, words) {
        return Some(PlaceFault::ZeroLength { line: line.number });
    }
    if relays_of(form, words) > MOST_RELAYS {
        return Some(PlaceFault::TooMany { line: line.number });
    }
    if !has_capacities(words) {
        return Some(PlaceFault::Capacity { line: line.number });
    }
    None
}

/// The channel of a line, where `places` tells for each channel which earlier line names it.
fn judge_line(
    system: &System,
    form: Form,
    places: &[Option<usize>],
    line: &Line,
) -> Result<usize, PlaceFault>
    requires system { IsWellFormed system.now }
    requires form { IsForm form }
    requires long { length places.now ≡ length system.now.channels }
    ensures channel { IfOk result (λ c. channel_of (links_of system.now) line.now.words ≡ Some c) }
    ensures free { IfOk result (λ c. slice_index_or places.now c None ≡ None) }
    ensures ok { IfOk result (λ c. (earlier : _) → AreFirstLines (links_of system.now) earlier places.now
        → line_fault (links_of system.now) form earlier line.now ≡ None) }
    ensures err { IfErr result (λ e. (earlier : _) → AreFirstLines (links_of system.now) earlier places.now
        → line_fault (links_of system.now) form earlier line.now ≡ Some e) }
{
    let words = line.words.as_slice();
    if !has_form(form, words) {
        return Err(PlaceFault::Word { line: line.number });
    }
    let Some(channel) = channel_of(system, words) else {
        return Err(PlaceFault::NoChannel { line: line.number });
    };
    if places[channel].is_some() {
        return Err(PlaceFault::Twice { line: line.number });
    }
    match find_wrong_amount(form, line) {
        Some(fault) => Err(fault),
        None => Ok(channel),
    }
}

/// Tells for each channel which line names it.
fn place_lines(
    system: &System,
    form: Form,
    lines: &[Line],
    places: &mut [Option<usize>],
) -> Result<(), PlaceFault>
    requires system { IsWellFormed system.now }
    requires form { IsForm form }
    requires clear { AreFirstLines (links_of system.now) [] places.old }
    ensures ok { OnOk result (lines_fault (links_of system.now) form [] lines.now ≡ None) }
    ensures placed { OnOk result (AreFirstLines (links_of system.now) lines.now places.new) }
    ensures err { IfErr result (λ e. lines_fault (links_of system.now) form [] lines.now ≡ Some e) }
{
    for (i, line) in lines.iter().enumerate() {
        match judge_line(system, form, places, line) {
            Ok(channel) => places[channel] = Some(i),
            Err(fault) => return Err(fault),
        }
    }
    Ok(())
}

/// For each channel the line that names it, if there is one.
pub(crate) fn lines_by_channel(
    alloc: Global,
    system: &System,
    form: Form,
    lines: &[Line],
) -> Result<Vec<Option<usize>>, PlaceFault>
    requires system { IsWellFormed system.now }
    requires form { IsForm form }
    ensures ok { OnOk result (lines_fault (links_of system.now) form [] lines.now ≡ None) }
    ensures placed { IfOk result (λ places. AreFirstLines (links_of system.now) lines.now places.items) }
    ensures err { IfErr result (λ e. (e ≡ PlaceFault.Memory) ⊎ (lines_fault (links_of system.now) form [] lines.now ≡ Some e)) }
{
    let Ok(mut places) = Vec::from_elem(alloc, None, system.channels.as_slice().len()) else {
        return Err(PlaceFault::Memory);
    };
    match place_lines(system, form, lines, places.as_mut_slice()) {
        Ok(()) => Ok(places),
        Err(fault) => Err(fault),
    }
}
