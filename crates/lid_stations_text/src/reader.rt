//! The reading of stations and wires.

ghost use Rattle.std.specs.Prelude.{◌≡◌, ◌≤◌, ◌⊎◌, Ok, Err, Some, IfOk, IfErr};
ghost use Rattle.lid_system.specs.Systems.{IsWellFormed};
ghost use Rattle.lid_stations.specs.Placements.{links_of, Fits};
ghost use Rattle.lid_stations_text.specs.Forms.{IsKind};
ghost use Rattle.lid_stations_text.specs.Readings.{told, lines_reading, reading, stations_reading, wires_reading};

use crate::building::build;
use crate::fault::PlaceFault;
use crate::form::{Kind, form_by};
use lid_base::{Line, Which};
use lid_base_lines::{LinesFault, limited_lines};
use lid_stations::Placement;
use lid_system::System;
use std::alloc::Global;

/// How a fault of the lines is told.
fn told(fault: LinesFault) -> PlaceFault
    ensures { result ≡ told fault }
{
    match fault {
        LinesFault::TooLong { bytes } => PlaceFault::Limit {
            which: Which::FileBytes,
            count: bytes,
        },
        LinesFault::Word { line } => PlaceFault::Word { line },
        LinesFault::Memory => PlaceFault::Memory,
    }
}

/// The placement that all lines of a text stand for.
fn read_lines(
    alloc: Global,
    system: &System,
    kind: Kind,
    lines: &[Line],
) -> Result<Placement, PlaceFault>
    requires system { IsWellFormed system.now }
    requires kind { IsKind kind }
    ensures ok { IfOk result (λ p. lines_reading (links_of system.now) kind lines.now ≡ Ok p) }
    ensures err { IfErr result (λ e. (e ≡ PlaceFault.Memory) ⊎ (lines_reading (links_of system.now) kind lines.now ≡ Err e)) }
    ensures fits { IfOk result (Fits system.now) }
{
    let [header, after @ ..] = lines else {
        return Err(PlaceFault::Word { line: 0 });
    };
    match form_by(kind, header.words.as_slice()) {
        Some(form) => build(alloc, system, form, after),
        None => Err(PlaceFault::Word {
            line: header.number,
        }),
    }
}

/// The placement that a text stands for.
#[tactic(auto, unfolding(crate::specs::Readings::reading))]
fn read(alloc: Global, system: &System, kind: Kind, bytes: &[u8]) -> Result<Placement, PlaceFault>
    requires system { IsWellFormed system.now }
    requires kind { IsKind kind }
    ensures ok { IfOk result (λ p. reading (links_of system.now) kind bytes.now ≡ Ok p) }
    ensures err { IfErr result (λ e. (e ≡ PlaceFault.Memory) ⊎ (reading (links_of system.now) kind bytes.now ≡ Err e)) }
    ensures fits { IfOk result (Fits system.now) }
{
    match limited_lines(alloc, bytes) {
        Ok(lines) => read_lines(alloc, system, kind, lines.as_slice()),
        Err(fault) => Err(told(fault)),
    }
}

/// Reads a text of stations: the line `lid-stations 1` and lines `FROM TO PIECE COUNT`, or the line
/// `lid-stations 2` and lines `FROM TO PIECE COUNT C0 .. CK`, with the capacities of the COUNT + 1
/// stations of the channel. A channel that is not named has one station; a capacity that is not named
/// is 2.
///
/// # Errors
/// `Limit` of `FileBytes`, with the length of the text, comes first of all, where there are more than
/// 16,777,216 bytes. Then `Word` tells the first line with a bad byte or a word of more than 1,024
/// bytes. Then the first line that is at fault is told: by `Word` where it has not the form that is
/// due, by `NoChannel` and `Twice` where it names no channel of the system or one that stands on an
/// earlier line, by `TooMany` with more than 64 relay stations, and by `Capacity` with a capacity that
/// is not in 2 to 16. Last comes `TotalLimit`, with more than 65,536 stations in all. `Memory` may come
/// at any text.
pub fn read_stations(alloc: Global, bytes: &[u8], system: &System) -> Result<Placement, PlaceFault>
    requires { IsWellFormed system.now }
    ensures ok { IfOk result (λ p. stations_reading (links_of system.now) bytes.now ≡ Ok p) }
    ensures err { IfErr result (λ e. (e ≡ PlaceFault.Memory) ⊎ (stations_reading (links_of system.now) bytes.now ≡ Err e)) }
    ensures fits { IfOk result (Fits system.now) }
{
    read(alloc, system, Kind::Stations, bytes)
}

/// Reads a text of wires, the line `lid-wires 1` and lines `FROM TO PIECE LENGTH`, and places relay
/// stations on them: `LENGTH / reach`, rounded up, less one. Lengths and `reach`, which is at least 1,
/// have the same unit, and `reach` is how far a signal comes in one clock cycle. A channel that is not
/// named has no relay station, and each capacity is 2.
///
/// # Errors
/// As those of `read_stations`, but that a line of length 0 is told by `ZeroLength`, before `TooMany`,
/// and none by `Capacity`.
pub fn place(
    alloc: Global,
    bytes: &[u8],
    reach: u64,
    system: &System,
) -> Result<Placement, PlaceFault>
    requires system { IsWellFormed system.now }
    requires reach { 1 ≤ reach }
    ensures ok { IfOk result (λ p. wires_reading reach (links_of system.now) bytes.now ≡ Ok p) }
    ensures err { IfErr result (λ e. (e ≡ PlaceFault.Memory) ⊎ (wires_reading reach (links_of system.now) bytes.now ≡ Err e)) }
    ensures fits { IfOk result (Fits system.now) }
{
    read(alloc, system, Kind::Wires { reach }, bytes)
}
