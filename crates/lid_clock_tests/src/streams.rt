//! Runs that are given their rows one by one, followed cycle by cycle.

ghost use Rattle.std.specs.Prelude.{◌≡◌, ◌≤◌, min, length, option_map, slice_get, IfSome};
ghost use Rattle.std.specs.List.{AllByRecursion};
ghost use Rattle.lid_system.specs.Systems.{IsWellFormed};
ghost use Rattle.lid_stations.specs.Placements.{Fits};
ghost use Rattle.lid_shell_laws.specs.Setups.{IsInputRow};
ghost use Rattle.lid_clock_tests.specs.Runs.{IsAlive, StreamIsFed, FeedsStream, StreamBegins, StreamGoes};

use crate::letters::{digit, letter, row_letter, shown_letter};
use lid_base::Items;
use lid_clock::ClockStream;
use lid_stations::{Placement, none};
use lid_system::{System, systems_have_one_table};
use lid_tests_fixtures::{ONE, RING, are_rows, placement_of, rows_of, system_of};
use std::alloc::Global;

/// The run of the ring: what the stations show as a cycle begins, how often the actors have fired, and the
/// row of the cycle before.
static RING_TRACE: &[u8] = b"0.11 00000 .\n\
10.. 11011 1\n\
.100 21112 .\n\
0.11 32222 0\n\
10.. 33233 1\n\
.100 33334 .\n\
.10. 33344 0\n";

/// That of the register whose source is held in the first cycle.
static HELD_TRACE: &[u8] = b"10 000 .\n\
.1 011 0\n\
0. 112 1\n\
10 222 .\n\
1. 223 0\n";

/// Whether the stations show what stands in a text from a place on.
fn show_so(stream: &ClockStream, text: &[u8], start: usize) -> bool
    requires { IsAlive stream.now }
{
    let stations = stream.stations.as_slice().len();
    if stations > 16 {
        return false;
    }
    for i in 0..stations as u32 {
        if letter(text, start, i) != shown_letter(stream.show(i)) {
            return false;
        }
    }
    true
}

/// Whether the actors have fired as often as stands in a text from a place on.
fn fired_so(stream: &ClockStream, text: &[u8], start: usize) -> bool
    requires { IsAlive stream.now }
{
    let actors = stream.actors.as_slice().len();
    if actors > 16 {
        return false;
    }
    for v in 0..actors as u32 {
        if letter(text, start, v) != digit(stream.fired(v)) {
            return false;
        }
    }
    true
}

/// Where a run is as the line of a trace that starts at a place says: where the next line starts.
fn next_line(stream: &ClockStream, trace: &[u8], start: usize) -> Option<usize>
    requires { IsAlive stream.now }
{
    let fired = start
        .wrapping_add(stream.stations.as_slice().len())
        .wrapping_add(1);
    let last = fired
        .wrapping_add(stream.actors.as_slice().len())
        .wrapping_add(1);
    if show_so(stream, trace, start)
        && fired_so(stream, trace, fired)
        && letter(trace, last, 0) == row_letter(stream.last())
    {
        Some(last.wrapping_add(2))
    } else {
        None
    }
}

/// Gives the next row where one is wanting, and answers how many rows were given.
fn feed(stream: &mut ClockStream, rows: &[Items<bool>], given: usize) -> usize
    requires { StreamIsFed rows.now given stream.old }
    ensures { FeedsStream rows.now given stream.old result stream.new }
{
    if !stream.needs() {
        return given;
    }
    stream.give(rows[given].as_slice());
    given + 1
}

/// Makes the first cycle, in which the source may be held. Answers how many rows were given where it made
/// one.
fn begin(stream: &mut ClockStream, rows: &[Items<bool>], given: usize, held: bool) -> Option<usize>
    requires { StreamBegins rows.now held given stream.old }
    ensures { IfSome result (λ now. StreamGoes rows.now now stream.new) }
{
    let now = feed(stream, rows, given);
    if stream.cycle_held(held, false) {
        Some(now)
    } else {
        None
    }
}

/// Makes a further cycle. Answers how many rows were given where it made one.
fn go(stream: &mut ClockStream, rows: &[Items<bool>], given: usize) -> Option<usize>
    requires { StreamGoes rows.now given stream.old }
    ensures { IfSome result (λ now. StreamGoes rows.now now stream.new) }
{
    let now = feed(stream, rows, given);
    if stream.cycle() { Some(now) } else { None }
}

/// Whether a run that has made a cycle goes on as a trace says from a place on, and ends with it.
fn goes_so(
    stream: &mut ClockStream,
    rows: &[Items<bool>],
    begun: usize,
    trace: &[u8],
    start: usize,
) -> bool
    requires { StreamGoes rows.now begun stream.old }
{
    let mut given = begun;
    let mut place = start;
    for _ in 0..16 {
        match next_line(stream, trace, place) {
            Some(next) => place = next,
            None => return false,
        }
        match go(stream, rows, given) {
            Some(now) => given = now,
            None => return place == trace.len(),
        }
    }
    false
}

/// Whether a run that starts goes as a trace says.
fn follows(stream: &mut ClockStream, rows: &[Items<bool>], held: bool, trace: &[u8]) -> bool
    requires { StreamBegins rows.now held (min 1 (length rows.now)) stream.old }
{
    let Some(start) = next_line(stream, trace, 0) else {
        return false;
    };
    match begin(stream, rows, rows.len().min(1), held) {
        Some(given) => goes_so(stream, rows, given, trace, start),
        None => false,
    }
}

/// The first row, where there is one.
fn first_of(rows: &[Items<bool>]) -> Option<&[bool]>
    ensures { option_map (λ row. row.now) result ≡ slice_get rows.now 0 }
{
    match rows.first() {
        Some(row) => Some(row.as_slice()),
        None => None,
    }
}

/// Whether the run of a system with its stations over rows goes as a trace says.
fn runs(
    alloc: Global,
    system: &System,
    placement: &Placement,
    rows: &[Items<bool>],
    held: bool,
    trace: &[u8],
) -> bool
    requires system { IsWellFormed system.now }
    requires fits { Fits system.now placement.now }
    requires few { length rows.now ≤ 1000000 }
    requires wide { AllByRecursion (IsInputRow system.now) rows.now }
{
    systems_have_one_table();
    match ClockStream::start(alloc, system, placement, rows.len() as u64, first_of(rows)) {
        Ok(mut stream) => follows(&mut stream, rows, held, trace),
        Err(_) => false,
    }
}

/// Whether the ring with a relay station goes as its trace says.
fn is_ring(alloc: Global, system: &System, rows: &[Items<bool>]) -> bool
    requires { IsWellFormed system.now }
{
    if system.channels.len() != 3 || !are_rows(system, rows) {
        return false;
    }
    match placement_of(alloc, &[1, 0, 0], &[2, 2, 2, 2]) {
        Some(placement) => runs(alloc, system, &placement, rows, false, RING_TRACE),
        None => false,
    }
}

/// Whether the register goes as its trace says.
fn is_held(alloc: Global, system: &System, rows: &[Items<bool>]) -> bool
    requires { IsWellFormed system.now }
{
    if !are_rows(system, rows) {
        return false;
    }
    match none(alloc, system) {
        Ok(placement) => runs(alloc, system, &placement, rows, true, HELD_TRACE),
        Err(_) => false,
    }
}

/// Whether the ring of a netlist goes as its trace says.
fn ring_goes(alloc: Global) -> bool {
    let Some(system) = system_of(alloc, RING) else {
        return false;
    };
    match rows_of(alloc, b"0000", 0) {
        Some(rows) => is_ring(alloc, &system, rows.bits.as_slice()),
        None => false,
    }
}

/// Whether the register of a netlist goes as its trace says.
fn register_goes(alloc: Global) -> bool {
    let Some(system) = system_of(alloc, ONE) else {
        return false;
    };
    match rows_of(alloc, b"101", 1) {
        Some(rows) => is_held(alloc, &system, rows.bits.as_slice()),
        None => false,
    }
}

#[test]
fn a_ring_with_a_relay_station_fires_twice_in_three_cycles(rt: HostRuntime) {
    assert!(rt; ring_goes(rt.alloc()));
}

#[test]
fn a_source_that_is_held_makes_a_run_one_cycle_longer(rt: HostRuntime) {
    assert!(rt; register_goes(rt.alloc()));
}
