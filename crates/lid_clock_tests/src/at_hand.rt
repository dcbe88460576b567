//! Runs over rows that are held at hand.

ghost use Rattle.std.specs.Prelude.{◌≤◌, length};
ghost use Rattle.std.specs.List.{AllByRecursion};
ghost use Rattle.lid_system.specs.Systems.{IsWellFormed};
ghost use Rattle.lid_stations.specs.Placements.{Fits};
ghost use Rattle.lid_shell_laws.specs.Setups.{IsInputRow};
ghost use Rattle.lid_clock.specs.Clocks.{IsClockedRun};

use crate::letters::{bit_letter, digit, letter, shown_letter};
use lid_clock::Clocked;
use lid_stations::{Placement, none};
use lid_system::{System, systems_have_one_table};
use lid_tests_fixtures::{ONE, are_rows, placement_of, rows_of, system_of};
use lid_texts::Rows;
use std::alloc::Global;

/// Makes a cycle by its parts, where the run is not over.
fn cycle_by_parts(clocked: &mut Clocked)
    requires { IsClockedRun clocked.old }
    ensures { IsClockedRun clocked.new }
{
    if clocked.ready() {
        clocked.stream.cycle();
        clocked.keep();
    }
}

/// Whether a run ends after so many cycles, of which it makes one by its parts and one by itself.
fn ends_after(clocked: &mut Clocked, cycles: u64) -> bool
    requires { IsClockedRun clocked.old }
    ensures { IsClockedRun clocked.new }
{
    cycle_by_parts(clocked);
    clocked.cycle();
    clocked.run() == cycles && clocked.made() == cycles
}

/// Whether the stations show this.
pub(crate) fn show_so(clocked: &Clocked, shown: &[u8]) -> bool
    requires { IsClockedRun clocked.now }
{
    let stations = clocked.stream.stations.as_slice().len();
    if stations > 16 {
        return false;
    }
    for i in 0..stations as u32 {
        if letter(shown, 0, i) != shown_letter(clocked.show(i)) {
            return false;
        }
    }
    stations == shown.len()
}

/// Whether the actors have fired so often.
pub(crate) fn fired_so(clocked: &Clocked, fired: &[u8]) -> bool
    requires { IsClockedRun clocked.now }
{
    let actors = clocked.stream.actors.as_slice().len();
    if actors > 16 {
        return false;
    }
    for v in 0..actors as u32 {
        if letter(fired, 0, v) != digit(clocked.fired(v)) {
            return false;
        }
    }
    actors == fired.len()
}

/// Whether rows have one column each, with these bits.
pub(crate) fn are_bits(rows: &[Vec<bool>], bits: &[u8]) -> bool {
    if rows.len() != bits.len() {
        return false;
    }
    for i in 0..rows.len() {
        let row = rows[i].as_slice();
        if row.len() != 1 || bit_letter(row[0]) != bits[i] {
            return false;
        }
    }
    true
}

/// Whether the run over some rows has so many cycles, and these rows, firings and shown tokens at its end.
fn runs(
    alloc: Global,
    system: &System,
    placement: &Placement,
    rows: &Rows,
    cycles: u64,
    ends: (&[u8], &[u8], &[u8]),
) -> bool
    requires system { IsWellFormed system.now }
    requires fits { Fits system.now placement.now }
    requires few { length rows.now.bits ≤ 1000000 }
    requires wide { AllByRecursion (IsInputRow system.now) rows.now.bits }
{
    systems_have_one_table();
    let Ok(mut clocked) = Clocked::start(alloc, system, placement, rows) else {
        return false;
    };
    let (outs, fired, shown) = ends;
    ends_after(&mut clocked, cycles)
        && are_bits(clocked.rows(), outs)
        && fired_so(&clocked, fired)
        && show_so(&clocked, shown)
}

/// The same of the register without relay stations.
fn is_plain(
    alloc: Global,
    system: &System,
    rows: &Rows,
    cycles: u64,
    ends: (&[u8], &[u8], &[u8]),
) -> bool
    requires { IsWellFormed system.now }
{
    if !are_rows(system, rows.bits.as_slice()) {
        return false;
    }
    match none(alloc, system) {
        Ok(placement) => runs(alloc, system, &placement, rows, cycles, ends),
        Err(_) => false,
    }
}

/// The same of the register with two relay stations to the sink.
fn is_relayed(
    alloc: Global,
    system: &System,
    rows: &Rows,
    cycles: u64,
    ends: (&[u8], &[u8], &[u8]),
) -> bool
    requires { IsWellFormed system.now }
{
    if system.channels.len() != 2 || !are_rows(system, rows.bits.as_slice()) {
        return false;
    }
    match placement_of(alloc, &[0, 2], &[2, 2, 2, 2]) {
        Some(placement) => runs(alloc, system, &placement, rows, cycles, ends),
        None => false,
    }
}

/// Whether the register, with relay stations or without, has such runs.
fn register_runs(
    alloc: Global,
    relayed: bool,
    bits: &[u8],
    cycles: u64,
    ends: (&[u8], &[u8], &[u8]),
) -> bool {
    let Some(system) = system_of(alloc, ONE) else {
        return false;
    };
    let Some(rows) = rows_of(alloc, bits, 1) else {
        return false;
    };
    if relayed {
        is_relayed(alloc, &system, &rows, cycles, ends)
    } else {
        is_plain(alloc, &system, &rows, cycles, ends)
    }
}

#[test]
fn a_register_gives_a_row_in_each_cycle(rt: HostRuntime) {
    assert!(rt; register_runs(rt.alloc(), false, b"101", 3, (b"010", b"223", b"1.")));
}

#[test]
fn each_relay_station_makes_a_run_one_cycle_longer(rt: HostRuntime) {
    assert!(rt; register_runs(rt.alloc(), true, b"101", 5, (b"010", b"22333", b"1...")));
}

#[test]
fn a_run_without_rows_makes_no_cycle(rt: HostRuntime) {
    assert!(rt; register_runs(rt.alloc(), false, b"", 0, (b"", b"000", b"..")));
}
