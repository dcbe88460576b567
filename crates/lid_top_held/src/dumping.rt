//! The dump of a clocked run: what its stations show, cycle by cycle, as a value change dump.

ghost use Rattle.std.specs.Prelude.{◌≡◌, ◌↔◌, ◌*◌, ◌≤◌, ◌++◌, ℕ, suc, true, false, OnOk, IfOk};
ghost use Rattle.lid_clock.specs.Lives.{Life, IsBelow};
ghost use Rattle.lid_clock_flat.specs.Feeds.{Feeds};
ghost use Rattle.lid_top_script.specs.Waved.{IsWaveText};
ghost use Rattle.lid_stations.specs.Placements.{links_of, station_count};
ghost use Rattle.lid_vcd_form.specs.Text.{wave_text};
ghost use Rattle.lid_vcd_form.specs.Writable.{IsWritable};
ghost use Rattle.lid_top_held.specs.Traces.{TraceBegins, IsTraceOf, HasFreeLife, IsTraceOfAll, life_cells};

use crate::run::Fed;
use lid_base::{Items, Shown};
use lid_clock_flat::FlatRows;
use lid_stations::Placed;
use lid_texts::Trace;
use lid_texts_packed::InputRows;
use lid_vcd::write;
use std::alloc::{AllocError, Global};

/// Appends what each station shows.
fn push_cells(run: &FlatRows, stations: u32, cells: &mut Vec<Shown>) -> Result<(), AllocError>
    requires { (l : Life) × (k : ℕ) × Feeds l k run.now × (stations ≡ station_count l.setup.placement.relays) }
    ensures { (l : Life) (k : ℕ) → Feeds l k run.now → stations ≡ station_count l.setup.placement.relays
        → OnOk result (cells.new.items ≡ cells.old.items ++ life_cells l k) }
{
    for station in 0..stations {
        cells.push(run.show(station))?;
    }
    Ok(())
}

/// Makes a cycle, where the sink has not yet fired for each row, and appends what each station showed as it
/// began. Answers whether it made one.
fn trace_cycle(
    run: &mut FlatRows,
    stations: u32,
    cells: &mut Vec<Shown>,
) -> Result<bool, AllocError>
    requires { (l : Life) × (k : ℕ) × Feeds l k run.old × (stations ≡ station_count l.setup.placement.relays) }
    ensures made { (l : Life) (k : ℕ) → Feeds l k run.old → IfOk result (λ made. made ≡ true → Feeds l (suc k) run.new) }
    ensures shown { (l : Life) (k : ℕ) → Feeds l k run.old → stations ≡ station_count l.setup.placement.relays
        → IfOk result (λ made. made ≡ true → cells.new.items ≡ cells.old.items ++ life_cells l k) }
    ensures still { IfOk result (λ made. made ≡ false → cells.new.items ≡ cells.old.items) }
    ensures below { (l : Life) (k : ℕ) → Feeds l k run.old → IfOk result (λ made. (made ≡ true) ↔ IsBelow l k) }
{
    if !run.ready() {
        return Ok(false);
    }
    push_cells(run, stations, cells)?;
    Ok(run.cycle())
}

/// The trace of a run that begins, of at most so many cycles.
fn trace_run(
    alloc: Global,
    run: &mut FlatRows,
    stations: u32,
    cycles: u64,
) -> Result<Trace, AllocError>
    requires { (l : Life) × TraceBegins l stations run.old }
    ensures { (l : Life) → TraceBegins l stations run.old → IfOk result (IsTraceOf l cycles) }
{
    let mut cells = Vec::new(alloc);
    let mut made = 0;
    while made < cycles {
        if !trace_cycle(run, stations, &mut cells)? {
            break;
        }
        made += 1;
    }
    Ok(Trace {
        stations,
        cycles: made,
        cells: Items::from_vec(cells),
    })
}

/// The trace of the clocked run of a system with its stations over these rows, of at most so many cycles.
fn trace_of(alloc: Global, fed: &Fed<'_>, cycles: u64) -> Result<Trace, AllocError>
    requires { HasFreeLife fed.now.wrapped.now fed.now.rows.now.rows }
    ensures { IfOk result (IsTraceOfAll fed.now.wrapped.now fed.now.rows.now.rows cycles) }
{
    let wrapped = fed.wrapped;
    let placed = Placed {
        system: &wrapped.system,
        placement: &wrapped.placement,
    };
    let mut run = FlatRows::start_over(alloc, &placed, InputRows::Packed(fed.rows))?;
    trace_run(alloc, &mut run, wrapped.placement.caps.len() as u32, cycles)
}

/// The dump of a trace.
fn dump_of(alloc: Global, trace: &Trace) -> Result<Vec<u8>, AllocError>
    requires { IsWritable trace.now }
    ensures { IfOk result (λ text. text.items ≡ wave_text trace.now) }
{
    let mut text = Vec::new(alloc);
    write(trace, &mut text)?;
    Ok(text)
}

/// The value change dump of the clocked run of an accepted design over rows of input bits: what the stations
/// of its system show in each cycle, for at most `cycles` cycles, or as far as the sink has not yet fired once
/// for each row. The dump has at most 1,048,576 cells, stations times cycles.
///
/// # Errors
/// Want of memory.
pub(crate) fn dump_text(alloc: Global, fed: &Fed<'_>, cycles: u64) -> Result<Vec<u8>, AllocError>
    requires most { cycles ≤ 1048576 }
    requires cells { station_count fed.now.wrapped.now.placement.relays * cycles ≤ 1048576 }
    ensures { IfOk result (λ text. IsWaveText fed.now.wrapped.now.design (links_of fed.now.wrapped.now.system)
        fed.now.wrapped.now.placement fed.now.rows.now.rows cycles text.items) }
{
    let wrapped = fed.wrapped;
    let _ = wrapped.checked.design();
    let trace = trace_of(alloc, fed, cycles)?;
    dump_of(alloc, &trace)
}
