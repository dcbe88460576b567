//! `unwave`: the trace that a value change dump shows.

ghost use Rattle.std.specs.Prelude.{◌≡◌, IfOk, IfErr};
ghost use Rattle.lid_texts_runs.specs.Runs.{trace_text};
ghost use Rattle.lid_texts_runs.specs.declared.trace.Trace.{Trace};
ghost use Rattle.lid_top_script.specs.Causes.{IsWant};
ghost use Rattle.lid_top_script.specs.Scripts.{dump_limit, dump_read, unwave_script};
ghost use Rattle.lid_top_script.specs.Whole.{RunsOn};
ghost use Rattle.lid_vcd_form.specs.Writable.{IsWritable};

use lid_base::Shelf;
use lid_texts::{Trace, print_trace};
use lid_top_script::{FileText, Stop, dump_stop, read_file};
use lid_vcd::read;
use std::alloc::Global;

/// The text of a value change dump.
#[derive(Clone, Copy)]
struct DumpText;

impl FileText for DumpText {
    type Read = Trace;

    ghost Told = { Trace };

    ghost told = { λ trace. trace };

    ghost limit = { dump_limit };

    ghost reading = { λ _. dump_read };

    ghost is_sound = { λ _. IsWritable };

    fn limit(&self) -> u32 {
        67_108_864
    }

    fn read<'a>(&self, alloc: Global, bytes: &[u8]) -> Result<Trace, Stop<'a>> {
        match read(alloc, bytes) {
            Ok(trace) => Ok(trace),
            Err(fault) => Err(dump_stop(fault)),
        }
    }
}

/// The text of a trace.
fn text_of<'a>(alloc: Global, trace: &Trace) -> Result<Vec<u8>, Stop<'a>>
    requires { IsWritable trace.now }
    ensures ok { IfOk result (λ text. text.items ≡ trace_text trace.now) }
    ensures err { IfErr result IsWant }
{
    let mut text = Vec::new(alloc);
    match print_trace(trace, &mut text) {
        Ok(()) => Ok(text),
        Err(_) => Err(Stop::Memory),
    }
}

/// What `unwave` writes: how many stations and cycles a dump shows, and a line for each cycle. The dump is
/// fetched up to one byte more than 67,108,864 bytes, and read.
///
/// # Errors
/// Why the dump is not fetched, or is none; and want of memory.
pub fn unwave_text<'a, S: Shelf>(
    alloc: Global,
    shelf: &mut S,
    file: &'a str,
) -> Result<Vec<u8>, Stop<'a>>
    ensures { RunsOn S.whole S.held S.fetches S.faults shelf.old shelf.new (unwave_script file.now) result }
{
    match read_file(alloc, shelf, file, &DumpText) {
        Ok(trace) => text_of(alloc, &trace),
        Err(stop) => Err(stop),
    }
}
