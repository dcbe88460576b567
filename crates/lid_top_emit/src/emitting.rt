//! `emit`: the wrapped design as a netlist.

ghost use Rattle.std.specs.Prelude.{◌≡◌, IfOk, IfErr};
ghost use Rattle.lid_blifout.specs.Canonical.{canonical_text};
ghost use Rattle.lid_blifout.specs.Writable.{IsWritable};
ghost use Rattle.lid_top_script.specs.Causes.{IsWant};
ghost use Rattle.lid_top_script.specs.Scripts.{wrapping_script, emit_script};
ghost use Rattle.lid_top_script.specs.Whole.{RunsOn, RunsAnywhere};
ghost use Rattle.lid_stations.specs.Placements.{links_of};
ghost use Rattle.lid_top_emit.specs.Spelling.{HasSpelledPorts};

use lid_base::Shelf;
use lid_blifout::write;
use lid_design::Design;
use lid_emit::emit;
use lid_top_script::{NetFiles, Stop, Wrapped, emit_stop, read_wrapped};
use std::alloc::Global;

/// The canonical text of a design that can be written.
fn design_text<'a>(alloc: Global, design: &Design) -> Result<Vec<u8>, Stop<'a>>
    requires { IsWritable design.now }
    ensures ok { IfOk result (λ text. text.items ≡ canonical_text design.now) }
    ensures err { IfErr result IsWant }
{
    let mut text = Vec::new(alloc);
    match write(design, &mut text) {
        Ok(()) => Ok(text),
        Err(_) => Err(Stop::Memory),
    }
}

/// What `emit` writes, once the stations are read.
fn wrapped_text<'a>(alloc: Global, wrapped: &Wrapped) -> Result<Vec<u8>, Stop<'a>>
    requires { HasSpelledPorts wrapped.now.design }
    ensures { RunsAnywhere (wrapping_script wrapped.now.design (links_of wrapped.now.system) wrapped.now.placement) result }
{
    match emit(alloc, &wrapped.checked, &wrapped.system, &wrapped.placement) {
        Ok(design) => design_text(alloc, &design),
        Err(fault) => Err(emit_stop(fault)),
    }
}

/// What `emit` writes: the canonical text of the wrapped design of the root with such stations.
///
/// # Errors
/// Each refusal of the netlist, its system and its stations; then `NameTaken` and `TooBig` of
/// [`lid_emit::emit`]. A file that cannot be read, and want of memory.
pub fn emit_text<'a, S: Shelf>(
    alloc: Global,
    shelf: &mut S,
    files: &NetFiles<'a>,
) -> Result<Vec<u8>, Stop<'a>>
    ensures { RunsOn S.whole S.held S.fetches S.faults shelf.old shelf.new (emit_script files.now.net.now files.now.stations.now files.now.root.now) result }
{
    match read_wrapped(alloc, shelf, files) {
        Ok(wrapped) => wrapped_text(alloc, &wrapped),
        Err(stop) => Err(stop),
    }
}
