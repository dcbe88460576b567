//! `strict`: the strict outputs of a netlist.

ghost use Rattle.std.specs.Prelude.{IfOk, IfErr};
ghost use Rattle.lid_design.specs.WellFormed.{IsWellFormed};
ghost use Rattle.lid_top_script.specs.Outputs.{IsStrictText};
ghost use Rattle.lid_top_script.specs.Scripts.{rows_script, checked_script, strict_script};
ghost use Rattle.lid_top_script.specs.Whole.{RunsOn};
ghost use Rattle.lid_top_script.specs.Causes.{IsWant};

use lid_base::{Name, Shelf};
use lid_check::Checked;
use lid_design::Design;
use lid_strict::strict_rows_text;
use lid_texts_packed::PackedRows;
use lid_top_script::{NetText, PackedText, Stop, accept, read_file};
use std::alloc::Global;

/// The text of the strict outputs.
fn outputs_text<'a>(
    alloc: Global,
    checked: &Checked,
    rows: &PackedRows,
) -> Result<Vec<u8>, Stop<'a>>
    ensures ok { IfOk result (λ text. IsStrictText checked.now rows.now.rows text.items) }
    ensures err { IfErr result IsWant }
{
    match strict_rows_text(alloc, checked, rows) {
        Ok(text) => Ok(text),
        Err(_) => Err(Stop::Memory),
    }
}

/// What `strict` writes for an accepted design.
fn rows_text<'a, S: Shelf>(
    alloc: Global,
    shelf: &mut S,
    checked: &Checked,
    vec: &'a str,
) -> Result<Vec<u8>, Stop<'a>>
    ensures { RunsOn S.whole S.held S.fetches S.faults shelf.old shelf.new (rows_script checked.now vec.now) result }
{
    match read_file(alloc, shelf, vec, &PackedText { checked }) {
        Ok(rows) => outputs_text(alloc, checked, &rows),
        Err(stop) => Err(stop),
    }
}

/// What `strict` writes after it has read a netlist.
fn checked_text<'a, S: Shelf>(
    alloc: Global,
    shelf: &mut S,
    design: Design,
    vec: &'a str,
    root: &Option<Name>,
) -> Result<Vec<u8>, Stop<'a>>
    requires { IsWellFormed design }
    ensures { RunsOn S.whole S.held S.fetches S.faults shelf.old shelf.new (checked_script design vec.now root.now) result }
{
    match accept(alloc, design, root) {
        Ok(checked) => rows_text(alloc, shelf, &checked, vec),
        Err(stop) => Err(stop),
    }
}

/// What `strict` writes.
pub fn strict_text<'a, S: Shelf>(
    alloc: Global,
    shelf: &mut S,
    net: &'a str,
    vec: &'a str,
    root: &Option<Name>,
) -> Result<Vec<u8>, Stop<'a>>
    ensures { RunsOn S.whole S.held S.fetches S.faults shelf.old shelf.new (strict_script net.now vec.now root.now) result }
{
    match read_file(alloc, shelf, net, &NetText) {
        Ok(design) => checked_text(alloc, shelf, design, vec, root),
        Err(stop) => Err(stop),
    }
}
