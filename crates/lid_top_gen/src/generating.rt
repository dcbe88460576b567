//! `gen`: the design of a seed, or what a run of it shows.

ghost use Rattle.std.specs.Prelude.{◌≡◌, ◌≤◌, Option, None, IfSome, IfOk};
ghost use Rattle.lid_blifout.specs.Canonical.{canonical_text};
ghost use Rattle.lid_blifout.specs.Writable.{IsWritable};
ghost use Rattle.lid_gen.specs.Designs.{generated, size_fault};
ghost use Rattle.lid_top_script.specs.Outputs.{IsTextOf};
ghost use Rattle.lid_top_script.specs.Scripts.{gen_script, generating};
ghost use Rattle.lid_top_script.specs.Whole.{RunsAnywhere};

use crate::running::run_text;
use lid_blifout::write;
use lid_design::Design;
use lid_gen::make;
use lid_gen_laws::generated_designs_are_writable;
use lid_top_script::{Stop, gen_stop};
use std::alloc::{AllocError, Global};

/// The canonical text of a design that can be written.
fn design_text(alloc: Global, design: &Design) -> Result<Vec<u8>, AllocError>
    requires { IsWritable design.now }
    ensures { IfOk result (λ text. text.items ≡ canonical_text design.now) }
{
    let mut text = Vec::new(alloc);
    write(design, &mut text)?;
    Ok(text)
}

/// The text of the design of a seed, or of what its run shows.
fn made_text(
    alloc: Global,
    seed: u64,
    shells: u32,
    design: Design,
    run: &Option<u64>,
) -> Result<Vec<u8>, AllocError>
    requires sized { size_fault shells ≡ None }
    requires made { design ≡ generated seed shells }
    requires run { IfSome run.now (λ rows. (1 ≤ rows) × (rows ≤ 1000000)) }
    ensures { IfOk result (λ text. IsTextOf (generating seed shells run.now) text.items) }
{
    generated_designs_are_writable();
    match *run {
        None => design_text(alloc, &design),
        Some(rows) => run_text(alloc, seed, shells, rows as u32, design),
    }
}

/// What `gen` writes: the canonical text of the design of a seed with so many shells, at most
/// 4,294,967,295, or, where a run of 1 to 1,000,000 rows is asked for, what it shows.
///
/// # Errors
/// The refusal of the size exactly where there are no shells or more than 2,000. `Memory` where there is
/// no memory.
pub fn gen_text<'a>(
    alloc: Global,
    seed: u64,
    shells: u64,
    run: &Option<u64>,
) -> Result<Vec<u8>, Stop<'a>>
    requires few { shells ≤ 4294967295 }
    requires run { IfSome run.now (λ rows. (1 ≤ rows) × (rows ≤ 1000000)) }
    ensures { RunsAnywhere (gen_script seed shells run.now) result }
{
    let design = match make(alloc, seed, shells as u32) {
        Ok(design) => design,
        Err(fault) => return Err(gen_stop(fault)),
    };
    match made_text(alloc, seed, shells as u32, design, run) {
        Ok(text) => Ok(text),
        Err(_) => Err(Stop::Memory),
    }
}
