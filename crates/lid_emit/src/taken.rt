//! Names of ports that are taken.

ghost use Rattle.std.specs.Prelude.{◌≡◌, ℕ, List, find, option_map, IfOk};
ghost use denote.Ref.{Bor};
ghost use Rattle.lid_design.specs.Columns.{is_among};
ghost use Rattle.lid_emit_meaning.specs.Ports.{own_names, taken_name};
ghost use Rattle.lid_emit.specs.Taken.{is_taken, taken_in};

use lid_base::{Name, copy_name};
use lid_check::Checked;
use lid_check_names::{NameSet, set_of};
use lid_emit_meaning::{BLOCK_NAME, OFFER_NAME, STOP_NAME, VALID_NAME};
use std::alloc::{AllocError, Global};

/// The first data input of the root that the emitted design needs for itself, or that is an output too. Where
/// there is none, the first output that it needs for itself.
///
/// # Errors
/// Where there is no memory.
#[tactic(auto, unfolding(lid_emit_meaning::specs::Ports::taken_name))]
pub fn find_taken(alloc: Global, checked: &Checked) -> Result<Option<Name>, AllocError>
    ensures { IfOk result (λ name. name ≡ taken_name checked.now) }
{
    let name = first_taken(alloc, checked.inputs(), checked.outputs())?;
    copy_found(alloc, name)
}

/// A copy of a name, where one was found.
fn copy_found(alloc: Global, name: Option<&[u8]>) -> Result<Option<Name>, AllocError>
    ensures { IfOk result (λ copy. copy ≡ option_map (λ (r : Bor (List ℕ)). r.now) name.entry) }
{
    match name {
        Some(name) => Ok(Some(copy_name(alloc, name)?)),
        None => Ok(None),
    }
}

/// The first input that the emitted design needs for itself, or that is an output too. Where there is none, the
/// first output that it needs for itself.
fn first_taken<'n>(
    alloc: Global,
    inputs: &'n [Name],
    outputs: &'n [Name],
) -> Result<Option<&'n [u8]>, AllocError>
    ensures { IfOk result (λ name. option_map (λ (r : Bor (List ℕ)). r.now) name ≡ taken_in inputs.now outputs.now) }
{
    match first_shared(alloc, inputs, outputs)? {
        Some(name) => Ok(Some(name)),
        None => Ok(first_own(outputs)),
    }
}

/// The first name that the emitted design needs for itself.
fn first_own<'n>(names: &'n [Name]) -> Option<&'n [u8]>
    ensures { option_map (λ (r : Bor (List ℕ)). r.now) result ≡ find (λ name. is_among name own_names) names.now }
{
    for name in names {
        if is_own(name.as_slice()) {
            return Some(name.as_slice());
        }
    }
    None
}

/// The first input that the emitted design needs for itself, or that is an output too.
fn first_shared<'n>(
    alloc: Global,
    inputs: &'n [Name],
    outputs: &[Name],
) -> Result<Option<&'n [u8]>, AllocError>
    ensures { IfOk result (λ name. option_map (λ (r : Bor (List ℕ)). r.now) name ≡ find (is_taken outputs.now) inputs.now) }
{
    let outputs = set_of(alloc, outputs)?;
    Ok(first_of(inputs, &outputs))
}

/// The first input that the emitted design needs for itself, or that is in a set.
fn first_of<'n>(inputs: &'n [Name], outputs: &NameSet<'_>) -> Option<&'n [u8]>
    ensures { option_map (λ (r : Bor (List ℕ)). r.now) result ≡ find (is_taken outputs.now) inputs.now }
{
    for name in inputs {
        if is_own(name.as_slice()) || outputs.has(name.as_slice()) {
            return Some(name.as_slice());
        }
    }
    None
}

/// Whether the emitted design needs a name for itself.
fn is_own(name: &[u8]) -> bool
    ensures { result ≡ is_among name.now own_names }
{
    name == OFFER_NAME || name == BLOCK_NAME || name == VALID_NAME || name == STOP_NAME
}
