//! The columns of an accepted design, as they are kept.

ghost use Rattle.std.specs.Prelude.{◌≡◌, Some, length, map, position, IfOk};
ghost use Rattle.std.specs.Str.{bytes_eq};
ghost use Rattle.lid_base.specs.Lists.{Among};
ghost use Rattle.lid_design.specs.Columns.{root_outputs};
ghost use Rattle.lid_design.specs.Elaboration.{model_nets};
ghost use Rattle.lid_check.specs.Networks.{AreNumbersOf};

use lid_base::{Items, Name};
use lid_check_drivers::Judged;
use lid_check_elab::{Columns, Elaboration};
use std::alloc::{AllocError, Global};

/// The columns of an accepted design, as they are run. It borrows nothing.
#[derive(Drop)]
pub struct Network {
    pub columns: Columns,
    /// The numbers of the columns, each after those that it reads in the same row.
    pub order: Items<u32>,
    /// The numbers of the columns of the root's outputs, in order.
    pub outputs: Items<u32>,
}

/// The numbers of the columns of the root's outputs, in order.
///
/// # Errors
/// Where there is no memory.
pub(crate) fn number_outputs(
    alloc: Global,
    columns: &Elaboration<'_>,
) -> Result<Items<u32>, AllocError>
    ensures { IfOk result (AreNumbersOf columns.now.design (length columns.now.drivers)) }
{
    let judged = columns.judged();
    let outputs = outputs_of(judged);
    let mut numbers = Vec::with_capacity(alloc, outputs.len())?;
    for name in outputs {
        numbers.push(place_of(judged, name) as u32)?;
    }
    Ok(Items::from_vec(numbers))
}

/// The outputs of the root.
fn outputs_of<'j>(judged: &'j Judged<'_>) -> &'j [Name]
    ensures { result.now ≡ root_outputs judged.now }
{
    let design = judged.design();
    design.models.as_slice()[design.root as usize]
        .outputs
        .as_slice()
}

/// The place of an output of the root among the nets of the root.
fn place_of(judged: &Judged<'_>, name: &Name) -> usize
    requires { Among name.now (root_outputs judged.now) }
    ensures { position (bytes_eq name.now) (model_nets judged.now judged.now.root) ≡ Some result }
{
    let root = judged.design().root;
    match judged.place_of(root, name.as_slice()) {
        Some(place) => place,
        None => unreachable!(),
    }
}
