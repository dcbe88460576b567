ghost use Rattle.std.specs.Prelude.{◌≡◌, ◌↔◌, ◌<◌, ◌≤◌, ◌^◌, IsTrue, bit_and, bytes_eq, length, map, IfOk};
ghost use Rattle.std.specs.List.{AllByRecursion, IsDistinct};
ghost use Rattle.lid_cover.specs.Cover.{IsCover, IsCube};
ghost use Rattle.lid_design.specs.WellFormed.{IsWellFormed, IsWellFormedCell, model_name};

use crate::uses::name_models;
use lid_cover::{Cover, Cube};
use lid_design::{Cell, Design, Model};
use std::alloc::{AllocError, Global};

/// The most models of a design, and the most instances of a model.
const MANY: usize = 4_294_967_295;

/// Whether a design is well formed: its root is one of its models, each of which has a name of its
/// own and fewer than 2^32 instances, and each cover has as many inputs as its cell, at most 64,
/// and rows that look at no other.
pub fn is_well_formed(alloc: Global, design: &Design) -> Result<bool, AllocError>
    ensures { IfOk result (λ formed. IsTrue formed ↔ IsWellFormed design.now) }
{
    let models = design.models.as_slice();
    let distinct = have_own_names(alloc, models)?;
    Ok(
        (design.root as usize) < models.len()
            && models.len() <= MANY
            && distinct
            && have_few_insts(models)
            && have_covers(models),
    )
}

/// Whether each model has a name of its own.
fn have_own_names(alloc: Global, models: &[Model]) -> Result<bool, AllocError>
    ensures { IfOk result (λ distinct. IsTrue distinct ↔ IsDistinct bytes_eq (map model_name models.now)) }
{
    let names = name_models(alloc, models)?;
    Ok(names.len() == models.len())
}

/// Whether each model has fewer than 2^32 instances.
fn have_few_insts(models: &[Model]) -> bool
    ensures { IsTrue result ↔ AllByRecursion (λ m. length m.insts < 2 ^ 32) models.now }
{
    models.iter().all(|model| model.insts.len() <= MANY)
}

/// Whether the cells of each model are well formed.
fn have_covers(models: &[Model]) -> bool
    ensures { IsTrue result ↔ AllByRecursion (λ m. AllByRecursion IsWellFormedCell m.cells) models.now }
{
    models
        .iter()
        .all(|model| are_well_formed(model.cells.as_slice()))
}

/// Whether some cells are well formed.
fn are_well_formed(cells: &[Cell]) -> bool
    ensures { IsTrue result ↔ AllByRecursion IsWellFormedCell cells.now }
{
    cells.iter().all(is_well_formed_cell)
}

/// Whether a cell is well formed.
fn is_well_formed_cell(cell: &Cell) -> bool
    ensures { IsTrue result ↔ IsWellFormedCell cell.now }
{
    match cell {
        Cell::Names { inputs, cover, .. } => {
            cover.inputs as usize == inputs.len() && is_cover(cover)
        }
        Cell::Latch { .. } => true,
    }
}

/// Whether a cover meets the rules of covers.
fn is_cover(cover: &Cover) -> bool
    ensures { IsTrue result ↔ IsCover cover.now }
{
    cover.inputs <= 64 && are_cubes(cover.inputs, cover.cubes.as_slice())
}

/// Whether some rows look at no more than so many inputs.
fn are_cubes(inputs: u32, cubes: &[Cube]) -> bool
    requires { inputs ≤ 64 }
    ensures { IsTrue result ↔ AllByRecursion (IsCube inputs) cubes.now }
{
    cubes.iter().all(|cube| is_cube(inputs, *cube))
}

/// Whether a row looks at no more than so many inputs, and asks nothing of others.
fn is_cube(inputs: u32, cube: Cube) -> bool
    requires { inputs ≤ 64 }
    ensures { IsTrue result ↔ IsCube inputs cube }
{
    u128::from(cube.care) < 2u128.pow(inputs) && cube.value & cube.care == cube.value
}
