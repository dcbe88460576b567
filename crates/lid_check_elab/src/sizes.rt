ghost use Rattle.std.specs.Prelude.{◌≡◌, ◌<◌, ℕ, Some, length, set, slice_get, IfOk};
ghost use Rattle.std.specs.Option.{option_map_or};
ghost use Rattle.lid_design.specs.Models.{insts_of, instance_number, IsReached};
ghost use Rattle.lid_check_elab.specs.Numbers.{size_of, offset_of};
ghost use Rattle.lid_check_elab.specs.Parts.{AreSizes, HasSizes};

use crate::places::{count_nets, insts_at};
use lid_base::Items;
use lid_check_drivers::Judged;
use std::alloc::{AllocError, Global};

/// For each reached model, by its number, how many columns it and its instances have.
pub fn find_sizes(alloc: Global, judged: &Judged<'_>) -> Result<Vec<Option<u32>>, AllocError>
    ensures { IfOk result (λ sizes. AreSizes judged.now (IsReached judged.now) sizes.items) }
{
    let count = judged.design().models.len();
    let mut sizes = Vec::from_elem(alloc, None, count)?;
    let order = judged.order();
    for model in order {
        let size = sum_sizes(judged, sizes.as_slice(), *model);
        put_size(&mut sizes, *model, size);
    }
    Ok(sizes)
}

/// Puts the size of a model in its place.
fn put_size(sizes: &mut Vec<Option<u32>>, model: u32, size: u32)
    requires { model < length sizes.old.items }
    ensures { sizes.new.items ≡ set sizes.old.items model (Some size) }
{
    sizes[model as usize] = Some(size);
}

/// How many columns a model and its instances have.
fn sum_sizes(judged: &Judged<'_>, sizes: &[Option<u32>], model: u32) -> u32
    requires reached { IsReached judged.now model }
    requires sizes { HasSizes judged.now model sizes.now }
    ensures { result ≡ size_of judged.now model }
{
    let _ = judged.design();
    let mut size = count_nets(judged, model);
    for inst in 0..count_insts(judged, model) {
        size += inst_size(judged, sizes, model, inst);
    }
    size
}

/// For each instance of a model, how many columns of the model and of earlier instances stand
/// before it.
pub fn offsets_of(
    alloc: Global,
    judged: &Judged<'_>,
    sizes: &[Option<u32>],
    model: u32,
) -> Result<Items<u32>, AllocError>
    requires reached { IsReached judged.now model }
    requires sizes { HasSizes judged.now model sizes.now }
    ensures few { IfOk result (λ offsets. length offsets ≡ length (insts_of judged.now model)) }
    ensures each { IfOk result (λ offsets. (i o : ℕ) → slice_get offsets i ≡ Some o → o ≡ offset_of judged.now model i) }
{
    let _ = judged.design();
    let insts = count_insts(judged, model);
    let mut offsets = Vec::with_capacity(alloc, insts as usize)?;
    let mut offset = count_nets(judged, model);
    for inst in 0..insts {
        offsets.push(offset)?;
        offset += inst_size(judged, sizes, model, inst);
    }
    Ok(Items::from_vec(offsets))
}

/// How many instances a model has.
fn count_insts(judged: &Judged<'_>, model: u32) -> u32
    requires { IsReached judged.now model }
    ensures { result ≡ length (insts_of judged.now model) }
{
    insts_at(judged, model).len() as u32
}

/// How many columns an instance of a model has.
fn inst_size(judged: &Judged<'_>, sizes: &[Option<u32>], model: u32, inst: u32) -> u32
    requires sizes { HasSizes judged.now model sizes.now }
    ensures { result ≡ option_map_or (size_of judged.now) (instance_number judged.now inst model) 0 }
{
    match judged.model_of(model, inst) {
        Some(sub) => sizes[sub as usize].unwrap_or(0),
        None => 0,
    }
}
