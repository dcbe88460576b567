ghost use Rattle.std.specs.Prelude.{◌≡◌, ◌<◌, ◌≤◌, ℕ, Some, length, map, slice_get, slice_index_or, slice_set, IfOk};
ghost use Rattle.lid_design.specs.Models.{IsReached};
ghost use Rattle.lid_check_elab.specs.Parts.{ArePlaces};

use lid_base::Items;
use lid_check_drivers::Judged;
use std::alloc::{AllocError, Global};

/// For each net of a model, a place at which its number stands among those of some nets, where it
/// stands there.
pub fn picks_of(
    alloc: Global,
    judged: &Judged<'_>,
    numbers: &[u32],
    model: u32,
) -> Result<Items<u32>, AllocError>
    requires reached { IsReached judged.now model }
    requires few { length numbers.now ≤ 1048576 }
    ensures { IfOk result (ArePlaces judged.now model numbers.now) }
{
    let places = places_by(alloc, judged.table_of(model).len(), numbers)?;
    pick_all(alloc, places.as_slice(), judged.nets_of(model))
}

/// For each number below a count, a place at which it stands in a list; 0 where it does not.
fn places_by(alloc: Global, count: usize, numbers: &[u32]) -> Result<Vec<u32>, AllocError>
    requires { length numbers.now ≤ 1048576 }
    ensures { IfOk result (λ places. (i n : ℕ) → slice_get numbers.now i ≡ Some n → n < count → slice_get numbers.now (slice_index_or places.items n 0) ≡ Some n) }
{
    let mut places = vec![in alloc; 0u32; count]?;
    for i in 0..numbers.len() {
        put_place(places.as_mut_slice(), numbers[i], i as u32);
    }
    Ok(places)
}

/// Puts a place at a number, where there is one.
fn put_place(places: &mut [u32], number: u32, place: u32)
    ensures { places.new ≡ slice_set places.old number place }
{
    if (number as usize) < places.len() {
        places[number as usize] = place;
    }
}

/// For each of some numbers, the place that is put there.
fn pick_all(alloc: Global, places: &[u32], numbers: &[u32]) -> Result<Items<u32>, AllocError>
    ensures { IfOk result (λ picks. picks ≡ map (λ n. slice_index_or places.now n 0) numbers.now) }
{
    let mut picks = Vec::with_capacity(alloc, numbers.len())?;
    for number in numbers {
        picks.push(pick_at(places, *number))?;
    }
    Ok(Items::from_vec(picks))
}

/// The place that is put at a number; 0 past the last.
fn pick_at(places: &[u32], number: u32) -> u32
    ensures { result ≡ slice_index_or places.now number 0 }
{
    match places.get(number as usize) {
        Some(place) => *place,
        None => 0,
    }
}
