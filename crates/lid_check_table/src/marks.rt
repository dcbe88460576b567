ghost use Rattle.std.specs.Prelude.{◌≡◌, ◌∷◌, [], ℕ, List, Some, true, false, length, map, replicate, slice_get, slice_index_or, slice_set, IfOk, OnOk};
ghost use Rattle.lid_check_table.specs.Tables.{names_in, AreNumbersOf};
ghost use Rattle.lid_check_table.specs.Marks.{marks_of, again_of, marked_at, again_at, again_at_all};

use crate::table::Table;
use lid_base::Items;
use std::alloc::{AllocError, Global};

/// For each name of a model, whether it stands in a list, and whether it does more than once.
#[derive(Drop)]
pub struct MarkTally {
    pub all: Items<bool>,
    pub twice: Items<bool>,
}

/// Marks the names of a list, by their numbers.
pub fn mark_names(
    alloc: Global,
    table: &Table<'_>,
    numbers: &[u32],
) -> Result<Items<bool>, AllocError>
    ensures { IfOk result (λ marks. (list : List (List ℕ)) → AreNumbersOf (names_in table.now) list numbers.now → marks ≡ marks_of (names_in table.now) list) }
{
    let mut marks = no_marks(alloc, table.len())?;
    for number in numbers {
        set_mark(marks.as_mut_slice(), *number);
    }
    Ok(Items::from_vec(marks))
}

/// Marks the names of a list, and those that stand in it more than once, by their numbers.
pub fn tally_marks(
    alloc: Global,
    table: &Table<'_>,
    numbers: &[u32],
) -> Result<MarkTally, AllocError>
    ensures all { IfOk result (λ tally. (list : List (List ℕ)) → AreNumbersOf (names_in table.now) list numbers.now → tally.all ≡ marks_of (names_in table.now) list) }
    ensures twice { IfOk result (λ tally. (list : List (List ℕ)) → AreNumbersOf (names_in table.now) list numbers.now → tally.twice ≡ again_of (names_in table.now) list) }
{
    let mut all = no_marks(alloc, table.len())?;
    let mut twice = no_marks(alloc, table.len())?;
    for number in numbers {
        note(all.as_mut_slice(), twice.as_mut_slice(), *number);
    }
    Ok(MarkTally {
        all: Items::from_vec(all),
        twice: Items::from_vec(twice),
    })
}

/// So many marks that are not set.
fn no_marks(alloc: Global, count: usize) -> Result<Vec<bool>, AllocError>
    ensures { IfOk result (λ marks. marks.items ≡ replicate count false) }
{
    vec![in alloc; false; count]
}

/// Sets the mark of a number, where there is one.
fn set_mark(marks: &mut [bool], number: u32)
    ensures { marks.new ≡ slice_set marks.old number true }
{
    if (number as usize) < marks.len() {
        marks[number as usize] = true;
    }
}

/// Sets the mark of a number, and the second where the first was set before.
fn note(all: &mut [bool], twice: &mut [bool], number: u32)
    ensures all { all.new ≡ slice_set all.old number true }
    ensures twice { twice.new ≡ again_at all.old twice.old number }
{
    if is_marked(all, number as usize) {
        set_mark(twice, number);
    }
    set_mark(all, number);
}

/// Whether the mark of a number is set.
pub fn is_marked(marks: &[bool], number: usize) -> bool
    ensures { result ≡ slice_index_or marks.now number false }
{
    match marks.get(number) {
        Some(mark) => *mark,
        None => false,
    }
}
