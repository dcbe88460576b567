ghost use Rattle.std.specs.Prelude.{◌≡◌, ◌+◌, ◌++◌, [], ◌∷◌, ℕ, List, Some, length, map, slice_get, IfOk, OnOk};
ghost use Rattle.lid_check_table.specs.Tables.{names_in};
ghost use Rattle.lid_check_table.specs.Marks.{marks_of};
ghost use Rattle.lid_check_hierarchy.specs.Nets.{numbers_of, places_of_false, counts_of_false, clock_marks_of_all};

use lid_base::Items;
use lid_check_names::NameSet;
use lid_check_table::{Table, mark_names, number_at};
use lid_design::Model;
use std::alloc::{AllocError, Global};

/// The nets of some models by the numbers of the names.
#[derive(Drop)]
pub struct NetLists {
    /// For each model, the numbers of its nets in order.
    pub numbers: Items<Items<u32>>,
    /// For each name of each model, its place among the nets, where it is one.
    pub places: Items<Items<Option<u32>>>,
}

/// The names of some models by numbers.
pub fn find_tables<'d>(alloc: Global, models: &'d [Model]) -> Result<Items<Table<'d>>, AllocError>
    ensures { IfOk result (λ tables. tables ≡ models.now) }
{
    let mut tables = Vec::with_capacity(alloc, models.len())?;
    for model in models {
        tables.push(Table::collect(alloc, model)?)?;
    }
    Ok(Items::from_vec(tables))
}

/// The nets of some models, by marks of their clock names.
pub fn find_nets(alloc: Global, marks: &[Items<bool>]) -> Result<NetLists, AllocError>
    ensures numbers { IfOk result (λ nets. nets.numbers ≡ map (places_of_false 0) marks.now) }
    ensures places { IfOk result (λ nets. nets.places ≡ map (counts_of_false 0) marks.now) }
{
    let numbers = find_numbers(alloc, marks)?;
    let places = find_places(alloc, marks)?;
    Ok(NetLists { numbers, places })
}

/// For each name of some models whether it is a clock name, by the sets of these.
pub fn find_marks(
    alloc: Global,
    tables: &[Table<'_>],
    clocks: &[NameSet<'_>],
) -> Result<Items<Items<bool>>, AllocError>
    requires { length clocks.now ≡ length tables.now }
    ensures { IfOk result (λ marks. marks ≡ clock_marks_of_all tables.now clocks.now) }
{
    let mut marks = Vec::with_capacity(alloc, tables.len())?;
    for k in 0..tables.len() {
        marks.push(mark_clocks(alloc, &tables[k], &clocks[k])?)?;
    }
    Ok(Items::from_vec(marks))
}

/// For each name of a model whether it is a clock name, by the set of these.
fn mark_clocks(
    alloc: Global,
    table: &Table<'_>,
    clocks: &NameSet<'_>,
) -> Result<Items<bool>, AllocError>
    ensures { IfOk result (λ marks. marks ≡ marks_of (names_in table.now) clocks.now) }
{
    let numbers = list_numbers(alloc, table, clocks)?;
    mark_names(alloc, table, numbers.as_slice())
}

/// The numbers of those names of a set that are names of a model.
fn list_numbers(alloc: Global, table: &Table<'_>, set: &NameSet<'_>) -> Result<Vec<u32>, AllocError>
    ensures { IfOk result (λ numbers. numbers.items ≡ numbers_of (names_in table.now) set.now) }
{
    let mut numbers = Vec::with_capacity(alloc, set.len())?;
    for place in 0..set.len() {
        push_number(&mut numbers, table, set, place)?;
    }
    Ok(numbers)
}

/// Appends the number of the name at a place of a set, where it is a name of a model.
fn push_number(
    numbers: &mut Vec<u32>,
    table: &Table<'_>,
    set: &NameSet<'_>,
    place: usize,
) -> Result<(), AllocError>
    ensures { OnOk result ((name : List ℕ) → slice_get set.now place ≡ Some name → numbers.new.items ≡ numbers.old.items ++ numbers_of (names_in table.now) (name ∷ [])) }
{
    let Some(name) = set.name_at(place) else {
        return Ok(());
    };
    if let Some(number) = table.number_of(name) {
        numbers.push(number_at(number)?)?;
    }
    Ok(())
}

/// The numbers of the nets of some models, by marks of the clock names.
fn find_numbers(alloc: Global, marks: &[Items<bool>]) -> Result<Items<Items<u32>>, AllocError>
    ensures { IfOk result (λ numbers. numbers ≡ map (places_of_false 0) marks.now) }
{
    let mut numbers = Vec::with_capacity(alloc, marks.len())?;
    for row in marks {
        numbers.push(list_unmarked(alloc, row.as_slice())?)?;
    }
    Ok(Items::from_vec(numbers))
}

/// The numbers of the marks that are not set.
fn list_unmarked(alloc: Global, marks: &[bool]) -> Result<Items<u32>, AllocError>
    ensures { IfOk result (λ numbers. numbers ≡ places_of_false 0 marks.now) }
{
    let mut numbers = Vec::with_capacity(alloc, marks.len())?;
    for k in 0..marks.len() {
        if !marks[k] {
            numbers.push(number_at(k)?)?;
        }
    }
    Ok(Items::from_vec(numbers))
}

/// For each name of some models its place among the nets, by marks of the clock names.
fn find_places(
    alloc: Global,
    marks: &[Items<bool>],
) -> Result<Items<Items<Option<u32>>>, AllocError>
    ensures { IfOk result (λ places. places ≡ map (counts_of_false 0) marks.now) }
{
    let mut places = Vec::with_capacity(alloc, marks.len())?;
    for row in marks {
        places.push(count_unmarked(alloc, row.as_slice())?)?;
    }
    Ok(Items::from_vec(places))
}

/// For each mark that is not set, how many such stand before it.
fn count_unmarked(alloc: Global, marks: &[bool]) -> Result<Items<Option<u32>>, AllocError>
    ensures { IfOk result (λ places. places ≡ counts_of_false 0 marks.now) }
{
    let mut places = Vec::with_capacity(alloc, marks.len())?;
    let mut count = 0u32;
    for mark in marks {
        if *mark {
            places.push(None)?;
        } else {
            places.push(Some(count))?;
            count = next_number(count)?;
        }
    }
    Ok(Items::from_vec(places))
}

/// The number after another. There are not so many names that it has none.
fn next_number(number: u32) -> Result<u32, AllocError>
    ensures { IfOk result (λ next. next ≡ number + 1) }
{
    match number.checked_add(1) {
        Some(next) => Ok(next),
        None => Err(AllocError),
    }
}
