//! Rows that are told by letters.

ghost use Rattle.std.specs.Prelude.{◌≡◌, ◌≤◌, ℕ, IsTrue, List, length, Some, slice_get};
ghost use Rattle.std.specs.List.{AllByRecursion};
ghost use Rattle.lid_system.specs.declared.Node.TheVariants.{Source};
ghost use Rattle.lid_tests_fixtures.specs.Runs.{IsSourceWide};

use lid_base::Items;
use lid_system::{Node, System};
use lid_texts::Rows;
use std::alloc::Global;

/// Rows of so many columns without names, a row for each letter: all its bits are 1 where the letter is `1`, and 0 where
/// it is another. None for want of memory.
pub fn rows_of(alloc: Global, letters: &[u8], width: usize) -> Option<Rows> {
    let mut rows = Vec::new(alloc);
    for letter in letters {
        let row = Vec::from_elem(alloc, *letter == b'1', width).ok()?;
        rows.push(Items::from_vec(row)).ok()?;
    }
    Some(Rows {
        columns: Items::from_vec(Vec::new(alloc)),
        bits: Items::from_vec(rows),
    })
}

/// How many columns the source has.
pub(crate) fn width_of(system: &System) -> usize
    ensures { (columns : List (List ℕ)) → slice_get system.now.nodes 0 ≡ Some (Source columns) → result ≡ length columns }
{
    match system.nodes.as_slice().first() {
        Some(Node::Source { columns }) => columns.len(),
        _ => 0,
    }
}

/// Whether rows have this width.
fn have_width(rows: &[Items<bool>], width: usize) -> bool
    ensures { IsTrue result → AllByRecursion (λ row. length row ≡ width) rows.now }
{
    rows.iter().all(|row| row.len() == width)
}

/// Whether rows can be those of a run: as wide as the source, and at most a million.
pub fn are_rows(system: &System, rows: &[Items<bool>]) -> bool
    ensures few { IsTrue result → length rows.now ≤ 1000000 }
    ensures wide { IsTrue result → AllByRecursion (IsSourceWide system.now) rows.now }
{
    let width = width_of(system);
    rows.len() <= 1000000 && have_width(rows, width)
}
