//! What each number reads.

ghost use Rattle.std.specs.Prelude.{◌≡◌, ◌<◌, ◌↔◌, ℕ, true, false, length, slice_index, IsTrue};
ghost use Rattle.std.specs.Bool.{MatchBool};
ghost use Rattle.lid_base.specs.Lists.{Among};
ghost use Rattle.lid_check_digraph.specs.Graphs.{IsGraph, reads_at, flag};
ghost use Rattle.lid_check_digraph.specs.PartialOrders.{AreBelow};

use crate::read_lists::ReadLists;

/// A directed graph: what each of some numbers reads. There are fewer than 2^32 numbers, and each that
/// is read is one of them. An edge leads from what is read to its reader.
#[derive(Clone, Copy)]
pub struct Digraph<'r> {
    /// List k has the numbers that k reads.
    pub reads: &'r ReadLists,
    ghost is_graph: { IsGraph reads.now },
}

impl<'r> Digraph<'r> {
    /// How many numbers there are.
    pub(crate) fn count(&self) -> u32
        ensures { result ≡ length self.now.reads.now }
    {
        self.reads.len() as u32
    }

    /// The numbers that a number reads.
    pub(crate) fn reads_of(&self, k: u32) -> &'r [u32]
        requires { k < length self.now.reads.now }
        ensures reads { result.now ≡ reads_at self.now.reads.now k }
        ensures below { AreBelow (length self.now.reads.now) result.now }
    {
        self.reads.list(k as usize)
    }
}

/// Whether one of the numbers is marked.
pub(crate) fn is_any(flags: &[bool], numbers: &[u32]) -> bool
    requires { AreBelow (length flags.now) numbers.now }
    ensures { MatchBool result ((b : ℕ) × Among b numbers.now × (flag flags.now b ≡ true)) ((b : ℕ) → Among b numbers.now → flag flags.now b ≡ false) }
{
    for number in numbers {
        if flags[*number as usize] {
            return true;
        }
    }
    false
}

/// Whether all numbers are below a count.
fn are_below(numbers: &[u32], count: usize) -> bool
    ensures { IsTrue result ↔ ((i : ℕ) → i < length numbers.now → slice_index numbers.now i < count) }
{
    numbers.iter().all(|number| (*number as usize) < count)
}

/// Whether these are the reads of a graph: there are fewer than 2^32 numbers, and each that is read is
/// one of them.
pub fn is_graph(reads: &ReadLists) -> bool
    ensures { IsTrue result ↔ IsGraph reads.now }
{
    if reads.len() >= 1 << 32 {
        return false;
    }
    for k in 0..reads.len() {
        if !are_below(reads.list(k), reads.len()) {
            return false;
        }
    }
    true
}
