//! Lists of numbers that stand one after another in one list.

ghost use Rattle.std.specs.Prelude.{◌≡◌, ◌<◌, ◌≤◌, ◌++◌, ◌∷◌, [], List, ℕ, length, slice_index_or, take, IfOk, OnOk};
ghost use Rattle.lid_check_digraph.specs.Graphs.{reads_at};
ghost use Rattle.lid_check_digraph.specs.Concatenated.{end_at, list_at, AreStarts};

use std::alloc::{AllocError, Global};
use std::marker::Model;

/// What each of some numbers reads: a list for each, one after another in one list, as the rows of a
/// sparse matrix are kept. A contract sees the lists.
#[derive(Drop)]
pub struct ReadLists {
    /// The numbers of all lists.
    all: Vec<u32>,
    /// Where each list starts among them. The last one goes to the end.
    starts: Vec<usize>,
}

impl Model for ReadLists {
    ghost use Rattle.std.specs.Prelude.{ℕ, List};
    ghost use Rattle.lid_check_digraph.specs.Concatenated.{lists_of, AreStarts};

    ghost Value = { List (List ℕ) };

    ghost view = { λ s. lists_of s.all.items s.starts.items };

    ghost invariant = { λ s. AreStarts s.all.items s.starts.items };
}

/// Where the list at a place ends.
fn end_at(all: &[u32], starts: &[usize], k: usize) -> usize
    requires there { k < length starts.now }
    requires starts { AreStarts all.now starts.now }
    ensures end { result ≡ end_at all.now starts.now k }
    ensures rising { slice_index_or starts.now k 0 ≤ result }
    ensures within { result ≤ length all.now }
{
    match starts.get(k + 1) {
        Some(next) => *next,
        None => all.len(),
    }
}

/// The list at a place.
fn list_at<'l>(all: &'l [u32], starts: &[usize], k: usize) -> &'l [u32]
    requires there { k < length starts.now }
    requires starts { AreStarts all.now starts.now }
    ensures { result.now ≡ list_at all.now starts.now k }
{
    &all[starts[k]..end_at(all, starts, k)]
}

impl ReadLists {
    /// No list yet. It asks for room for the starts of so many.
    ///
    /// # Errors
    /// Where there is no memory.
    pub fn with_capacity(alloc: Global, count: usize) -> Result<ReadLists, AllocError>
        ensures { IfOk result (λ lists. lists ≡ []) }
    {
        let starts = Vec::with_capacity(alloc, count)?;
        let all = Vec::new(alloc);
        Ok(ReadLists { all, starts })
    }

    /// How many lists there are.
    pub fn len(&self) -> usize
        ensures { result ≡ length self.now }
    {
        self.starts.as_slice().len()
    }

    /// The list of a number.
    pub fn list(&self, k: usize) -> &[u32]
        requires { k < length self.now }
        ensures { result.now ≡ reads_at self.now k }
    {
        list_at(self.all.as_slice(), self.starts.as_slice(), k)
    }

    /// Begins a list, which is empty as yet.
    ///
    /// # Errors
    /// Where there is no memory.
    pub fn begin(&mut self) -> Result<(), AllocError>
        ensures { OnOk result (self.new ≡ self.old ++ [] ∷ []) }
    {
        let start = self.all.as_slice().len();
        self.starts.push(start)?;
        Ok(())
    }

    /// Appends a number to the list that was begun last. One is to be begun before.
    ///
    /// # Errors
    /// Where there is no memory.
    pub fn add(&mut self, number: u32) -> Result<(), AllocError>
        ensures { OnOk result ((lists : List (List ℕ)) (last : List ℕ) → self.old ≡ lists ++ last ∷ [] → self.new ≡ lists ++ (last ++ number ∷ []) ∷ []) }
    {
        self.all.push(number)?;
        Ok(())
    }

    /// Appends a list.
    ///
    /// # Errors
    /// Where there is no memory; which lists are held then is not told.
    pub fn push(&mut self, numbers: &[u32]) -> Result<(), AllocError>
        ensures { OnOk result (self.new ≡ self.old ++ numbers.now ∷ []) }
    {
        self.begin()?;
        self.all.extend_from_slice(numbers)?;
        Ok(())
    }
}
