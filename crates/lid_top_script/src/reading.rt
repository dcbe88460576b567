//! Texts that are fetched from files and read.

ghost use Rattle.std.specs.Prelude.{◌≡◌, ℕ, ◌≤◌, List, IfOk, IfErr};
ghost use Rattle.lid_top_script.specs.Scripts.{IsFetched, Reading, good};
ghost use Rattle.lid_top_script.specs.Causes.{Declines, MissesFile, Got, Misses};
ghost use Rattle.lid_top_script.specs.FetchSteps.{FetchesFile};

use crate::fault::Stop;
use lid_base::Shelf;
use lid_base_io::{FetchFault, fetch_all};
use std::alloc::Global;

/// A kind of text that a file may hold. Its values are what a reader of the kind needs to know.
pub trait FileText {
    /// What a text stands for.
    type Read;

    ghost Told: { Type 0 };

    ghost told: { Self.Read → Told };

    ghost limit: { ℕ };

    ghost reading: { Self → List ℕ → Reading Told };

    ghost is_ready: { Self → Type 0 } = { λ _. Unit {0} };

    ghost is_sound: { Self → Self.Read → Type 0 } = { λ _ _. Unit {0} };

    /// The greatest size of a text, in bytes.
    fn limit(&self) -> u32
        ensures { result ≡ limit };

    /// Reads a text.
    ///
    /// # Errors
    /// The text stands for nothing; and want of memory.
    fn read<'a>(&self, alloc: Global, bytes: &[u8]) -> Result<Self::Read, Stop<'a>>
        requires { is_ready self.now }
        ensures ok { IfOk result (λ read. reading self.now bytes.now ≡ good (told read)) }
        ensures sound { IfOk result (is_sound self.now) }
        ensures err { IfErr result (Declines (reading self.now bytes.now)) };
}

/// Fetches a file, up to one byte more than its limit.
fn fetch_file<'a, S: Shelf>(
    alloc: Global,
    shelf: &mut S,
    name: &'a str,
    limit: u32,
) -> Result<Vec<u8>, Stop<'a>>
    ensures ok { IfOk result (λ bytes. IsFetched (S.held shelf.old) name.now limit bytes.items) }
    ensures err { IfErr result (MissesFile name.now (S.faults shelf.old) (S.faults shelf.new)) }
    ensures fetched { FetchesFile S.whole (S.held shelf.old name.now) name.now limit (S.fetches shelf.old) (S.fetches shelf.new) (S.faults shelf.old)
        (S.faults shelf.new) result }
    ensures kept { S.held shelf.new ≡ S.held shelf.old }
    ensures grows { (q : List ℕ) → S.faults shelf.old q ≤ S.faults shelf.new q }
{
    match fetch_all(alloc, shelf, name, limit as usize) {
        Ok(bytes) => Ok(bytes),
        Err(FetchFault::Read) => Err(Stop::Read(name)),
        Err(FetchFault::Memory) => Err(Stop::Memory),
    }
}

/// Fetches a file, up to one byte more than the limit of its kind, and reads it.
///
/// # Errors
/// The file cannot be fetched; its text stands for nothing; and want of memory.
pub fn read_file<'a, T: FileText, S: Shelf>(
    alloc: Global,
    shelf: &mut S,
    name: &'a str,
    text: &T,
) -> Result<T::Read, Stop<'a>>
    requires { T.is_ready text.now }
    ensures ok { IfOk result (λ read. Got (S.held shelf.old) name.now T.limit (T.reading text.now) (T.told read)) }
    ensures sound { IfOk result (T.is_sound text.now) }
    ensures err { IfErr result (Misses (S.held shelf.old) name.now T.limit (T.reading text.now)
        (S.faults shelf.old) (S.faults shelf.new)) }
    ensures fetched { FetchesFile S.whole (S.held shelf.old name.now) name.now T.limit
        (S.fetches shelf.old) (S.fetches shelf.new) (S.faults shelf.old) (S.faults shelf.new) result }
    ensures kept { S.held shelf.new ≡ S.held shelf.old }
    ensures grows { (q : List ℕ) → S.faults shelf.old q ≤ S.faults shelf.new q }
{
    match fetch_file(alloc, shelf, name, text.limit()) {
        Ok(bytes) => text.read(alloc, &bytes),
        Err(stop) => Err(stop),
    }
}
