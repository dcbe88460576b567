//! A shelf and a sink that are kept in memory. Calls of both can be made to fail, by their numbers.

ghost use Rattle.std.specs.Prelude.{◌≡◌, ℕ, ◌≤◌, ◌-◌, min, true, List, [], length, Some, None, is_err, IfOk, OnOk, OnErr};
ghost use Rattle.std.specs.Option.{option_copied};
ghost use Rattle.lid_base.specs.Memory.{bytes_held};
ghost use Rattle.lid_base.specs.Outside.{Rose, FetchedFrom, Appended, AppendedPrefix, IsFetchedFrom};

use crate::items::Bytes;
use crate::names::Name;
use crate::outside::{Shelf, ShelfFailed, Sink, SinkFailed};
use std::alloc::{AllocError, Global};
use std::marker::Model;

/// A file: its name and its bytes.
#[derive(Drop)]
pub struct File {
    pub name: Name,
    pub bytes: Bytes,
}

/// A shelf of files in memory, which tells what they hold, and gives as many bytes as there is room
/// for or as are left. It tells no calls, since it takes no memory to note them. Of files with the
/// same name the first counts.
///
/// A contract sees the files, the numbers of the calls that fail, how many calls were made, and two
/// counts: the failed fetches of names that are held, which is the count of each of these names,
/// and the failed fetches of names that are missing, which is the count of each other name. Calls
/// are numbered from 1. The number and the counts stay at 2^64 - 1 once they are there.
#[derive(Drop)]
pub struct MemShelf {
    files: Vec<File>,
    failing: Vec<u64>,
    calls: u64,
    held_faults: u64,
    missing_faults: u64,
}

impl Model for MemShelf {
    ghost use Rattle.lid_base.specs.Memory.{ShelfState};

    ghost Value = { ShelfState };

    ghost view = { λ s. record {
      files = s.files.items;
      failing = s.failing.items;
      calls = s.calls;
      held_faults = s.held_faults;
      missing_faults = s.missing_faults;
    } };
}

/// The bytes of the first file with the name.
fn find_bytes<'a>(files: &'a [File], name: &[u8]) -> Option<&'a [u8]>
    ensures { option_copied result ≡ bytes_held files.now name.now }
{
    for file in files {
        if file.name.as_slice() == name {
            return Some(file.bytes.as_slice());
        }
    }
    None
}

/// Copies bytes from the place `at`, as many as `into` takes or as are left, and answers how many.
fn copy_from(bytes: &[u8], at: u64, into: &mut [u8]) -> usize
    ensures within { result ≤ length into.new }
    ensures copied { IsFetchedFrom true bytes.now at into.new result }
{
    if at >= bytes.len() as u64 {
        return 0;
    }
    let rest = &bytes[at as usize..];
    let count = rest.len().min(into.len());
    into[..count].copy_from_slice(&rest[..count]);
    count
}

impl MemShelf {
    ghost use Rattle.lid_base.specs.Memory.{ShelfState};

    /// A shelf of the files, on which the calls with the listed numbers fail. It takes no memory.
    pub fn new(files: Vec<File>, failing: Vec<u64>) -> MemShelf
        ensures { let start : ShelfState = record {
          files = files.items;
          failing = failing.items;
          calls = 0;
          held_faults = 0;
          missing_faults = 0;
        } in result ≡ start }
    {
        MemShelf {
            files,
            failing,
            calls: 0,
            held_faults: 0,
            missing_faults: 0,
        }
    }
}

impl Shelf for MemShelf {
    ghost use Rattle.lid_base.specs.Memory.{bytes_held, fault_count, fetch_fails, after_fetch};

    ghost held = { λ s name. bytes_held s.files name };

    ghost faults = { fault_count };

    ghost fetches = { λ _. None };

    ghost whole = { true };

    /// # Errors
    /// Exactly the calls with listed numbers and the fetches of missing names fail.
    fn fetch(&mut self, name: &str, at: u64, into: &mut [u8]) -> Result<usize, ShelfFailed>
        ensures within { IfOk result (λ n. n ≤ length into.new) }
        ensures bytes { IfOk result (λ n. FetchedFrom true (bytes_held self.old.files name.now) at into.new n) }
        ensures failed { OnErr result (Rose (fault_count self.old name.now) (fault_count self.new name.now)) }
        ensures still { OnOk result ((q : List ℕ) → fault_count self.new q ≡ fault_count self.old q) }
        ensures kept { bytes_held self.new.files ≡ bytes_held self.old.files }
        ensures grows { (q : List ℕ) → fault_count self.old q ≤ fault_count self.new q }
        ensures fails { is_err result ≡ fetch_fails self.old name.now }
        ensures after { self.new ≡ after_fetch self.old name.now }
    {
        self.calls = self.calls.saturating_add(1);
        match find_bytes(self.files.as_slice(), name.as_bytes()) {
            None => {
                self.missing_faults = self.missing_faults.saturating_add(1);
                Err(ShelfFailed)
            }
            Some(bytes) => {
                if self.failing.contains(&self.calls) {
                    self.held_faults = self.held_faults.saturating_add(1);
                    Err(ShelfFailed)
                } else {
                    Ok(copy_from(bytes, at, into))
                }
            }
        }
    }
}

/// A sink that keeps its bytes in memory, and tells them. It does not tell in which pieces they came.
///
/// A contract sees the bytes written, how many more fit, the numbers of the calls that fail, how
/// many calls were made, and how many of them failed. Calls are numbered from 1. Their number and
/// the count stay at 2^64 - 1 once they are there.
#[derive(Drop)]
pub struct MemSink {
    bytes: Vec<u8>,
    room: usize,
    failing: Vec<u64>,
    calls: u64,
    faults: u64,
}

impl Model for MemSink {
    ghost use Rattle.std.specs.Prelude.{◌+◌, ◌≤◌, vec_len, vec_capacity};
    ghost use Rattle.lid_base.specs.Memory.{SinkState};

    ghost Value = { SinkState };

    ghost view = { λ s. record {
      bytes = s.bytes.items;
      room = s.room;
      failing = s.failing.items;
      calls = s.calls;
      faults = s.faults;
    } };

    ghost invariant = { λ s. vec_len s.bytes + s.room ≤ vec_capacity s.bytes };
}

impl MemSink {
    ghost use Rattle.lid_base.specs.Memory.{SinkState};

    /// A sink with room for `room` bytes, on which the calls with the listed numbers fail. The room
    /// is taken here, so that no write takes memory.
    ///
    /// # Errors
    /// There was no memory for the room.
    pub fn new(alloc: Global, room: u64, failing: Vec<u64>) -> Result<MemSink, AllocError>
        ensures { IfOk result (λ sink. let start : SinkState = record {
          bytes = [];
          room = room;
          failing = failing.items;
          calls = 0;
          faults = 0;
        } in sink ≡ start) }
    {
        let room = room as usize;
        let bytes = Vec::with_capacity(alloc, room)?;
        Ok(MemSink {
            bytes,
            room,
            failing,
            calls: 0,
            faults: 0,
        })
    }

    /// The bytes written so far.
    pub fn written(&self) -> &[u8]
        ensures { result.now ≡ self.now.bytes }
    {
        self.bytes.as_slice()
    }
}

impl Sink for MemSink {
    ghost use Rattle.lid_base.specs.Memory.{write_fails, after_write};

    ghost written = { λ s. Some s.bytes };

    ghost faults = { λ s. s.faults };

    ghost pieces = { λ _. None };

    /// # Errors
    /// Exactly the calls with listed numbers and the pieces that do not fit in the room left fail.
    /// They append nothing.
    fn write(&mut self, piece: &[u8]) -> Result<(), SinkFailed>
        ensures ok { OnOk result (Appended (Some self.old.bytes) (Some self.new.bytes) piece.now) }
        ensures err { OnErr result (AppendedPrefix (Some self.old.bytes) (Some self.new.bytes) piece.now) }
        ensures failed { OnErr result (Rose self.old.faults self.new.faults) }
        ensures still { OnOk result (self.new.faults ≡ self.old.faults) }
        ensures grows { self.old.faults ≤ self.new.faults }
        ensures fails { is_err result ≡ write_fails self.old piece.now }
        ensures after { self.new ≡ after_write self.old piece.now }
    {
        self.calls = self.calls.saturating_add(1);
        if self.failing.contains(&self.calls) || self.room < piece.len() {
            self.faults = self.faults.saturating_add(1);
            return Err(SinkFailed);
        }
        match self.bytes.extend_from_slice(piece) {
            Ok(()) => {
                self.room -= piece.len();
                Ok(())
            }
            Err(_) => unreachable!(),
        }
    }
}
