//! The real files, and the real outputs.

ghost use Rattle.std.specs.Prelude.{◌≡◌, ℕ, ◌≤◌, ◌+◌, ◌-◌, ◌^◌, min, length, false, None, IfOk};
ghost use Rattle.std.specs.Io.KnownBytes.{ReadConsumes};

use crate::outside::{Shelf, ShelfFailed, Sink, SinkFailed};
use std::io::{Read, Seek, SeekFrom, Write};
use std::marker::Model;
use std::rt::Files;
use std::{fs, io};

/// The file that was read last, and the place in it from which the next bytes are read.
#[derive(Drop)]
struct LastFile<F: Read + Seek + Drop> {
    name: String,
    file: F,
    place: u64,
}

impl<F: Read + Seek + Drop> LastFile<F> {
    /// Reads bytes from the place `at`. It seeks only where that is another place, which fails on
    /// what has no places, as a pipe. Where it does not seek, it gives the next bytes of the reader,
    /// where these are told, and none only at their end.
    fn read_at(&mut self, at: u64, into: &mut [u8]) -> io::Result<usize>
        ensures within { IfOk result (λ n. n ≤ length into.new) }
        ensures given { at ≡ self.old.place → ReadConsumes (F.remaining self.old.file) (F.remaining self.new.file) result into.new }
        ensures place { at ≡ self.old.place → IfOk result (λ n. self.new.place ≡ min (at + n) (2 ^ 64 - 1)) }
    {
        if at != self.place {
            self.file.seek(SeekFrom::Start(at))?;
            self.place = at;
        }
        let count = self.file.read(into)?;
        self.place = self.place.saturating_add(count as u64);
        Ok(count)
    }

    /// Whether its first byte can be read again, which of a pipe it cannot.
    fn can_go_back(&mut self) -> bool {
        self.file.rewind().is_ok()
    }
}

/// Opens a file at its first byte.
fn open_file<R: Files + AllocGlobal>(rt: &R, name: &str) -> io::Result<LastFile<R::File>> {
    let file = fs::open(rt, name)?;
    let name = String::from_str(rt.alloc(), name)?;
    Ok(LastFile {
        name,
        file,
        place: 0,
    })
}

/// The files of the system. What they hold is not told, and which calls were made is not either. One
/// count, of all fetches that failed, is the count of every name. A contract sees this count.
///
/// The file that was read last stays open, and a fetch of its next bytes reads on. A fetch from the
/// first byte again opens it anew. Of a pipe, which can be read once, from its first byte to its
/// end, a fetch from another place fails.
#[derive(Drop)]
pub struct DirShelf<'a, R: Files> {
    rt: &'a R,
    last: Option<LastFile<R::File>>,
    faults: u64,
}

impl<'a, R: Files> Model for DirShelf<'a, R> {
    ghost use Rattle.std.specs.Prelude.{ℕ};

    ghost Value = { ℕ };

    ghost view = { λ s. s.faults };
}

impl<'a, R: Files + AllocGlobal> DirShelf<'a, R> {
    /// The files that the runtime opens.
    pub fn new(rt: &'a R) -> DirShelf<'a, R>
        ensures { result ≡ 0 }
    {
        DirShelf {
            rt,
            last: None,
            faults: 0,
        }
    }

    /// Reads bytes of a file from the place `at`.
    fn read(&mut self, name: &str, at: u64, into: &mut [u8]) -> io::Result<usize>
        ensures within { IfOk result (λ n. n ≤ length into.new) }
        ensures count { self.new ≡ self.old }
    {
        let mut file = match self.last.take() {
            Some(last) if last.name.as_str() == name => last,
            _ => open_file(self.rt, name)?,
        };
        if at == 0 && file.place > 0 && file.can_go_back() {
            file = open_file(self.rt, name)?;
        }
        let count = file.read_at(at, into);
        self.last = Some(file);
        count
    }
}

impl<R: Files + AllocGlobal> Shelf for DirShelf<'_, R> {
    ghost held = { λ _ _. None };

    ghost faults = { λ s _. s };

    ghost fetches = { λ _. None };

    ghost whole = { false };

    fn fetch(&mut self, name: &str, at: u64, into: &mut [u8]) -> Result<usize, ShelfFailed> {
        match self.read(name, at, into) {
            Ok(count) => Ok(count),
            Err(_) => {
                self.faults = self.faults.saturating_add(1);
                Err(ShelfFailed)
            }
        }
    }
}

/// An output of the system, behind a writer.
///
/// A contract sees what was written, where the writer tells what it holds, and how many writes
/// failed. The writers over standard output and over files tell nothing, and which pieces came is
/// not told. The count stays at 2^64 - 1 once it is there.
#[derive(Drop)]
pub struct StdSink<W: Write + Drop> {
    writer: W,
    faults: u64,
}

impl<W: Write + Drop> Model for StdSink<W> {
    ghost use Rattle.lid_base.specs.Outside.{OutputState};

    ghost Value = { OutputState };

    ghost view = { λ s. record { written = W.contents s.writer; faults = s.faults } };
}

impl<W: Write + Drop> StdSink<W> {
    ghost use Rattle.lid_base.specs.Outside.{OutputState};

    /// The output behind a writer.
    pub fn new(writer: W) -> StdSink<W>
        ensures { let start : OutputState = record { written = W.contents writer; faults = 0 } in result ≡ start }
    {
        StdSink { writer, faults: 0 }
    }
}

impl<W: Write + Drop> Sink for StdSink<W> {
    ghost written = { λ s. s.written };

    ghost faults = { λ s. s.faults };

    ghost pieces = { λ _. None };

    /// # Errors
    /// The writer failed, or took nothing of what was left of the piece.
    fn write(&mut self, piece: &[u8]) -> Result<(), SinkFailed> {
        let mut rest = piece;
        while !rest.is_empty() {
            match self.writer.write(rest) {
                Ok(0) | Err(_) => {
                    self.faults = self.faults.saturating_add(1);
                    return Err(SinkFailed);
                }
                Ok(count) => rest = &rest[count..],
            }
        }
        Ok(())
    }
}
