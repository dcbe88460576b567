//! Outputs over writers that take little, and files that are pipes.

use crate::tests::base::is_fetched;
use lid_base::{DirShelf, Shelf, Sink, StdSink};
use std::alloc::Global;
use std::io;
use std::io::{PipeReader, Write};
use std::os::fd::AsRawFd;
use std::test::Fail;

/// A writer that takes at most `most` bytes in a call, and `room` in all.
#[derive(Drop)]
struct SlowWriter {
    taken: Vec<u8>,
    most: usize,
    room: usize,
}

impl Write for SlowWriter {
    ghost use Rattle.std.specs.Prelude.{Some};

    ghost contents = { λ w. Some w.taken.items };

    fn write(&mut self, bytes: &[u8]) -> io::Result<usize> {
        let count = bytes.len().min(self.most).min(self.room);
        self.taken.extend_from_slice(&bytes[..count])?;
        self.room -= count;
        Ok(count)
    }

    fn flush(&mut self) -> io::Result<()> {
        Ok(())
    }
}

/// What a writer takes in a call and in all, whether a write of `abcde` succeeds, and what the
/// writer then has.
static SLOW_WRITES: [(usize, usize, bool, &[u8]); 5] = [
    (9, 9, true, b"abcde"),
    (1, 9, true, b"abcde"),
    (2, 5, true, b"abcde"),
    (1, 3, false, b"abc"),
    (0, 9, false, b""),
];

/// Whether a write ends so.
fn is_taken(alloc: Global, most: usize, room: usize, is_written: bool, wanted: &[u8]) -> bool {
    let taken = Vec::new(alloc);
    let mut writer = SlowWriter { taken, most, room };
    let written = StdSink::new(&mut writer).write(b"abcde");
    written.is_ok() == is_written && writer.taken.as_slice() == wanted
}

#[test]
fn short_writes_go_on(rt: HostRuntime) {
    for (most, room, is_written, wanted) in &SLOW_WRITES {
        assert!(rt; is_taken(rt.alloc(), *most, *room, *is_written, wanted));
    }
}

/// Fetches of 3 bytes from a pipe with 5 bytes: a place that is past cannot be fetched again, and
/// such a fetch changes nothing.
static PIPE_FETCHES: [(u64, Option<&[u8]>); 6] = [
    (0, Some(b"hel")),
    (1, None),
    (3, Some(b"lo")),
    (5, Some(b"")),
    (0, None),
    (5, Some(b"")),
];

/// Whether those fetches give what they must.
fn is_pipe_fetched<S: Shelf>(shelf: &mut S, name: &str) -> bool {
    let mut into = [0u8; 3];
    for (at, bytes) in &PIPE_FETCHES {
        if !is_fetched(shelf, name, *at, &mut into, *bytes) {
            return false;
        }
    }
    true
}

#[test]
fn a_pipe_is_read_once(rt: HostRuntime) -> Result<(), Fail> {
    let (reader, mut writer) = io::pipe(&rt)?;
    writer.write_all(b"hello")?;
    drop(writer);
    let name = format!(in rt.alloc(); "/dev/fd/{}", reader.as_raw_fd())?;
    let mut shelf = DirShelf::new(&rt);
    assert!(rt; is_pipe_fetched(&mut shelf, name.as_str()));
    Ok(())
}

/// A pipe that holds some bytes, and no more will come.
fn full_pipe(rt: &HostRuntime, bytes: &[u8]) -> io::Result<PipeReader> {
    let (reader, mut writer) = io::pipe(rt)?;
    writer.write_all(bytes)?;
    drop(writer);
    Ok(reader)
}

/// Whether each of two files gives its own bytes, fetched in turn.
fn are_apart<S: Shelf>(shelf: &mut S, first: &str, second: &str) -> bool {
    let mut into = [0u8; 3];
    is_fetched(shelf, first, 0, &mut into, Some(b"hel"))
        && is_fetched(shelf, second, 0, &mut into, Some(b"wor"))
        && is_fetched(shelf, second, 3, &mut into, Some(b"ld"))
        && is_fetched(shelf, first, 0, &mut into, Some(b"lo"))
}

#[test]
fn names_of_one_length_are_two_files(rt: HostRuntime) -> Result<(), Fail> {
    let first = full_pipe(&rt, b"hello")?;
    let second = full_pipe(&rt, b"world")?;
    let first_name = format!(in rt.alloc(); "/dev/fd/{}", first.as_raw_fd())?;
    let second_name = format!(in rt.alloc(); "/dev/fd/{}", second.as_raw_fd())?;
    assert!(rt; first_name.len() == second_name.len());
    let mut shelf = DirShelf::new(&rt);
    assert!(rt; are_apart(&mut shelf, first_name.as_str(), second_name.as_str()));
    Ok(())
}
