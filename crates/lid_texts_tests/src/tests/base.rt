//! Logical lines, files and outputs in memory and of the system, and gates.

use lid_base::{
    Bytes, DirShelf, Fetch, File, Gate, Items, Line, MeetGate, MemShelf, MemSink, Name, Noting,
    OpenGate, Shelf, Sink, StdSink, Text, TextFault, copy_name, lines,
};
use std::alloc::{AllocError, Global};
use std::convert::AsStr;
use std::fs;
use std::test::Fail;

/// The most bytes of a text.
const MOST_BYTES: usize = 67_108_864;

fn is_line(line: &Line, number: u32, words: &[&[u8]]) -> bool {
    line.number == number
        && line.words.len() == words.len()
        && line
            .words
            .as_slice()
            .iter()
            .zip(words)
            .all(|(word, want)| word.as_slice() == *want)
}

/// Whether the logical lines of a text have these numbers and words.
fn are_lines(alloc: Global, text: &[u8], wanted: &[(u32, &[&[u8]])]) -> bool {
    if text.len() > MOST_BYTES {
        return false;
    }
    let Ok(found) = lines(alloc, text, 1024) else {
        return false;
    };
    if found.len() != wanted.len() {
        return false;
    }
    for (line, (number, words)) in found.as_slice().iter().zip(wanted) {
        if !is_line(line, *number, words) {
            return false;
        }
    }
    true
}

#[test]
fn lines_are_joined(rt: HostRuntime) {
    let text = b"# top \\\n.model  a\tb \\ # goes on\n c\\d\r\n\n \\\n.end\nlast \\";
    let wanted: [(u32, &[&[u8]]); 3] = [
        (2, &[b".model", b"a", b"b", b"c\\d"]),
        (5, &[b".end"]),
        (7, &[b"last"]),
    ];
    assert!(rt; are_lines(rt.alloc(), text, &wanted));
}

/// What is told of a text: the name of its fault and the line, or how many logical lines it has.
type Told = (&'static str, u64);

fn told_of(alloc: Global, text: &[u8]) -> Told {
    if text.len() > MOST_BYTES {
        return ("too many bytes", 0);
    }
    match lines(alloc, text, 1024) {
        Ok(found) => ("lines", found.len() as u64),
        Err(TextFault::BadByte { line }) => ("BadByte", u64::from(line)),
        Err(TextFault::NameTooLong { line }) => ("NameTooLong", u64::from(line)),
        Err(TextFault::Memory) => ("Memory", 0),
    }
}

/// Texts with a bad byte, and its line.
static BAD_BYTES: [(&[u8], u64); 5] = [
    (b"a\\\\", 1),
    (b"a\nb\\ c\n", 2),
    (b"\n\na\x7f", 3),
    (b"a\x00 # b", 1),
    (b"# \xff\n\xff", 2),
];

#[test]
fn bad_bytes_are_told(rt: HostRuntime) {
    for (text, line) in &BAD_BYTES {
        assert_eq!(rt; told_of(rt.alloc(), text), ("BadByte", *line), "{text:?}");
    }
}

/// A text whose second line is one word of so many bytes.
fn text_with_word(alloc: Global, bytes: usize) -> Result<Vec<u8>, AllocError> {
    let mut text = Vec::from_slice(alloc, b"first\n")?;
    for _ in 0..bytes {
        text.push(b'x')?;
    }
    Ok(text)
}

fn told_of_word(alloc: Global, bytes: usize) -> Told {
    match text_with_word(alloc, bytes) {
        Ok(text) => told_of(alloc, text.as_slice()),
        Err(_) => ("Memory", 0),
    }
}

/// Lengths of a word of the second line, and what is told.
static WORDS: [(usize, Told); 2] = [(1024, ("lines", 2)), (1025, ("NameTooLong", 2))];

#[test]
fn long_words_are_told(rt: HostRuntime) {
    for (bytes, told) in &WORDS {
        assert_eq!(rt; told_of_word(rt.alloc(), *bytes), *told);
    }
}

/// Whether a fetch into `into` gives these bytes, or fails where there are none.
pub fn is_fetched<S: Shelf>(
    shelf: &mut S,
    name: &str,
    at: u64,
    into: &mut [u8],
    wanted: Option<&[u8]>,
) -> bool {
    let fetched = shelf.fetch(name, at, into);
    match (fetched, wanted) {
        (Ok(count), Some(bytes)) => count == bytes.len() && into.starts_with(bytes),
        (Err(_), None) => true,
        _ => false,
    }
}

pub fn file(alloc: Global, name: &[u8], bytes: &[u8]) -> Result<File, AllocError> {
    let name = copy_name(alloc, name)?;
    let bytes = Vec::from_slice(alloc, bytes)?;
    Ok(File {
        name,
        bytes: Items::from_vec(bytes),
    })
}

/// A shelf with two files of one name, whose second call fails.
fn shelf(alloc: Global) -> Result<MemShelf, AllocError> {
    let mut files = Vec::new(alloc);
    files.push(file(alloc, b"a", b"hello")?)?;
    files.push(file(alloc, b"a", b"other")?)?;
    let failing = Vec::from_slice(alloc, &[2])?;
    Ok(MemShelf::new(files, failing))
}

/// Fetches of 3 bytes at a name and a place, and what they give.
static FETCHES: [(&str, u64, Option<&[u8]>); 5] = [
    ("a", 1, Some(b"ell")),
    ("a", 1, None),
    ("a", 4, Some(b"o")),
    ("a", 9, Some(b"")),
    ("b", 0, None),
];

/// Whether those fetches give what they must.
fn are_fetched<S: Shelf>(shelf: &mut S) -> bool {
    let mut into = [0u8; 3];
    for (name, at, bytes) in &FETCHES {
        if !is_fetched(shelf, name, *at, &mut into, *bytes) {
            return false;
        }
    }
    true
}

/// Whether those fetches were noted.
fn are_noted(calls: Option<&[Fetch]>) -> bool {
    let Some(calls) = calls else {
        return false;
    };
    if calls.len() != FETCHES.len() {
        return false;
    }
    for (call, (name, at, _)) in calls.iter().zip(FETCHES.iter()) {
        if call.name.as_slice() != name.as_bytes() || call.at != *at || call.room != 3 {
            return false;
        }
    }
    true
}

#[test]
fn files_are_fetched_from_memory(rt: HostRuntime) {
    match shelf(rt.alloc()) {
        Ok(shelf) => {
            let mut shelf: Noting<MemShelf, Fetch> = Noting::new(rt.alloc(), shelf);
            assert!(rt; are_fetched(&mut shelf) && are_noted(shelf.calls()));
        }
        Err(_) => assert!(rt; false, "no memory"),
    }
}

/// Writes of pieces, and whether they succeed: the second call fails, and more than 6 bytes do not
/// fit.
static WRITES: [(&[u8], bool); 4] = [
    (b"abc", true),
    (b"d", false),
    (b"efgh", false),
    (b"xyz", true),
];

/// Whether writes to an output succeed as they should.
fn are_written<S: Sink>(sink: &mut S, writes: &[(&[u8], bool)]) -> bool {
    for (piece, is_written) in writes {
        if piece.is_empty() || piece.len() > 65_536 {
            return false;
        }
        if sink.write(piece).is_ok() != *is_written {
            return false;
        }
    }
    true
}

/// An output of at most 6 bytes, whose second call fails.
fn sink(alloc: Global) -> Result<MemSink, AllocError> {
    let failing = Vec::from_slice(alloc, &[2])?;
    MemSink::new(alloc, 6, failing)
}

/// Whether those writes were noted.
fn are_writes_noted(pieces: Option<&[Bytes]>) -> bool {
    let Some(pieces) = pieces else {
        return false;
    };
    if pieces.len() != WRITES.len() {
        return false;
    }
    for (piece, (bytes, _)) in pieces.iter().zip(WRITES.iter()) {
        if piece.as_slice() != *bytes {
            return false;
        }
    }
    true
}

#[test]
fn bytes_are_written_to_memory(rt: HostRuntime) {
    match sink(rt.alloc()) {
        Ok(sink) => {
            let mut sink: Noting<MemSink, Bytes> = Noting::new(rt.alloc(), sink);
            let as_told = are_written(&mut sink, &WRITES);
            assert!(rt; as_told && sink.inside().written() == b"abcxyz".as_slice());
            assert!(rt; are_writes_noted(sink.calls()));
        }
        Err(_) => assert!(rt; false, "no memory"),
    }
}

#[test]
fn gates_are_passed(rt: HostRuntime) {
    OpenGate.pass(0, 0);
    let gate = MeetGate::new(2, 3);
    gate.pass(0, 0);
    gate.pass(1, 1);
    assert!(rt; !gate.met());
    gate.pass(1, 0);
    assert!(rt; !gate.met());
    gate.pass(0, 0);
    assert!(rt; gate.met());
}

fn is_seen(alloc: Global, text: &str) -> bool {
    match String::from_str(alloc, text) {
        Ok(string) => Text::new(string).as_str() == text,
        Err(_) => false,
    }
}

#[test]
fn a_text_is_seen(rt: HostRuntime) {
    assert!(rt; is_seen(rt.alloc(), "copy"));
}

/// The file that a test writes.
const PATH: &str = "lid_base_written.txt";

/// Whether the bytes of the file that was written are fetched.
fn are_bytes_fetched<S: Shelf>(shelf: &mut S) -> bool {
    let mut into = [0u8; 5];
    is_fetched(shelf, PATH, 2, &mut into, Some(b"e two"))
        && is_fetched(shelf, PATH, 7, &mut into, Some(b""))
}

/// Whether the file that was removed is not fetched.
fn is_nothing_fetched<S: Shelf>(shelf: &mut S) -> bool {
    let mut into = [0u8; 5];
    is_fetched(shelf, PATH, 0, &mut into, None)
}

#[test]
fn files_are_written_and_fetched(rt: HostRuntime) -> Result<(), Fail> {
    let mut sink = StdSink::new(fs::create(&rt, PATH)?);
    assert!(rt; are_written(&mut sink, &[(b"one ", true), (b"two", true)]));
    let mut shelf = DirShelf::new(&rt);
    assert!(rt; are_bytes_fetched(&mut shelf));
    fs::remove_file(&rt, PATH)?;
    assert!(rt; is_nothing_fetched(&mut shelf));
    Ok(())
}
