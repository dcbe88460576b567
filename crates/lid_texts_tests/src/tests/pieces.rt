//! Texts that are written in pieces, over a sink that notes them.

use lid_base::{Bytes, MemSink, Noting, Sink, SinkFailed};
use lid_base_io::{PieceWriter, write_all};
use std::alloc::{AllocError, Global};

/// How many bytes a piece has.
const PIECE: usize = 65_536;

/// A text of so many bytes, no two parts of which look alike.
pub fn text_of(alloc: Global, count: usize) -> Result<Vec<u8>, AllocError> {
    let mut text = Vec::with_capacity(alloc, count)?;
    for k in 0..count {
        text.push((k % 251) as u8)?;
    }
    Ok(text)
}

/// Writes a text that is pushed part by part.
fn write_parts<O: Sink>(
    writer: &mut PieceWriter,
    sink: &mut O,
    text: &[u8],
    part: usize,
) -> Result<(), SinkFailed> {
    for bytes in text.chunks(part.max(1)) {
        writer.push(sink, bytes)?;
    }
    writer.finish(sink)
}

/// An output for texts of the tests, on which a call fails.
fn sink_of(alloc: Global, failing: u64) -> Result<Noting<MemSink, Bytes>, AllocError> {
    let failing = Vec::from_slice(alloc, &[failing])?;
    Ok(Noting::new(alloc, MemSink::new(alloc, 200_000, failing)?))
}

/// Whether these are the first pieces of a text, as many as were written.
fn are_pieces(pieces: Option<&[Bytes]>, text: &[u8], writes: usize) -> bool {
    let Some(pieces) = pieces else {
        return false;
    };
    let mut left = text;
    for piece in pieces {
        let Some(rest) = left.strip_prefix(piece.as_slice()) else {
            return false;
        };
        if piece.len() != PIECE && !rest.is_empty() {
            return false;
        }
        left = rest;
    }
    pieces.len() == writes
}

/// How many bytes a text has, in parts of how many it is pushed, which write fails, whether the
/// text is written, how many of its bytes are, and by how many writes.
static TEXTS: [(usize, usize, u64, bool, usize, usize); 11] = [
    (0, 1, 1, true, 0, 0),
    (65_535, 40_000, 2, true, 65_535, 1),
    (65_535, 40_000, 1, false, 0, 1),
    (65_536, 40_000, 2, true, 65_536, 1),
    (65_536, 65_536, 1, false, 0, 1),
    (65_537, 40_000, 3, true, 65_537, 2),
    (65_537, 65_537, 2, false, 65_536, 2),
    (200_000, 1_000, 5, true, 200_000, 4),
    (200_000, 200_000, 5, true, 200_000, 4),
    (200_000, 70_000, 4, false, 196_608, 4),
    (200_000, 200_000, 2, false, 65_536, 2),
];

/// Whether a text is written so, and nothing more of it after a failure.
fn is_written(
    alloc: Global,
    (count, part, failing, is_whole, most, writes): (usize, usize, u64, bool, usize, usize),
) -> Result<bool, AllocError> {
    let text = text_of(alloc, count)?;
    let mut sink = sink_of(alloc, failing)?;
    let mut writer = PieceWriter::start(alloc)?;
    let written = write_parts(&mut writer, &mut sink, text.as_slice(), part);
    let after = writer.finish(&mut sink);
    Ok(
        written.is_ok() == is_whole
            && after.is_ok()
            && text.as_slice().starts_with(sink.inside().written())
            && sink.inside().written().len() == most
            && are_pieces(sink.calls(), text.as_slice(), writes),
    )
}

#[test]
fn texts_are_written_in_pieces(rt: HostRuntime) {
    for text in &TEXTS {
        let written = is_written(rt.alloc(), *text);
        assert!(rt; written == Ok(true), "{} {} {}", text.0, text.1, text.2);
    }
}

/// How many bytes a text has, and by how many writes it is written.
static WHOLE_TEXTS: [(usize, usize); 5] = [(0, 0), (1, 1), (65_536, 1), (65_537, 2), (200_000, 4)];

/// Whether a text is written by so many writes.
fn is_written_by(alloc: Global, count: usize, writes: usize) -> Result<bool, AllocError> {
    let text = text_of(alloc, count)?;
    let mut sink = sink_of(alloc, 9)?;
    let written = write_all(&mut sink, text.as_slice());
    Ok(written.is_ok() && are_pieces(sink.calls(), text.as_slice(), writes))
}

#[test]
fn whole_texts_are_written_in_pieces(rt: HostRuntime) {
    for (count, writes) in &WHOLE_TEXTS {
        let written = is_written_by(rt.alloc(), *count, *writes);
        assert!(rt; written == Ok(true), "{count}");
    }
}
