//! Writing a text that grows, in pieces.

ghost use Rattle.std.specs.Prelude.{◌≡◌, ◌+◌, ◌≤◌, ◌<◌, ◌∷◌, ◌++◌, [], length, vec_capacity, IfOk, OnOk, OnErr};
ghost use Rattle.lid_base.specs.Outside.{Rose, Appended, AppendedPrefix, Came, CamePrefix};
ghost use Rattle.lid_base_io.specs.Calls.{pieces_of, full_pieces};
ghost use Rattle.lid_base_io.specs.Transfer.{whole_pieces, after_pieces};

use crate::writing::PIECE;
use lid_base::{Sink, SinkFailed};
use std::alloc::{AllocError, Global};
use std::marker::Model;

/// A text on its way to an output, in pieces of 65,536 bytes. A contract sees the bytes that are
/// held: those that were pushed and not yet written, always fewer than a piece.
///
/// Its room is taken when it is made, so that no further call takes memory. After a write that
/// failed it holds nothing: what was held is lost, and a call of `finish` then writes nothing.
#[derive(Drop)]
pub struct PieceWriter {
    bytes: Vec<u8>,
}

impl Model for PieceWriter {
    ghost use Rattle.std.specs.Prelude.{ℕ, List, ◌<◌, ◌≤◌, vec_len, vec_capacity};

    ghost Value = { List ℕ };

    ghost view = { λ s. s.bytes.items };

    ghost invariant = { λ s. (vec_len s.bytes < 65536) × (65536 ≤ vec_capacity s.bytes) };
}

impl PieceWriter {
    /// A writer that holds nothing.
    ///
    /// # Errors
    /// There was no memory for a piece.
    pub fn start(alloc: Global) -> Result<PieceWriter, AllocError>
        ensures { IfOk result (λ writer. writer ≡ []) }
    {
        let bytes = Vec::with_capacity(alloc, PIECE)?;
        Ok(PieceWriter { bytes })
    }

    /// Pushes bytes, and writes each piece as soon as all its bytes are held.
    ///
    /// # Errors
    /// A write fails only where the count of the sink rose in this call; a prefix of the bytes held
    /// and pushed was then written.
    pub fn push<O: Sink>(&mut self, out: &mut O, bytes: &[u8]) -> Result<(), SinkFailed>
        ensures ok { OnOk result (Appended (O.written out.old) (O.written out.new) (whole_pieces (self.old ++ bytes.now))) }
        ensures rest { OnOk result (self.new ≡ after_pieces (self.old ++ bytes.now)) }
        ensures err { OnErr result (AppendedPrefix (O.written out.old) (O.written out.new) (self.old ++ bytes.now)) }
        ensures lost { OnErr result (self.new ≡ []) }
        ensures short { length self.new < 65536 }
        ensures pieces { OnOk result (Came (O.pieces out.old) (O.pieces out.new) (full_pieces (self.old ++ bytes.now))) }
        ensures begun { OnErr result (CamePrefix (O.pieces out.old) (O.pieces out.new) (full_pieces (self.old ++ bytes.now))) }
        ensures still { OnOk result (O.faults out.new ≡ O.faults out.old) }
        ensures failed { OnErr result (Rose (O.faults out.old) (O.faults out.new)) }
        ensures grows { O.faults out.old ≤ O.faults out.new }
    {
        // The proof reads from this that fewer bytes than a piece are held.
        let _ = &self.bytes;
        let mut left = bytes;
        while !left.is_empty() {
            let (part, later) = left.split_at(self.room().min(left.len()));
            let Ok(()) = self.push_part(out, part) else {
                return Err(SinkFailed);
            };
            left = later;
        }
        Ok(())
    }

    /// Writes the bytes that are held, where there are some, as the last piece.
    ///
    /// # Errors
    /// A write fails only where the count of the sink rose in this call; a prefix of the bytes held
    /// was then written.
    pub fn finish<O: Sink>(&mut self, out: &mut O) -> Result<(), SinkFailed>
        ensures ok { OnOk result (Appended (O.written out.old) (O.written out.new) self.old) }
        ensures err { OnErr result (AppendedPrefix (O.written out.old) (O.written out.new) self.old) }
        ensures none { self.new ≡ [] }
        ensures pieces { Came (O.pieces out.old) (O.pieces out.new) (pieces_of self.old) }
        ensures still { OnOk result (O.faults out.new ≡ O.faults out.old) }
        ensures failed { OnErr result (Rose (O.faults out.old) (O.faults out.new)) }
        ensures grows { O.faults out.old ≤ O.faults out.new }
    {
        if self.bytes.is_empty() {
            return Ok(());
        }
        write_held(&mut self.bytes, out)
    }

    /// How many bytes more make a piece.
    fn room(&self) -> usize
        ensures room { length self.now + result ≡ 65536 }
        ensures some { length self.now < 65536 }
    {
        PIECE - self.bytes.len()
    }

    /// Pushes bytes of at most one piece with those that are held.
    fn push_part<O: Sink>(&mut self, out: &mut O, part: &[u8]) -> Result<(), SinkFailed>
        requires { length self.old + length part.now ≤ 65536 }
        ensures ok { OnOk result (Appended (O.written out.old) (O.written out.new) (whole_pieces (self.old ++ part.now))) }
        ensures rest { OnOk result (self.new ≡ after_pieces (self.old ++ part.now)) }
        ensures err { OnErr result (AppendedPrefix (O.written out.old) (O.written out.new) (self.old ++ part.now)) }
        ensures lost { OnErr result (self.new ≡ []) }
        ensures short { length self.new < 65536 }
        ensures pieces { Came (O.pieces out.old) (O.pieces out.new) (full_pieces (self.old ++ part.now)) }
        ensures still { OnOk result (O.faults out.new ≡ O.faults out.old) }
        ensures failed { OnErr result (Rose (O.faults out.old) (O.faults out.new)) }
        ensures grows { O.faults out.old ≤ O.faults out.new }
    {
        let Ok(()) = self.bytes.extend_from_slice(part) else {
            unreachable!()
        };
        if self.bytes.len() < PIECE {
            return Ok(());
        }
        write_held(&mut self.bytes, out)
    }
}

/// Writes bytes as one piece, and clears them.
fn write_held<O: Sink>(bytes: &mut Vec<u8>, out: &mut O) -> Result<(), SinkFailed>
    requires some { 0 < length bytes.old.items }
    requires few { length bytes.old.items ≤ 65536 }
    ensures ok { OnOk result (Appended (O.written out.old) (O.written out.new) bytes.old.items) }
    ensures err { OnErr result (AppendedPrefix (O.written out.old) (O.written out.new) bytes.old.items) }
    ensures none { bytes.new.items ≡ [] }
    ensures capacity { vec_capacity bytes.old ≤ vec_capacity bytes.new }
    ensures pieces { Came (O.pieces out.old) (O.pieces out.new) (bytes.old.items ∷ []) }
    ensures still { OnOk result (O.faults out.new ≡ O.faults out.old) }
    ensures failed { OnErr result (Rose (O.faults out.old) (O.faults out.new)) }
    ensures grows { O.faults out.old ≤ O.faults out.new }
{
    let written = out.write(bytes.as_slice());
    bytes.clear();
    written
}
