//! The rows that a run is over.

ghost use Rattle.std.specs.Prelude.{◌≡◌, ◌<◌, [], length, slice_index_or, IfOk};
ghost use Rattle.lid_texts_packed.specs.Input.{input_of};

use crate::rows::PackedRows;
use lid_texts::Rows;
use std::alloc::{AllocError, Global};

/// The rows that a run is over: each a list of its own, or packed.
#[derive(Clone, Copy)]
pub enum InputRows<'r> {
    /// Each is a list of its own.
    Listed(&'r Rows),
    /// They are packed.
    Packed(&'r PackedRows),
}

impl InputRows<'_> {
    /// How many rows there are.
    pub fn len(&self) -> usize
        ensures { result ≡ length (input_of self.now) }
    {
        match self {
            InputRows::Listed(rows) => rows.bits.len(),
            InputRows::Packed(rows) => rows.len(),
        }
    }

    /// How many bits a row has.
    fn width_of(&self, row: usize) -> usize
        requires { row < length (input_of self.now) }
        ensures { result ≡ length (slice_index_or (input_of self.now) row []) }
    {
        match self {
            InputRows::Listed(rows) => rows.bits.as_slice()[row].len(),
            InputRows::Packed(rows) => rows.width(),
        }
    }

    /// Writes a row into bits.
    pub fn read(&self, row: usize, into: &mut [bool])
        requires row { row < length (input_of self.now) }
        requires wide { length into.old ≡ length (slice_index_or (input_of self.now) row []) }
        ensures { into.new ≡ slice_index_or (input_of self.now) row [] }
    {
        match self {
            InputRows::Listed(rows) => into.copy_from_slice(rows.bits.as_slice()[row].as_slice()),
            InputRows::Packed(rows) => {
                // Its clause says how wide each row is, which `read` asks for.
                rows.width();
                rows.read(row, into)
            }
        }
    }

    /// The first row; no bits where there is none.
    ///
    /// # Errors
    /// Want of memory.
    pub fn first(&self, alloc: Global) -> Result<Vec<bool>, AllocError>
        ensures { IfOk result (λ bits. bits.items ≡ slice_index_or (input_of self.now) 0 []) }
    {
        if self.len() == 0 {
            return Ok(Vec::new(alloc));
        }
        let mut bits = Vec::from_elem(alloc, false, self.width_of(0))?;
        self.read(0, bits.as_mut_slice());
        Ok(bits)
    }
}
