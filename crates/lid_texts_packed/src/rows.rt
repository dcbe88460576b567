//! Rows of bits of one width.

ghost use Rattle.std.specs.Prelude.{◌≡◌, ◌<◌, ℕ, ◌++◌, ◌∷◌, [], false, length, slice_index_or, IfOk, OnOk, OnErr};

use crate::bits::append_row;
use lid_base::Items;
use std::alloc::{AllocError, Global};
use std::marker::Model;

/// Rows of bits of one width, each from a word of its own on. A contract sees the width and the rows.
#[derive(Drop)]
pub struct PackedRows {
    words: Vec<u64>,
    width: usize,
    /// How many words a row takes.
    span: usize,
    count: usize,
}

impl Model for PackedRows {
    ghost use Rattle.std.specs.Prelude.{◌≡◌, ◌*◌, length};
    ghost use Rattle.lid_texts_packed.specs.Bits.{words_for};
    ghost use Rattle.lid_texts_packed.specs.Rows.{WideRows, rows_in};

    ghost Value = { WideRows };

    ghost view = { λ s. record { width = s.width; rows = rows_in s.words.items s.width s.count } };

    ghost invariant = { λ s. (s.span ≡ words_for s.width) × (length s.words.items ≡ s.count * s.span) };
}

impl PackedRows {
    /// No rows, of this width.
    pub fn new(alloc: Global, width: usize) -> PackedRows
        ensures { result ≡ record { width = width; rows = [] } }
    {
        PackedRows {
            words: Vec::new(alloc),
            width,
            span: width.div_ceil(64),
            count: 0,
        }
    }

    /// How many bits a row has, and each has as many.
    pub fn width(&self) -> usize
        ensures is { result ≡ self.now.width }
        ensures wide { (row : ℕ) → row < length self.now.rows → result ≡ length (slice_index_or self.now.rows row []) }
    {
        self.width
    }

    /// How many rows there are.
    pub fn len(&self) -> usize
        ensures { result ≡ length self.now.rows }
    {
        self.count
    }

    /// Appends a row.
    ///
    /// # Errors
    /// Want of memory. The rows are then as they were.
    pub fn push(&mut self, row: &[bool]) -> Result<(), AllocError>
        requires { length row.now ≡ self.old.width }
        ensures ok { OnOk result (self.new ≡ record { width = self.old.width; rows = self.old.rows ++ row.now ∷ [] }) }
        ensures kept { OnErr result (self.new ≡ self.old) }
        ensures width { self.new.width ≡ self.old.width }
    {
        let Some(count) = self.count.checked_add(1) else {
            return Err(AllocError);
        };
        append_row(&mut self.words, row)?;
        self.count = count;
        Ok(())
    }

    /// The bit at a place of a row.
    fn bit(&self, row: usize, place: usize) -> bool
        requires row { row < length self.now.rows }
        requires place { place < self.now.width }
        ensures { result ≡ slice_index_or (slice_index_or self.now.rows row []) place false }
    {
        (self.words[row * self.span + place / 64] >> (place % 64)) & 1 == 1
    }

    /// A bit of a row, or 0 where the row is not so wide.
    pub fn bit_of(&self, row: usize, place: usize) -> bool
        requires { row < length self.now.rows }
        ensures { result ≡ slice_index_or (slice_index_or self.now.rows row []) place false }
    {
        place < self.width && self.bit(row, place)
    }

    /// Writes a row into bits.
    pub fn read(&self, row: usize, into: &mut [bool])
        requires row { row < length self.now.rows }
        requires wide { length into.old ≡ self.now.width }
        ensures { into.new ≡ slice_index_or self.now.rows row [] }
    {
        for k in 0..self.span {
            let word = self.words[row * self.span + k];
            for place in 64 * k..64 * k + 64.min(self.width - 64 * k) {
                into[place] = (word >> (place % 64)) & 1 == 1;
            }
        }
    }

    /// Each row as a list of its own.
    ///
    /// # Errors
    /// Want of memory.
    pub fn unpack(&self, alloc: Global) -> Result<Vec<Items<bool>>, AllocError>
        ensures { IfOk result (λ rows. rows.items ≡ self.now.rows) }
    {
        let mut rows = Vec::with_capacity(alloc, self.count)?;
        for row in 0..self.count {
            let mut bits = Vec::from_elem(alloc, false, self.width)?;
            self.read(row, bits.as_mut_slice());
            rows.push(Items::from_vec(bits))?;
        }
        Ok(rows)
    }
}
