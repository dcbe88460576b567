//! Where the rows of a simulation come from.

ghost use Rattle.std.specs.Prelude.{◌≡◌, ◌<◌, [], length, slice_index_or};
ghost use Rattle.lid_strict_engine.specs.Rows.{bit_at};

use crate::simulation::bit_of;
use lid_texts::Rows;
use lid_texts_packed::PackedRows;

/// Rows of bits by their numbers.
pub trait RowSource {
    ghost use Rattle.std.specs.Prelude.{Bool, List};

    ghost rows: { Self → List (List Bool) };

    /// How many rows there are.
    fn count(&self) -> usize
        ensures { result ≡ length (rows self.now) };

    /// The bit at a place of a row, or 0 where the row is not so wide.
    fn bit(&self, row: usize, place: u32) -> bool
        requires { row < length (rows self.now) }
        ensures { result ≡ bit_at (slice_index_or (rows self.now) row []) place };
}

impl RowSource for Rows {
    ghost rows = { λ rows. rows.bits };

    fn count(&self) -> usize {
        self.bits.len()
    }

    fn bit(&self, row: usize, place: u32) -> bool {
        bit_of(self.bits.as_slice()[row].as_slice(), place)
    }
}

impl RowSource for PackedRows {
    ghost rows = { λ packed. packed.rows };

    fn count(&self) -> usize {
        self.len()
    }

    fn bit(&self, row: usize, place: u32) -> bool {
        self.bit_of(row, place as usize)
    }
}
