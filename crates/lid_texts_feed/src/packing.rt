//! A rows text that is read whole, with its rows packed.

ghost use Rattle.std.specs.Prelude.{◌≡◌, ◌++◌, ◌⊎◌, ℕ, List, [], Err, length, IfOk, IfErr, OnOk};
ghost use Rattle.std.specs.List.{AllByRecursion};
ghost use Rattle.lid_texts.specs.Rows.{rows_reading};
ghost use Rattle.lid_texts_feed.specs.Packing.{HasPacked, IsReadPacked};

use lid_base::{Items, Name};
use lid_texts::{RowScan, VecFault};
use lid_texts_packed::PackedRows;
use std::alloc::{AllocError, Global};

/// How many bytes are scanned at a time.
const PIECE: usize = 65_536;

/// A rows text that is scanned piece by piece, and its rows.
#[derive(Drop)]
struct Packing {
    scan: RowScan,
    /// The rows of a piece.
    given: Vec<Items<bool>>,
    packed: PackedRows,
}

/// Moves rows to those that are packed.
fn move_rows(given: &mut Vec<Items<bool>>, packed: &mut PackedRows) -> Result<(), AllocError>
    requires { AllByRecursion (λ row. length row ≡ packed.old.width) given.old.items }
    ensures { OnOk result ((given.new.items ≡ [])
        × (packed.new ≡ record { width = packed.old.width; rows = packed.old.rows ++ given.old.items })) }
{
    for row in given.as_slice() {
        packed.push(row.as_slice())?;
    }
    given.clear();
    Ok(())
}

impl Packing {
    /// A text of which no byte was scanned.
    ///
    /// # Errors
    /// Want of memory.
    fn start(alloc: Global, columns: &[Name], outs: u32) -> Result<Packing, AllocError>
        ensures { IfOk result (HasPacked columns.now outs []) }
    {
        let scan = RowScan::start(alloc, columns, outs)?;
        Ok(Packing {
            scan,
            given: Vec::new(alloc),
            packed: PackedRows::new(alloc, columns.len()),
        })
    }

    /// Scans a piece of the text.
    ///
    /// # Errors
    /// Want of memory.
    fn take(&mut self, piece: &[u8]) -> Result<(), AllocError>
        requires { (columns : List (List ℕ)) × (outs : ℕ) × (bytes : List ℕ) × HasPacked columns outs bytes self.old }
        ensures { (columns : List (List ℕ)) (outs : ℕ) (bytes : List ℕ) → HasPacked columns outs bytes self.old
            → OnOk result (HasPacked columns outs (bytes ++ piece.now) self.new) }
    {
        self.scan.feed(piece, &mut self.given)?;
        move_rows(&mut self.given, &mut self.packed)
    }

    /// Scans a text, piece by piece.
    ///
    /// # Errors
    /// Want of memory.
    fn take_all(&mut self, text: &[u8]) -> Result<(), AllocError>
        requires { (columns : List (List ℕ)) × (outs : ℕ) × HasPacked columns outs [] self.old }
        ensures { (columns : List (List ℕ)) (outs : ℕ) → HasPacked columns outs [] self.old → OnOk result (HasPacked columns outs text.now self.new) }
    {
        let mut at = 0;
        while at < text.len() {
            let end = at + PIECE.min(text.len() - at);
            self.take(&text[at..end])?;
            at = end;
        }
        Ok(())
    }

    /// Takes the end of the text, and answers its rows.
    ///
    /// # Errors
    /// Those of `read_rows`.
    fn finish(mut self) -> Result<PackedRows, VecFault>
        requires { (columns : List (List ℕ)) × (outs : ℕ) × (bytes : List ℕ) × HasPacked columns outs bytes self }
        ensures ok { (columns : List (List ℕ)) (outs : ℕ) (bytes : List ℕ) → HasPacked columns outs bytes self → IfOk result (IsReadPacked columns outs bytes) }
        ensures err { (columns : List (List ℕ)) (outs : ℕ) (bytes : List ℕ) → HasPacked columns outs bytes self
            → IfErr result (λ e. (e ≡ VecFault.Memory) ⊎ (rows_reading columns outs bytes ≡ Err e)) }
    {
        self.scan.finish(&mut self.given)?;
        let Ok(()) = move_rows(&mut self.given, &mut self.packed) else {
            return Err(VecFault::Memory);
        };
        let Packing { packed, .. } = self;
        Ok(packed)
    }
}

/// Reads the rows of a text as `lid_texts::read_rows` does, and holds them packed, 64 bits in a word.
///
/// # Errors
/// Those of `read_rows`.
pub fn read_packed(
    alloc: Global,
    text: &[u8],
    columns: &[Name],
    outs: u32,
) -> Result<PackedRows, VecFault>
    ensures ok { IfOk result (IsReadPacked columns.now outs text.now) }
    ensures err { IfErr result (λ e. (e ≡ VecFault.Memory) ⊎ (rows_reading columns.now outs text.now ≡ Err e)) }
{
    let Ok(mut packing) = Packing::start(alloc, columns, outs) else {
        return Err(VecFault::Memory);
    };
    let Ok(()) = packing.take_all(text) else {
        return Err(VecFault::Memory);
    };
    packing.finish()
}
