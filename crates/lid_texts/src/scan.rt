//! Rows texts that come in pieces.

ghost use Rattle.std.specs.Prelude.{◌≡◌, ◌+◌, ◌<◌, ◌^◌, ◌++◌, ◌∷◌, ◌⊎◌, ℕ, List, true, false, Err, [], length, is_some, is_ok, IfOk, OnOk, OnErr, IfErr};
ghost use Rattle.lid_texts.specs.Rows.{rows_reading};
ghost use Rattle.lid_texts.specs.Scans.{logical_of, ended_fault};
ghost use Rattle.lid_texts.specs.RowsWalk.{RowsGrow, WalkGoes, IsWalked};
ghost use Rattle.lid_texts.specs.Scanned.{HasRead, Gives, GivesPrefix, FinishesScan};

use crate::rows::VecFault;
use crate::walk::RowWalk;
use lid_base::{Items, Name, Which, copy_names, cut_line};
use std::alloc::{AllocError, Global};

/// The most bytes of a rows text.
pub(crate) const MOST_BYTES: u64 = 67_108_864;

/// Reads a rows text that comes in pieces, however it is cut. It holds the logical line that has not
/// ended, some counts, and the first fault.
#[derive(Drop)]
pub struct RowScan {
    alloc: Global,
    columns: Items<Name>,
    outs: u32,
    /// How many bytes were fed.
    total: u64,
    walk: RowWalk,
    /// The bytes after the last newline.
    partial: Vec<u8>,
    /// Whether there was no memory once.
    spent: bool,
}

impl RowScan {
    /// A scan of a text with these columns, where each row gives `outs` output bits.
    ///
    /// # Errors
    /// Want of memory.
    pub fn start(alloc: Global, columns: &[Name], outs: u32) -> Result<RowScan, AllocError>
        ensures read { IfOk result (λ scan. HasRead scan []) }
        ensures columns { IfOk result (λ scan. scan.columns ≡ columns.now) }
        ensures outs { IfOk result (λ scan. scan.outs ≡ outs) }
    {
        Ok(RowScan {
            alloc,
            columns: copy_names(alloc, columns)?,
            outs,
            total: 0,
            walk: RowWalk::new(alloc),
            partial: Vec::new(alloc),
            spent: false,
        })
    }

    /// Takes the next piece of the text, and appends the rows whose logical lines end in it, up to the
    /// first line that is at fault. All calls together take time in the length of all pieces: one that
    /// ends a line may go over what earlier ones held of it.
    ///
    /// # Errors
    /// Want of memory. Then the first of these rows were appended, and every later call of `feed` and
    /// `finish` answers want of memory.
    pub fn feed(&mut self, piece: &[u8], into: &mut Vec<Items<bool>>) -> Result<(), AllocError>
        ensures read { (bytes : List ℕ) → HasRead self.old bytes → OnOk result (HasRead self.new (bytes ++ piece.now)) }
        ensures rows { (bytes : List ℕ) → HasRead self.old bytes
            → OnOk result (Gives self.old.columns self.old.outs bytes (bytes ++ piece.now) into.old.items into.new.items) }
        ensures prefix { (bytes : List ℕ) → HasRead self.old bytes
            → OnErr result (GivesPrefix self.old.columns self.old.outs bytes (bytes ++ piece.now) into.old.items into.new.items) }
        ensures columns { self.new.columns ≡ self.old.columns }
        ensures outs { self.new.outs ≡ self.old.outs }
        ensures spent { OnErr result (self.new.spent ≡ true) }
        ensures still { self.old.spent ≡ true → is_ok result ≡ false }
    {
        if self.spent {
            return Err(AllocError);
        }
        self.spent = true;
        let Some(total) = self.total.checked_add(piece.len() as u64) else {
            return Err(AllocError);
        };
        self.total = total;
        let mut left = piece;
        while self.walk.fault.is_none() {
            let (line, after) = cut_line(left);
            let Some(rest) = after else {
                let kept = self.partial.extend_from_slice(line);
                self.spent = kept.is_err();
                return kept;
            };
            self.end_line(line, into)?;
            left = rest;
        }
        self.spent = false;
        Ok(())
    }

    /// Takes the rest of a physical line.
    fn end_line(&mut self, rest: &[u8], into: &mut Vec<Items<bool>>) -> Result<(), AllocError>
        ensures walked { (lines : List (List ℕ)) → length lines + 1 < 2 ^ 64 → WalkGoes self.old.columns self.old.outs lines self.old.walk
            → OnOk result (IsWalked self.old.columns self.old.outs (lines ++ (self.old.partial.items ++ rest.now) ∷ []) self.new.walk) }
        ensures rows { (lines : List (List ℕ)) → length lines + 1 < 2 ^ 64 → WalkGoes self.old.columns self.old.outs lines self.old.walk
            → OnOk result (RowsGrow self.old.columns self.old.outs (logical_of lines)
            (logical_of (lines ++ (self.old.partial.items ++ rest.now) ∷ [])) into.old.items into.new.items) }
        ensures kept { OnErr result (into.new.items ≡ into.old.items) }
        ensures partial { OnOk result (self.new.partial.items ≡ []) }
        ensures columns { self.new.columns ≡ self.old.columns }
        ensures outs { self.new.outs ≡ self.old.outs }
        ensures total { self.new.total ≡ self.old.total }
        ensures spent { self.new.spent ≡ self.old.spent }
    {
        let columns = self.columns.as_slice();
        if self.partial.as_slice().is_empty() {
            return self
                .walk
                .take_line(self.alloc, columns, self.outs, rest, into);
        }
        self.partial.extend_from_slice(rest)?;
        let line = self.partial.as_slice();
        self.walk
            .take_line(self.alloc, columns, self.outs, line, into)?;
        self.partial.clear();
        Ok(())
    }

    /// Whether one of the logical lines that have ended is at fault.
    pub fn failed(&self) -> bool
        ensures { (bytes : List ℕ) → HasRead self.now bytes → result ≡ is_some (ended_fault self.now.columns self.now.outs bytes) }
    {
        self.walk.fault.is_some()
    }

    /// Takes the end of the text, appends the last row where its line was not ended, and answers how
    /// many rows the text has. It is called once, and no piece comes after it.
    ///
    /// # Errors
    /// Those of `read_rows` for all that was fed.
    pub fn finish(&mut self, into: &mut Vec<Items<bool>>) -> Result<u64, VecFault>
        ensures ok { (bytes : List ℕ) → HasRead self.old bytes
            → IfOk result (FinishesScan self.old.columns self.old.outs bytes into.old.items into.new.items) }
        ensures err { (bytes : List ℕ) → HasRead self.old bytes
            → IfErr result (λ e. (e ≡ VecFault.Memory) ⊎ (rows_reading self.old.columns self.old.outs bytes ≡ Err e)) }
        ensures kept { OnErr result (into.new.items ≡ into.old.items) }
        ensures still { self.old.spent ≡ true → result ≡ Err VecFault.Memory }
    {
        if self.spent {
            return Err(VecFault::Memory);
        }
        if self.total > MOST_BYTES {
            return Err(VecFault::Limit {
                which: Which::FileBytes,
                count: self.total,
            });
        }
        if let Some(fault) = self.walk.fault {
            return Err(fault);
        }
        let columns = self.columns.as_slice();
        let last = self.partial.as_slice();
        let Ok(()) = self
            .walk
            .take_last(self.alloc, columns, self.outs, last, into)
        else {
            return Err(VecFault::Memory);
        };
        self.walk.count()
    }
}
