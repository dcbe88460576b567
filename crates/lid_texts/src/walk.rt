//! The reading of rows, one physical line after another.

ghost use Rattle.std.specs.Prelude.{◌≡◌, ◌+◌, ◌≤◌, ◌<◌, ◌^◌, ◌++◌, ◌∷◌, ◌⊎◌, ℕ, List, [], true, None, is_some, length, OnOk, OnErr};
ghost use Rattle.lid_texts.specs.Rows.{RowsLine, row_bits};
ghost use Rattle.lid_texts.specs.Scans.{logical_of};
ghost use Rattle.lid_texts.specs.RowsWalk.{if_logical, with_last, no_line, RowsGrow, AreSound, AreJudged, WalkGoes, IsWalked, judged_count};

use crate::line::{BegunLine, line_fault, row_bits};
use crate::rows::VecFault;
use lid_base::{Items, Name, goes_on};
use std::alloc::{AllocError, Global};
use std::mem;

/// What is known of the physical lines so far: how many there are, how many logical lines were judged, the logical line that was begun, and the fault of the first that is at fault. After
/// a fault no further line is looked at.
#[derive(Drop)]
pub(crate) struct RowWalk {
    pub(crate) number: u64,
    pub(crate) judged: u32,
    pub(crate) begun: BegunLine,
    pub(crate) fault: Option<VecFault>,
}

/// Appends the row of a line; the first line has none.
fn push_row(
    alloc: Global,
    columns: &[Name],
    judged: u32,
    line: &BegunLine,
    into: &mut Vec<Items<bool>>,
) -> Result<(), AllocError>
    ensures first { judged ≡ 0 → into.new.items ≡ into.old.items }
    ensures row { 0 < judged → OnOk result (into.new.items ≡ into.old.items ++ row_bits columns.now line.now ∷ []) }
    ensures kept { OnErr result (into.new.items ≡ into.old.items) }
{
    if judged == 0 {
        return Ok(());
    }
    into.push(row_bits(alloc, columns, line)?)?;
    Ok(())
}

impl RowWalk {
    /// Before the first line.
    pub(crate) fn new(alloc: Global) -> RowWalk
        ensures { result ≡ record { number = 0; judged = 0; begun = no_line; fault = None } }
    {
        RowWalk {
            number: 0,
            judged: 0,
            begun: BegunLine::new(alloc),
            fault: None,
        }
    }

    /// Judges a line that has ended, and appends its row or keeps its fault.
    fn judge(
        &mut self,
        alloc: Global,
        columns: &[Name],
        outs: u32,
        line: &BegunLine,
        into: &mut Vec<Items<bool>>,
    ) -> Result<(), AllocError>
        ensures judged { (lines : List RowsLine) → AreSound columns.now outs lines self.old
            → OnOk result (AreJudged columns.now outs line.now.number (lines ++ if_logical line.now) self.new) }
        ensures rows { (lines : List RowsLine) → AreSound columns.now outs lines self.old
            → OnOk result (RowsGrow columns.now outs lines (lines ++ if_logical line.now) into.old.items into.new.items) }
        ensures kept { OnErr result (into.new.items ≡ into.old.items) }
        ensures refused { (is_some self.new.fault ≡ true) ⊎ (self.new.judged ≡ 0) → into.new.items ≡ into.old.items }
        ensures number { self.new.number ≡ self.old.number }
        ensures begun { self.new.begun ≡ self.old.begun }
    {
        if !line.has_words() {
            return Ok(());
        }
        self.fault = line_fault(columns, outs, self.judged, line);
        if self.fault.is_some() {
            return Ok(());
        }
        push_row(alloc, columns, self.judged, line, into)?;
        self.judged = self.judged.saturating_add(1);
        Ok(())
    }

    /// Ends the line that was begun.
    fn end_line(
        &mut self,
        alloc: Global,
        columns: &[Name],
        outs: u32,
        into: &mut Vec<Items<bool>>,
    ) -> Result<(), AllocError>
        ensures judged { (lines : List RowsLine) → AreSound columns.now outs lines self.old
            → OnOk result (AreJudged columns.now outs self.old.begun.number (lines ++ if_logical self.old.begun) self.new) }
        ensures rows { (lines : List RowsLine) → AreSound columns.now outs lines self.old
            → OnOk result (RowsGrow columns.now outs lines (lines ++ if_logical self.old.begun) into.old.items into.new.items) }
        ensures kept { OnErr result (into.new.items ≡ into.old.items) }
        ensures refused { (is_some self.new.fault ≡ true) ⊎ (self.new.judged ≡ 0) → into.new.items ≡ into.old.items }
        ensures number { self.new.number ≡ self.old.number }
        ensures begun { self.new.begun ≡ no_line }
    {
        let line = mem::replace(&mut self.begun, BegunLine::new(alloc));
        self.judge(alloc, columns, outs, &line, into)
    }

    /// Takes the next physical line, and appends the row that ends with it.
    pub(crate) fn take_line(
        &mut self,
        alloc: Global,
        columns: &[Name],
        outs: u32,
        line: &[u8],
        into: &mut Vec<Items<bool>>,
    ) -> Result<(), AllocError>
        ensures walked { (lines : List (List ℕ)) → length lines + 1 < 2 ^ 64 → WalkGoes columns.now outs lines self.old
            → OnOk result (IsWalked columns.now outs (lines ++ line.now ∷ []) self.new) }
        ensures rows { (lines : List (List ℕ)) → length lines + 1 < 2 ^ 64 → WalkGoes columns.now outs lines self.old
            → OnOk result (RowsGrow columns.now outs (logical_of lines) (logical_of (lines ++ line.now ∷ [])) into.old.items into.new.items) }
        ensures kept { OnErr result (into.new.items ≡ into.old.items) }
    {
        self.number = self.number.saturating_add(1);
        self.begun.add(alloc, self.number, line)?;
        if goes_on(line) {
            return Ok(());
        }
        self.end_line(alloc, columns, outs, into)
    }

    /// Takes the last physical line, with which its logical line ends, and appends its row.
    pub(crate) fn take_last(
        &mut self,
        alloc: Global,
        columns: &[Name],
        outs: u32,
        line: &[u8],
        into: &mut Vec<Items<bool>>,
    ) -> Result<(), AllocError>
        ensures judged { (lines : List (List ℕ)) → length lines + 1 < 2 ^ 64 → WalkGoes columns.now outs lines self.old
            → OnOk result (AreJudged columns.now outs (length lines + 1) (with_last lines line.now) self.new) }
        ensures rows { (lines : List (List ℕ)) → length lines + 1 < 2 ^ 64 → WalkGoes columns.now outs lines self.old
            → OnOk result (RowsGrow columns.now outs (logical_of lines) (with_last lines line.now) into.old.items into.new.items) }
        ensures kept { OnErr result (into.new.items ≡ into.old.items) }
        ensures refused { (is_some self.new.fault ≡ true) ⊎ (self.new.judged ≡ 0) → into.new.items ≡ into.old.items }
    {
        self.number = self.number.saturating_add(1);
        self.begun.add(alloc, self.number, line)?;
        self.end_line(alloc, columns, outs, into)
    }

    /// How many rows there are at the end of the text, or the fault of the first line that has one.
    pub(crate) fn count(&self) -> Result<u64, VecFault>
        ensures { result ≡ judged_count self.now.fault self.now.judged }
    {
        if let Some(fault) = self.fault {
            return Err(fault);
        }
        if self.judged == 0 {
            return Err(VecFault::Header);
        }
        Ok(u64::from(self.judged) - 1)
    }
}
