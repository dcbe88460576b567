//! Telling a run line by line.

ghost use Rattle.std.specs.Prelude.{◌≡◌, ◌≤◌, [], IfOk, OnOk, OnErr, IfErr};
ghost use Rattle.lid_base.specs.Outside.{Rose};
ghost use Rattle.lid_clock.specs.Ran.{lent};
ghost use Rattle.lid_base_lines.specs.Texts.{line_text};
ghost use Rattle.lid_texts.specs.Rows.{header_words};
ghost use Rattle.lid_texts.specs.RowsText.{row_text};
ghost use Rattle.lid_top_clock.specs.Pushing.{Adds, Breaks, BreaksAtEnd, Closes, IsTellCause, UnlessWrite, last_text};

use crate::fault::RunFault;
use lid_base::{Name, Sink};
use lid_base_io::PieceWriter;
use lid_texts::{append_header, append_row};
use std::alloc::{AllocError, Global};

/// A text on its way to an output, and the lines that are pushed next.
#[derive(Drop)]
pub(crate) struct Telling {
    pub(crate) line: Vec<u8>,
    writer: PieceWriter,
}

impl Telling {
    /// Nothing was told.
    ///
    /// # Errors
    /// Want of memory.
    pub(crate) fn start(alloc: Global) -> Result<Telling, AllocError>
        ensures held { IfOk result (λ telling. telling.writer ≡ []) }
        ensures line { IfOk result (λ telling. telling.line.items ≡ []) }
    {
        let writer = PieceWriter::start(alloc)?;
        Ok(Telling {
            line: Vec::new(alloc),
            writer,
        })
    }

    /// Pushes the lines that were made, and clears them.
    fn push<O: Sink>(&mut self, out: &mut O) -> Result<(), RunFault>
        ensures ok { OnOk result (Adds O.written O.pieces out.old out.new self.old.writer self.new.writer self.old.line.items) }
        ensures none { OnOk result (self.new.line.items ≡ []) }
        ensures err { OnErr result (Breaks O.written O.pieces out.old out.new self.old.writer self.old.line.items) }
        ensures cause { IfErr result (IsTellCause (Rose (O.faults out.old) (O.faults out.new))) }
        ensures still { OnOk result (O.faults out.new ≡ O.faults out.old) }
        ensures wanting { IfErr result (UnlessWrite (O.faults out.new ≡ O.faults out.old)) }
        ensures grows { O.faults out.old ≤ O.faults out.new }
    {
        let Ok(()) = self.writer.push(out, self.line.as_slice()) else {
            return Err(RunFault::Write);
        };
        self.line.clear();
        Ok(())
    }

    /// Pushes the lines that were made, and writes all that is held.
    pub(crate) fn finish<O: Sink>(&mut self, out: &mut O) -> Result<(), RunFault>
        ensures ok { OnOk result (Closes O.written O.pieces out.old out.new self.old.writer self.old.line.items) }
        ensures err { OnErr result (BreaksAtEnd O.written O.pieces out.old out.new self.old.writer self.old.line.items) }
        ensures cause { IfErr result (IsTellCause (Rose (O.faults out.old) (O.faults out.new))) }
        ensures still { OnOk result (O.faults out.new ≡ O.faults out.old) }
        ensures wanting { IfErr result (UnlessWrite (O.faults out.new ≡ O.faults out.old)) }
        ensures grows { O.faults out.old ≤ O.faults out.new }
    {
        if let Err(fault) = self.push(out) {
            return Err(fault);
        }
        let Ok(()) = self.writer.finish(out) else {
            return Err(RunFault::Write);
        };
        Ok(())
    }

    /// Pushes the header line.
    pub(crate) fn tell_header<O: Sink>(
        &mut self,
        columns: &[Name],
        out: &mut O,
    ) -> Result<(), RunFault>
        requires { self.old.line.items ≡ [] }
        ensures ok { OnOk result (Adds O.written O.pieces out.old out.new self.old.writer self.new.writer (line_text (header_words columns.now))) }
        ensures none { OnOk result (self.new.line.items ≡ []) }
        ensures err { OnErr result (Breaks O.written O.pieces out.old out.new self.old.writer (line_text (header_words columns.now))) }
        ensures cause { IfErr result (IsTellCause (Rose (O.faults out.old) (O.faults out.new))) }
        ensures still { OnOk result (O.faults out.new ≡ O.faults out.old) }
        ensures wanting { IfErr result (UnlessWrite (O.faults out.new ≡ O.faults out.old)) }
        ensures grows { O.faults out.old ≤ O.faults out.new }
    {
        let Ok(()) = append_header(columns, &mut self.line) else {
            return Err(RunFault::Memory);
        };
        self.push(out)
    }

    /// Pushes the line of an output row, where there is one.
    pub(crate) fn tell_last<O: Sink>(
        &mut self,
        last: Option<&[bool]>,
        columns: &[Name],
        out: &mut O,
    ) -> Result<(), RunFault>
        requires { self.old.line.items ≡ [] }
        ensures ok { OnOk result (Adds O.written O.pieces out.old out.new self.old.writer self.new.writer (last_text columns.now (lent last.entry))) }
        ensures none { OnOk result (self.new.line.items ≡ []) }
        ensures err { OnErr result (Breaks O.written O.pieces out.old out.new self.old.writer (last_text columns.now (lent last.entry))) }
        ensures cause { IfErr result (IsTellCause (Rose (O.faults out.old) (O.faults out.new))) }
        ensures still { OnOk result (O.faults out.new ≡ O.faults out.old) }
        ensures wanting { IfErr result (UnlessWrite (O.faults out.new ≡ O.faults out.old)) }
        ensures grows { O.faults out.old ≤ O.faults out.new }
    {
        match last {
            None => Ok(()),
            Some(row) => self.tell_row(columns, row, out),
        }
    }

    /// Pushes the line of an output row.
    fn tell_row<O: Sink>(
        &mut self,
        columns: &[Name],
        row: &[bool],
        out: &mut O,
    ) -> Result<(), RunFault>
        requires { self.old.line.items ≡ [] }
        ensures ok { OnOk result (Adds O.written O.pieces out.old out.new self.old.writer self.new.writer (row_text columns.now row.now)) }
        ensures none { OnOk result (self.new.line.items ≡ []) }
        ensures err { OnErr result (Breaks O.written O.pieces out.old out.new self.old.writer (row_text columns.now row.now)) }
        ensures cause { IfErr result (IsTellCause (Rose (O.faults out.old) (O.faults out.new))) }
        ensures still { OnOk result (O.faults out.new ≡ O.faults out.old) }
        ensures wanting { IfErr result (UnlessWrite (O.faults out.new ≡ O.faults out.old)) }
        ensures grows { O.faults out.old ≤ O.faults out.new }
    {
        let Ok(()) = append_row(columns, row, &mut self.line) else {
            return Err(RunFault::Memory);
        };
        self.push(out)
    }
}
