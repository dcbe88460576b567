/// The limits that a text, a design or a run may exceed.
#[derive(Clone, Copy, Debug, PartialEq, Eq)]
pub enum Which {
    /// The bytes of a text.
    FileBytes,
    /// The models of a BLIF text.
    Models,
    /// The cover rows of a BLIF text.
    CoverRows,
    /// The instances of the root.
    RootInsts,
    /// The longest chain of instances from the root.
    Depth,
    /// The elaborated cells.
    Cells,
    /// The columns of the elaborated design.
    Nets,
    /// The rows of a run.
    Rows,
    /// The rows times the output columns.
    OutBits,
    /// The words of a schedule.
    Words,
    /// The stations times the traced cycles.
    TraceCells,
}
