/// What the first word of a logical line says.
#[derive(Clone, Copy, PartialEq, Eq)]
pub enum Keyword {
    /// `.model`
    Model,
    /// `.inputs`
    Inputs,
    /// `.outputs`
    Outputs,
    /// `.clock`
    Clock,
    /// `.names`
    Names,
    /// `.latch`
    Latch,
    /// `.subckt`
    Subckt,
    /// `.end`
    End,
    /// Any other word that begins with a dot.
    Unknown,
    /// A word that does not begin with a dot: the line is a row of a cover.
    Row,
}
