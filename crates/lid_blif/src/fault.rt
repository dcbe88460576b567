use lid_base::{TextFault, Which};

/// Why a text stands for no design. `line` is the number of a logical line: that of its first
/// physical line, counted from 1.
#[derive(Clone, Copy)]
pub enum BlifFault {
    /// The text has no logical lines: a bad byte, or a word of more than 1,024 bytes. The inner fault
    /// is never `Memory`.
    Text(TextFault),
    /// A line outside a model that is not `.model`; line 0 for a text without logical lines.
    NoModel { line: u32 },
    /// A word that begins with a dot and is not known.
    Unsupported { line: u32 },
    /// `.model` without exactly one name, `.names` or `.subckt` without a word, or `.latch` with fewer
    /// than two words or more than five.
    Arity { line: u32 },
    /// A row that follows no `.names`.
    RowOutside { line: u32 },
    /// A row that is not one character out of `0`, `1` and `-` for each input, and an output `0` or `1`.
    RowShape { line: u32 },
    /// A row whose output differs from that of an earlier row of its cover.
    MixedRows { line: u32 },
    /// The type of a latch is not `re` or `fe`.
    LatchType { line: u32 },
    /// The initial value of a latch is not `0`, `1`, `2` or `3`.
    LatchInit { line: u32 },
    /// A binding without `=`, or with an empty formal or actual.
    BindShape { line: u32 },
    /// A `.model` with the name of an earlier model.
    DuplicateModel { line: u32 },
    /// A cover with more than 64 inputs.
    TooManyInputs { line: u32 },
    /// The text has more than 16,777,216 bytes, 4,096 models or 1,048,576 cover rows.
    Limit { which: Which, count: u64 },
    /// There was no memory.
    Memory,
}
