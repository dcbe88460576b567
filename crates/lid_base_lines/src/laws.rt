//! What is known of texts made of lines of words. Each function here does nothing; its contract is
//! a law.

ghost use Rattle.lid_base_lines.specs.Laws.{LinesAreReadBack, NumbersAreReadBack, ReadLinesAreSpelled};

/// A text of lines whose words are spelled is read as these lines, numbered from 1, and has no
/// fault. A word is spelled where it has 1 to `longest` bytes, all of them from 33 to 126 and none a
/// `#`, and does not end in `\`.
pub fn lines_are_read_back()
    ensures { LinesAreReadBack }
{}

/// A number below 2^64 is spelled by its decimal digits, and they are read as that number.
pub fn numbers_are_read_back()
    ensures { NumbersAreReadBack }
{}

/// The words of a text without fault are spelled, so that what was read can be written again.
pub fn read_lines_are_spelled()
    ensures { ReadLinesAreSpelled }
{}
