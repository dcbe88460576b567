//! Laws of the bounds of wrapped designs. The functions here do nothing; their contracts are laws for all
//! designs and placements.

ghost use Rattle.lid_emit_laws.specs.Bounds.{WrappedDesignsAreSmall, WrappedDesignsHaveShortTexts};

/// A wrapped design of a size up to 16,384 has at most 262,144 cells, and its covers have at most 1,048,576
/// rows. Outside of shells there are at most 8 wires, and 5 for each unit of the size of ports and stations
/// and 2 for each pearl; each has one cell of at most 4 rows. A latch of a pearl has two cells with 2 rows,
/// and a cover that does not pass on its input has two with its rows. So 4 for each cell and 1 for each row
/// are at most 64 and 40 times the size.
pub fn wrapped_designs_are_small()
    ensures { WrappedDesignsAreSmall }
{}

/// Where its names are short, its canonical text has at most 16,777,216 bytes. Names of wires have at most 16
/// bytes, and 20 digits for each of their numbers, at most three; those of ports are counted by the size. So
/// the text has at most 940 bytes for each unit of the size, and some 2,000 more.
pub fn wrapped_designs_have_short_texts()
    ensures { WrappedDesignsHaveShortTexts }
{}
