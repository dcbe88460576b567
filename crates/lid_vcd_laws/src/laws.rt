//! What the reading of a dump goes by, as a grammar of words. Each function here does nothing; its contract is a law for all
//! texts.

ghost use Rattle.lid_vcd_laws.specs.Laws.{DumpsShowTraces, RefusalsAreFirst};

/// A text is of the form and shows a trace, as its reading says word by word, exactly where it is a dump of it by the
/// grammar.
pub fn dumps_show_traces()
    ensures { DumpsShowTraces }
{}

/// The line that is told of a text that is not of the form is that of the first word by which no dump of the grammar goes
/// on; where the text ends too early, it is that of its last word.
pub fn refusals_are_first()
    ensures { RefusalsAreFirst }
{}
