//! What is known of dumps. Each function here does nothing; its contract is a law.

ghost use Rattle.lid_vcd.specs.Laws.{WrittenAreWaves, HaveOneTrace, WrittenAreRead, WordsGoOn, RefusalsStay, ReadAreWaves};

/// The text that is written of a trace is a dump that shows this trace.
pub fn written_dumps_are_waves()
    ensures { WrittenAreWaves }
{}

/// A text shows at most one trace.
pub fn dumps_have_one_trace()
    ensures { HaveOneTrace }
{}

/// The text that is written of a trace is within the limits, so that reading it gives the trace, or
/// want of memory.
pub fn written_dumps_are_read()
    ensures { WrittenAreRead }
{}

/// A text none of whose words is refused goes on, after a blank, to one of the form, so that no word is
/// refused late.
pub fn words_go_on()
    ensures { WordsGoOn }
{}

/// No text of the form goes on by a word that is refused, so that no word is refused early; its line is
/// told whatever follows.
pub fn refusals_stay()
    ensures { RefusalsStay }
{}

/// A trace that is read of a text is the one that the text shows.
pub fn read_dumps_are_waves()
    ensures { ReadAreWaves }
{}
