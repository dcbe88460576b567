//! What the reading of a certificate's text goes by, as a grammar of lines. Each function here does nothing; its contract
//! is a law for all texts.

ghost use Rattle.lid_cert_text_laws.specs.Laws.{TextsAreRead, RefusalsAreFirst};

/// A text is read as a certificate exactly where its lines are those of that certificate by the grammar.
pub fn texts_are_read()
    ensures { TextsAreRead }
{}

/// The line that a refusal tells is the first by which no text of the grammar goes on; where the lines end too early, it
/// is the last of them.
pub fn refusals_are_first()
    ensures { RefusalsAreFirst }
{}
