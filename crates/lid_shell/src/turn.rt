//! How turns end.

ghost use Rattle.std.specs.Prelude.{◌≡◌};
ghost use Rattle.lid_shell.specs.Inside.{ending};

use lid_base::Answer;

/// How a turn of an actor ends.
#[derive(Clone, Copy, PartialEq, Eq)]
pub enum TurnEnd {
    /// It fired.
    Fired,
    /// A station that it drains held no token; the word has the place of the next one.
    Void { station: u32, word: u64 },
    /// A station that it fills held as many tokens as its capacity; the word has the place of the next one.
    Stop { station: u32, word: u64 },
    /// It is at its cap.
    Done,
}

/// How a turn ends in which a step answers this; none where the actor is then within a firing.
pub(crate) fn end_of(answer: Answer) -> Option<TurnEnd>
    ensures { result ≡ ending answer }
{
    match answer {
        Answer::Void { station, word } => Some(TurnEnd::Void { station, word }),
        Answer::Stop { station, word } => Some(TurnEnd::Stop { station, word }),
        Answer::Took { fired: true, .. } | Answer::Put { fired: true, .. } | Answer::Fired => {
            Some(TurnEnd::Fired)
        }
        Answer::Done => Some(TurnEnd::Done),
        Answer::Token { .. } | Answer::Room { .. } | Answer::Took { .. } | Answer::Put { .. } => {
            None
        }
    }
}
