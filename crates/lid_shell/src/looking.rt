//! Looks.

ghost use Rattle.std.specs.Prelude.{◌≡◌, ◌+◌, ℕ};
ghost use Rattle.lid_shell.specs.declared.desk.Next.TheVariants.{LookIn, LookOut};
ghost use Rattle.lid_shell.specs.Inside.{CanDo, Looks, LooksExactly};
ghost use Rattle.lid_shell.specs.Steps.{missed_end, made_end, Moves, NotesStep, NotesOne, MissesLate};

use crate::desk::Desk;
use lid_base::Answer;
use lid_station::{InLook, OutLook, Stations};

impl Desk {
    /// Looks for a token in the station at place i of those that are drained. Where there is none the actor goes back
    /// to the first position.
    pub(crate) fn look_in<B: Stations>(&mut self, board: &mut B, i: usize) -> Answer
        requires { CanDo (LookIn i) self.old (B.ends board.old) (B.stands board.old) }
        ensures looks { Looks (LookIn i) self.old (B.ends board.old) (B.stands board.old) result self.new (B.ends board.new) (B.stands board.new) }
        ensures exact { LooksExactly (LookIn i) self.old (B.ends board.old) (B.stands board.old) result }
        ensures moves { Moves self.old.ins.items self.old.outs.items (missed_end result) (B.ends board.old) (B.ends board.new) }
        ensures notes { NotesOne self.old.ins.items self.old.outs.items (B.steps board.old) (B.steps board.new) }
        ensures once { NotesStep (made_end result) (B.steps board.old) (B.steps board.new) }
        ensures late { MissesLate (B.ends board.old) result }
        ensures same { B.identity board.new ≡ B.identity board.old }
    {
        let station = self.ins.as_slice()[i];
        match board.look_in(station) {
            InLook::Token(token) => {
                self.position += 1;
                Answer::Token { station, token }
            }
            InLook::Void(word) => {
                self.position = 0;
                Answer::Void { station, word }
            }
        }
    }

    /// Looks for room in the station at place j of those that are filled. Where there is none the actor goes back to
    /// the first position.
    pub(crate) fn look_out<B: Stations>(&mut self, board: &mut B, j: usize) -> Answer
        requires { CanDo (LookOut j) self.old (B.ends board.old) (B.stands board.old) }
        ensures looks { Looks (LookOut j) self.old (B.ends board.old) (B.stands board.old) result self.new (B.ends board.new) (B.stands board.new) }
        ensures exact { LooksExactly (LookOut j) self.old (B.ends board.old) (B.stands board.old) result }
        ensures moves { Moves self.old.ins.items self.old.outs.items (missed_end result) (B.ends board.old) (B.ends board.new) }
        ensures notes { NotesOne self.old.ins.items self.old.outs.items (B.steps board.old) (B.steps board.new) }
        ensures once { NotesStep (made_end result) (B.steps board.old) (B.steps board.new) }
        ensures late { MissesLate (B.ends board.old) result }
        ensures same { B.identity board.new ≡ B.identity board.old }
    {
        let station = self.outs.as_slice()[j];
        match board.look_out(station) {
            OutLook::Room => {
                self.position += 1;
                Answer::Room { station }
            }
            OutLook::Stop(word) => {
                self.position = 0;
                Answer::Stop { station, word }
            }
        }
    }
}
