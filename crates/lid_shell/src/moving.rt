//! Takes and puts.

ghost use Rattle.std.specs.Prelude.{◌≡◌, ◌<◌, ◌+◌, ℕ, Some, None, length, slice_index_or, slice_set};
ghost use Rattle.lid_station.specs.Boards.{drain, fill};
ghost use Rattle.lid_walk_machine.specs.Setups.{plan};
ghost use Rattle.lid_shell_laws.specs.Setups.{Setup};
ghost use Rattle.lid_walk_machine.specs.Machine.{Progress};
ghost use Rattle.lid_shell.specs.declared.desk.Next.TheVariants.{Take, Put};
ghost use Rattle.lid_shell.specs.Inside.{CanDo, CanPut, AreMade, IsAbout, IsBusyAtBoard, HasTaken, HasPut};
ghost use Rattle.lid_shell.specs.Steps.{Moves, NotesStep, NotesOne};

use crate::desk::Desk;
use crate::rules::actors_go_by_rules;
use lid_station::Stations;

impl Desk {
    /// Keeps the token that was taken at place i.
    fn keep(&mut self, i: usize, token: u32)
        requires { i < length self.old.taken.items }
        ensures taken { self.new.taken.items ≡ slice_set self.old.taken.items i token }
        ensures rest { self.new ≡ record self.old { taken = self.new.taken } }
    {
        self.taken.as_mut_slice()[i] = token;
    }

    /// Takes the token that was seen at place i of the stations that are drained.
    pub(crate) fn take<B: Stations>(&mut self, board: &mut B, i: usize) -> u32
        requires { CanDo (Take i) self.old (B.ends board.old) (B.stands board.old) }
        ensures takes { (m : Setup) (v : ℕ) (q : Progress) → IsBusyAtBoard m v q self.old (B.ends board.old) (B.stands board.old)
            → IsAbout m v q (Take i) → HasTaken m v q i result self.new (B.ends board.new) (B.stands board.new) }
        ensures moves { Moves self.old.ins.items self.old.outs.items None (B.ends board.old) (B.ends board.new) }
        ensures notes { NotesOne self.old.ins.items self.old.outs.items (B.steps board.old) (B.steps board.new) }
        ensures once { NotesStep (Some (drain (slice_index_or self.old.ins.items i 0))) (B.steps board.old) (B.steps board.new) }
        ensures same { B.identity board.new ≡ B.identity board.old }
    {
        let token = board.take(self.ins.as_slice()[i]);
        self.keep(i, token);
        self.position += 1;
        token
    }

    /// Puts the token of this firing into the room that was seen at place j of the stations that are filled.
    pub(crate) fn put<B: Stations>(&mut self, board: &mut B, j: usize) -> u32
        requires { CanPut j self.old (B.ends board.old) (B.stands board.old) }
        ensures puts { (m : Setup) (v : ℕ) (q : Progress) → IsBusyAtBoard m v q self.old (B.ends board.old) (B.stands board.old)
            → IsAbout m v q (Put j) → AreMade m v q.fired self.old.tokens.items
            → HasPut m v q j result self.new (B.ends board.new) (B.stands board.new) }
        ensures moves { Moves self.old.ins.items self.old.outs.items None (B.ends board.old) (B.ends board.new) }
        ensures notes { NotesOne self.old.ins.items self.old.outs.items (B.steps board.old) (B.steps board.new) }
        ensures once { NotesStep (Some (fill (slice_index_or self.old.outs.items j 0))) (B.steps board.old) (B.steps board.new) }
        ensures same { B.identity board.new ≡ B.identity board.old }
    {
        actors_go_by_rules();
        let token = self.tokens.as_slice()[j];
        board.put(self.outs.as_slice()[j], token);
        self.position += 1;
        token
    }
}
