//! Steps that take, put and fire, and the end of a firing.

ghost use Rattle.std.specs.Prelude.{◌≡◌, ◌+◌, ◌==◌, ℕ, None};
ghost use Rattle.lid_walk_machine.specs.Setups.{plan};
ghost use Rattle.lid_shell_laws.specs.Setups.{Setup};
ghost use Rattle.lid_walk_machine.specs.Machine.{Progress};
ghost use Rattle.lid_shell.specs.declared.desk.Next.TheVariants.{Take, Put, Fire};
ghost use Rattle.lid_shell.specs.Steps.{made_end, Moves, NotesStep, NotesOne};
ghost use Rattle.lid_shell.specs.Inside.{IsToMake, CanMake, HasMade, IsGoing, IsAbout, IsAtEnd, CanClose, HasClosed, CanFinish, HasFinished, CanReady, HasTokensReady, CanGoAt, MakesNext, CanFire, Fires};

use crate::actor::Actor;
use crate::rules::actors_go_by_rules;
use lid_base::Answer;
use lid_station::Stations;

impl Actor<'_> {
    /// Makes the tokens that this firing puts. Those that it takes are taken.
    fn make(&mut self)
        requires { CanMake self.old }
        ensures made { (m : Setup) (v : ℕ) (q : Progress) → IsToMake m v q self.old → HasMade m v q self.new }
        ensures rest { self.new.desk ≡ record self.old.desk { tokens = self.new.desk.tokens } }
    {
        let fired = self.desk.fired;
        let taken = self.desk.taken.as_slice();
        self.part
            .pass(fired, taken, self.desk.tokens.as_mut_slice());
    }

    /// Where this is the first put of a firing, makes its tokens.
    fn make_ready(&mut self, j: usize)
        requires { CanReady j self.old }
        ensures ready { (m : Setup) (v : ℕ) (q : Progress) → IsGoing m v q self.old → IsAbout m v q (Put j) → HasTokensReady m v q self.new }
        ensures rest { self.new.desk ≡ record self.old.desk { tokens = self.new.desk.tokens } }
    {
        actors_go_by_rules();
        if j == 0 {
            self.make();
        }
    }

    /// At the end of a firing in which nothing is put, takes what was taken into account.
    fn close(&mut self)
        requires { CanClose self.old }
        ensures { (m : Setup) (v : ℕ) (q : Progress) → IsGoing m v q self.old → IsAtEnd m v q → HasClosed m v q self.new }
    {
        actors_go_by_rules();
        if self.desk.outs.is_empty() {
            self.make();
        }
    }

    /// Whether a firing is at its end; the actor has then fired, and is at rest.
    fn finish(&mut self) -> bool
        requires { CanFinish self.old }
        ensures { (m : Setup) (v : ℕ) (q : Progress) → IsGoing m v q self.old → HasFinished m v q result self.new }
    {
        if self.desk.position < self.desk.end() {
            return false;
        }
        self.close();
        self.desk.fired += 1;
        self.desk.position = 0;
        true
    }

    /// The step that takes from the station at place i of those that are drained.
    pub(crate) fn take<B: Stations>(&mut self, board: &mut B, i: usize) -> Answer
        requires { CanGoAt (Take i) self.old (B.ends board.old) (B.stands board.old) }
        ensures goes { MakesNext (Take i) self.old (B.ends board.old) (B.stands board.old) result self.new (B.ends board.new) (B.stands board.new) }
        ensures moves { Moves self.old.desk.ins.items self.old.desk.outs.items None (B.ends board.old) (B.ends board.new) }
        ensures notes { NotesOne self.old.desk.ins.items self.old.desk.outs.items (B.steps board.old) (B.steps board.new) }
        ensures once { NotesStep (made_end result) (B.steps board.old) (B.steps board.new) }
        ensures same { B.identity board.new ≡ B.identity board.old }
    {
        let station = self.desk.ins.as_slice()[i];
        let token = self.desk.take(board, i);
        let fired = self.finish();
        Answer::Took {
            station,
            token,
            fired,
        }
    }

    /// The step that puts in the station at place j of those that are filled.
    pub(crate) fn put<B: Stations>(&mut self, board: &mut B, j: usize) -> Answer
        requires { CanGoAt (Put j) self.old (B.ends board.old) (B.stands board.old) }
        ensures goes { MakesNext (Put j) self.old (B.ends board.old) (B.stands board.old) result self.new (B.ends board.new) (B.stands board.new) }
        ensures moves { Moves self.old.desk.ins.items self.old.desk.outs.items None (B.ends board.old) (B.ends board.new) }
        ensures notes { NotesOne self.old.desk.ins.items self.old.desk.outs.items (B.steps board.old) (B.steps board.new) }
        ensures once { NotesStep (made_end result) (B.steps board.old) (B.steps board.new) }
        ensures same { B.identity board.new ≡ B.identity board.old }
    {
        self.make_ready(j);
        let station = self.desk.outs.as_slice()[j];
        let token = self.desk.put(board, j);
        let fired = self.finish();
        Answer::Put {
            station,
            token,
            fired,
        }
    }

    /// The step of an actor without stations, which fires.
    pub(crate) fn fire(&mut self)
        requires { CanFire self.old }
        ensures { Fires self.old self.new }
    {
        self.finish();
    }
}
