//! The draws: a sequence of numbers that follows from a seed.

ghost use Rattle.std.specs.Prelude.{◌≡◌, ◌<◌, ◌%◌};
ghost use Rattle.lid_gen.specs.Draws.{first_state, moved, state_after};

/// All states are below this prime.
const MODULUS: u64 = 65537;

/// A sequence of draws. Its state is a number below 65,537, which each draw moves; what is drawn are the
/// remainders of the states.
#[derive(Clone, Copy)]
pub struct Draws {
    pub state: u32,
}

impl Draws {
    /// The draws of a seed.
    pub fn begin(seed: u64) -> Draws
        ensures { result.state ≡ first_state seed }
    {
        Draws {
            state: (seed % MODULUS) as u32,
        }
    }

    /// Moves to the next state, and answers one of the `n` numbers from 0 on.
    pub fn draw(&mut self, n: u32) -> u32
        requires { 0 < n }
        ensures state { self.new.state ≡ moved self.old.state }
        ensures value { result ≡ moved self.old.state % n }
    {
        let next = ((75 * u64::from(self.state) + 74) % MODULUS) as u32;
        let answer = next % n;
        self.state = next;
        answer
    }

    /// Makes so many draws and drops their answers.
    pub fn skip(&mut self, count: u32)
        ensures { self.new.state ≡ state_after count self.old.state }
    {
        for _ in 0..count {
            let _answer = self.draw(1);
        }
    }
}
