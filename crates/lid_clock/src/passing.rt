//! What parts make of tokens.

ghost use Rattle.std.specs.Prelude.{◌≡◌, length};
ghost use Rattle.lid_clock.specs.Parts.{IsOfSize, Passes};

use crate::part::Role;

impl Role {
    /// Takes tokens, and makes those that are put.
    pub(crate) fn pass(&mut self, taken: &[u32], into: &mut [u32])
        requires { IsOfSize self.old (length taken.now) (length into.old) }
        ensures many { length into.new ≡ length into.old }
        ensures size { IsOfSize self.new (length taken.now) (length into.new) }
        ensures passes { Passes self.old taken.now into.new self.new }
    {
        match self {
            Role::Source(node, row) => node.put(row, into),
            Role::Shell(node) => node.fire(taken, into),
            Role::Mover => into[0] = taken[0],
            Role::Sink(node, row) => node.give(taken, row),
        }
    }
}
