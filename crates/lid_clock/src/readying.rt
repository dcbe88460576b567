//! How actors are readied: they get room for tokens, and show those of the first row.

ghost use Rattle.std.specs.Prelude.{◌≡◌, ℕ, true, length, Some, slice_get, OnOk};
ghost use Rattle.lid_clock.specs.declared.actor.ClockActor.{ClockActor};
ghost use Rattle.lid_clock.specs.Parts.{IsOfSize};
ghost use Rattle.lid_clock.specs.Starts.{ShowsFirstTokens, IsSized, IsReadied, AreReadied};

use crate::actor::ClockActor;
use crate::part::Role;
use std::alloc::{AllocError, Global};

impl Role {
    /// Writes the tokens that it shows.
    fn show(&mut self, into: &mut [u32])
        requires { (ins : ℕ) × IsOfSize self.old ins (length into.old) }
        ensures many { length into.new ≡ length into.old }
        ensures kept { self.new ≡ self.old }
        ensures shows { ShowsFirstTokens self.old into.new }
    {
        match self {
            Role::Source(node, row) => node.put(row, into),
            Role::Shell(node) => node.show(into),
            Role::Mover | Role::Sink(_, _) => {}
        }
    }
}

impl ClockActor {
    /// Makes room for the tokens that it takes and puts.
    fn make_room(&mut self, alloc: Global) -> Result<(), AllocError>
        ensures taken { OnOk result (length self.new.taken.items ≡ length self.old.ins.items) }
        ensures tokens { OnOk result (length self.new.tokens.items ≡ length self.old.outs.items) }
        ensures rest { OnOk result (self.new ≡ record self.old { taken = self.new.taken; tokens = self.new.tokens }) }
    {
        self.taken = Vec::from_elem(alloc, 0u32, self.ins.len())?;
        self.tokens = Vec::from_elem(alloc, 0u32, self.outs.len())?;
        Ok(())
    }

    /// Makes room for tokens, and where there are rows shows those of the first one.
    fn make_ready(&mut self, alloc: Global, some: bool) -> Result<(), AllocError>
        requires { IsSized self.old }
        ensures { OnOk result (IsReadied some self.old self.new) }
    {
        self.make_room(alloc)?;
        if some {
            self.part.show(self.tokens.as_mut_slice());
        }
        Ok(())
    }
}

/// Makes all actors ready.
pub(crate) fn make_all_ready(
    alloc: Global,
    actors: &mut [ClockActor],
    some: bool,
) -> Result<(), AllocError>
    requires { (v : ℕ) (a : ClockActor) → slice_get actors.old v ≡ Some a → IsSized a }
    ensures { OnOk result (AreReadied some actors.old actors.new) }
{
    for v in 0..actors.len() {
        actors[v].make_ready(alloc, some)?;
    }
    Ok(())
}
