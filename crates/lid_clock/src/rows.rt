//! The rows that the source takes and the sink makes.

ghost use Rattle.std.specs.Prelude.{◌≡◌, true, false, length, Option, None, option_map, if◌then◌else◌};
ghost use Rattle.lid_clock.specs.Parts.{row_of};
ghost use Rattle.lid_clock.specs.Cycles.{CanTake, TakesRow};

use crate::actor::ClockActor;
use crate::part::Role;

impl Role {
    /// Takes a row, where this is the source.
    fn take_row(&mut self, row: &[bool])
        requires { CanTake self.old (length row.now) }
        ensures { TakesRow self.old row.now self.new }
    {
        match self {
            Role::Source(_, line) => line.as_mut_slice().copy_from_slice(row),
            Role::Shell(_) | Role::Mover | Role::Sink(_, _) => {}
        }
    }

    /// The row that was made last, where this is the sink.
    fn row(&self) -> Option<&[bool]>
        ensures { option_map (λ row. row.now) result ≡ row_of self.now }
    {
        match self {
            Role::Sink(_, row) => Some(row.as_slice()),
            Role::Source(_, _) | Role::Shell(_) | Role::Mover => None,
        }
    }
}

impl ClockActor {
    /// Takes a row, where this is the source.
    pub fn receive(&mut self, row: &[bool])
        requires { CanTake self.old.part (length row.now) }
        ensures part { TakesRow self.old.part row.now self.new.part }
        ensures rest { self.new ≡ record self.old { part = self.new.part } }
    {
        self.part.take_row(row);
    }

    /// The row that was made in the last cycle, where this is the sink and fired in it.
    pub fn last(&self) -> Option<&[bool]>
        ensures { option_map (λ row. row.now) result ≡ (if self.now.went then row_of self.now.part else None) }
    {
        if self.went { self.part.row() } else { None }
    }
}
