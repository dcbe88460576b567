//! What parts make of tokens.

ghost use Rattle.std.specs.Prelude.{◌≡◌, ◌<◌, ℕ, [], length, slice_index_or};
ghost use Rattle.lid_design.specs.Network.{Table};
ghost use Rattle.lid_system.specs.declared.System.{System};
ghost use Rattle.lid_system.specs.Systems.{Point, IsWellFormed};
ghost use Rattle.lid_system.specs.Tables.{IsTable};
ghost use Rattle.lid_shell_nodes.specs.Nodes.{tokens_from};
ghost use Rattle.lid_shell_nodes.specs.Wiring.{IsSourceOf};
ghost use Rattle.lid_texts_packed.specs.Input.{input_of};
ghost use Rattle.lid_walk_machine.specs.Setups.{plan};
ghost use Rattle.lid_shell_laws.specs.Setups.{Setup};
ghost use Rattle.lid_shell.specs.Inside.{CanPass, IsPassing, HasPassed, CanReceive, Receives};

use crate::part::{Given, Input, Role};
use crate::rules::actors_go_by_rules;
use lid_base::Items;
use lid_shell_nodes::SinkNode;
use std::mem;

impl Input<'_> {
    /// Writes the tokens of a row, one for each channel that comes from the source.
    fn put(&mut self, row: usize, into: &mut [u32])
        requires there { row < length (input_of self.old.rows) }
        requires wide { length (slice_index_or (input_of self.old.rows) row []) ≡ self.old.node.width }
        requires room { length self.old.row.items ≡ self.old.node.width }
        requires many { length into.old ≡ length self.old.node.ports }
        ensures many { length into.new ≡ length into.old }
        ensures tokens { (s : System) (b : Table Point) → IsWellFormed s → IsSourceOf s self.old.node → IsTable s (input_of self.old.rows) b
            → into.new ≡ tokens_from s b 0 row }
        ensures node { self.new.node ≡ self.old.node }
        ensures rows { self.new.rows ≡ self.old.rows }
        ensures room { length self.new.row.items ≡ length self.old.row.items }
    {
        self.rows.read(row, self.row.as_mut_slice());
        self.node.put(self.row.as_slice(), into);
    }
}

impl Given {
    /// Gives the row of the tokens that are taken.
    fn receive(&mut self, node: &SinkNode, taken: &[u32])
        requires { CanReceive self.old node.now (length taken.now) }
        ensures { Receives self.old node.now taken.now self.new }
    {
        let none = Items::from_vec(Vec::new(self.alloc));
        let mut row = mem::replace(&mut self.rows[self.count], none).into_vec();
        node.give(taken, row.as_mut_slice());
        self.rows[self.count] = Items::from_vec(row);
        self.count += 1;
    }
}

impl Role<'_> {
    /// Takes the tokens of a firing, of which there were so many before, and makes those that are put.
    pub(crate) fn pass(&mut self, fired: u64, taken: &[u32], into: &mut [u32])
        requires { CanPass fired taken.now (length into.old) self.old }
        ensures many { length into.new ≡ length into.old }
        ensures passes { (m : Setup) (v : ℕ) → IsPassing m v fired taken.now (length into.old) self.old → HasPassed m v fired into.new self.new }
    {
        actors_go_by_rules();
        match self {
            Role::Source(input) => input.put(fired as usize + 1, into),
            Role::Shell(node) => node.fire(taken, into),
            Role::Mover => into[0] = taken[0],
            Role::Sink(node, given) => given.receive(node, taken),
        }
    }
}
