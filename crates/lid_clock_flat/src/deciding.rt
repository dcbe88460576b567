//! The first half of a cycle: the actors that are awake decide.

ghost use Rattle.std.specs.Prelude.{◌≡◌, ◌<◌, ◌+◌, ℕ, length};
ghost use Rattle.lid_clock.specs.Lives.{Life, Holds};
ghost use Rattle.lid_clock.specs.Cycles.{held_at};
ghost use Rattle.lid_clock.specs.States.{actors_of};
ghost use Rattle.lid_clock_flat.specs.Wakings.{DecidedTo, KeepsRows};

use crate::flags::next_set;
use crate::node::decide_node;
use crate::run::FlatRun;
use lid_clock::runs_go_by_rules;

/// Whether an actor is held, where the source and the sink may be.
fn is_held(sunk: usize, source: bool, sink: bool, actor: usize) -> bool
    ensures { result ≡ held_at sunk source sink actor }
{
    if actor == 0 {
        source
    } else if actor == sunk {
        sink
    } else {
        false
    }
}

impl FlatRun {
    /// A node decides. It sleeps where it is barred.
    fn decide_at_node(&mut self, node: usize, source: bool, sink: bool)
        requires { (l : Life) × (k : ℕ) × (g : ℕ) × Holds l k source sink × DecidedTo l k g node self.old × (node < length self.old.nodes.items) }
        ensures is { (l : Life) (k g : ℕ) → Holds l k source sink → DecidedTo l k g node self.old → DecidedTo l k g (node + 1) self.new }
        ensures kept { KeepsRows self.old self.new }
    {
        let held = is_held(self.nodes.len() - 1, source, sink, node);
        let went = decide_node(&mut self.nodes[node], &mut self.stations, held);
        let stays = went || held;
        self.went[node] = went;
        self.awake[node] = stays;
    }

    /// A mover decides, which has this number among the movers. It sleeps where it is barred.
    fn decide_at_mover(&mut self, mover: usize, source: bool, sink: bool)
        requires { (l : Life) × (k : ℕ) × (g : ℕ) × Holds l k source sink × DecidedTo l k g (length self.old.nodes.items + mover) self.old
            × (mover < length self.old.movers.items) }
        ensures is { (l : Life) (k g : ℕ) → Holds l k source sink → DecidedTo l k g (length self.old.nodes.items + mover) self.old
            → DecidedTo l k g (length self.old.nodes.items + mover + 1) self.new }
        ensures kept { KeepsRows self.old self.new }
    {
        let actor = self.nodes.len() + mover;
        let went = self.movers[mover].decide(&mut self.stations);
        self.went[actor] = went;
        self.awake[actor] = went;
    }

    /// All actors that are awake decide.
    pub(crate) fn decide_all(&mut self, source: bool, sink: bool)
        requires { (l : Life) × (k : ℕ) × (g : ℕ) × Holds l k source sink × DecidedTo l k g 0 self.old }
        ensures is { (l : Life) (k g : ℕ) → Holds l k source sink → DecidedTo l k g 0 self.old → DecidedTo l k g (actors_of l) self.new }
        ensures kept { KeepsRows self.old self.new }
    {
        runs_go_by_rules();
        let nodes = self.nodes.len();
        let mut actor = next_set(self.awake.as_slice(), 0);
        while actor < self.awake.len() {
            if actor < nodes {
                self.decide_at_node(actor, source, sink);
            } else {
                self.decide_at_mover(actor - nodes, source, sink);
            }
            actor = next_set(self.awake.as_slice(), actor + 1);
        }
    }
}
