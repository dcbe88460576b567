//! Walks: what actors answer to steps, over plain stations, and what sweeps give.

ghost use Rattle.std.specs.Prelude.{◌≡◌, ℕ};
ghost use Rattle.lid_system.specs.Systems.{IsWellFormed};
ghost use Rattle.lid_stations.specs.Placements.{links_of, Fits};
ghost use Rattle.lid_stations.specs.Stations.{actor_count};
ghost use Rattle.lid_walk.specs.Walks.{IsSetupWalk, IsAtRest};
ghost use Rattle.lid_tests_fixtures.specs.Runs.{IsFittingRun};
ghost use Rattle.lid_shell_tests.specs.Runs.{HasActors};

use lid_base::{Answer, Items};
use lid_stations::Placement;
use lid_system::{System, systems_have_one_table};
use lid_tests_fixtures::{ONE, RING, SampleRun, run_of};
use lid_walk::Walk;
use std::alloc::Global;

/// A shell that feeds itself, and turns its output about in each row. Its channels lead from node 1 to itself, and from
/// node 1 to node 2; node 0, the source, has none.
const SELF: &[u8] = b".model self\n.outputs y\n.subckt turn d=y q=y\n.end\n\
.model turn\n.inputs d\n.outputs q\n.names d n\n0 1\n.latch n q 0\n.end\n";

/// No relay stations.
const NONE: &[u8] = b"lid-stations 1\n";

/// Two relay stations between the one register and the sink.
const TWO: &[u8] = b"lid-stations 1\nu0 out 0 2\n";

/// What an actor answers: of which station, and the token or the word that is told; of a token that was taken or put,
/// whether this was the last step of a firing.
#[derive(Clone, Copy)]
enum Told {
    Token(u32, u32),
    Void(u32, u64),
    Room(u32),
    Stop(u32, u64),
    Took(u32, u32, bool),
    Put(u32, u32, bool),
    Fired,
    Done,
}

/// The answer that is told so.
fn answer_of(told: Told) -> Answer {
    match told {
        Told::Token(station, token) => Answer::Token { station, token },
        Told::Void(station, word) => Answer::Void { station, word },
        Told::Room(station) => Answer::Room { station },
        Told::Stop(station, word) => Answer::Stop { station, word },
        Told::Took(station, token, fired) => Answer::Took {
            station,
            token,
            fired,
        },
        Told::Put(station, token, fired) => Answer::Put {
            station,
            token,
            fired,
        },
        Told::Fired => Answer::Fired,
        Told::Done => Answer::Done,
    }
}

/// A step of an actor, by its number, and what it answers.
type Step = (u32, Told);

/// A run, and what its actors answer to steps from its start.
struct Case {
    net: &'static [u8],
    stations: &'static [u8],
    letters: &'static [u8],
    steps: &'static [Step],
}

static CASES: [Case; 6] = [
    Case {
        net: ONE,
        stations: NONE,
        letters: b"10",
        steps: &[
            (0, Told::Room(0)),
            (0, Told::Put(0, 0, true)),
            (0, Told::Done),
            (1, Told::Token(0, 1)),
            (1, Told::Room(1)),
            (1, Told::Took(0, 1, false)),
            (1, Told::Put(1, 1, true)),
            (1, Told::Done),
            (2, Told::Token(1, 0)),
            (2, Told::Took(1, 0, true)),
            (2, Told::Token(1, 1)),
            (2, Told::Took(1, 1, true)),
            (2, Told::Done),
        ],
    },
    Case {
        net: ONE,
        stations: TWO,
        letters: b"101",
        steps: &[
            (4, Told::Void(2, 0)),
            (3, Told::Token(1, 0)),
            (3, Told::Room(2)),
            (3, Told::Took(1, 0, false)),
            (3, Told::Put(2, 0, true)),
            (4, Told::Token(2, 0)),
            (4, Told::Room(3)),
            (4, Told::Took(2, 0, false)),
            (4, Told::Put(3, 0, true)),
            (2, Told::Token(3, 0)),
            (2, Told::Took(3, 0, true)),
            (2, Told::Void(3, 0)),
            (0, Told::Room(0)),
            (0, Told::Put(0, 0, true)),
            (0, Told::Stop(0, 0x8000_0000_8000_0001)),
        ],
    },
    Case {
        net: RING,
        stations: NONE,
        letters: b"0000",
        steps: &[
            (0, Told::Fired),
            (0, Told::Fired),
            (0, Told::Fired),
            (0, Told::Done),
            (1, Told::Token(1, 1)),
            (1, Told::Room(0)),
            (1, Told::Took(1, 1, false)),
            (1, Told::Put(0, 1, true)),
            (1, Told::Void(1, 0)),
            (2, Told::Token(0, 0)),
            (2, Told::Room(1)),
            (2, Told::Room(2)),
            (2, Told::Took(0, 0, false)),
            (2, Told::Put(1, 0, false)),
            (2, Told::Put(2, 0, true)),
            (2, Told::Token(0, 1)),
            (2, Told::Room(1)),
            (2, Told::Stop(2, 0x8000_0000_8000_0001)),
            (3, Told::Token(2, 1)),
            (3, Told::Took(2, 1, true)),
        ],
    },
    Case {
        net: SELF,
        stations: NONE,
        letters: b"0000",
        steps: &[
            (1, Told::Token(0, 0)),
            (1, Told::Room(0)),
            (1, Told::Room(1)),
            (1, Told::Took(0, 0, false)),
            (1, Told::Put(0, 1, false)),
            (1, Told::Put(1, 1, true)),
            (1, Told::Token(0, 1)),
            (1, Told::Room(0)),
            (1, Told::Stop(1, 0x8000_0001_8000_0000)),
            (2, Told::Token(1, 0)),
            (2, Told::Took(1, 0, true)),
        ],
    },
    Case {
        net: ONE,
        stations: TWO,
        letters: b"",
        steps: &[
            (0, Told::Done),
            (1, Told::Done),
            (2, Told::Done),
            (3, Told::Done),
            (4, Told::Done),
        ],
    },
    Case {
        net: RING,
        stations: NONE,
        letters: b"",
        steps: &[
            (0, Told::Done),
            (1, Told::Done),
            (2, Told::Done),
            (3, Told::Done),
        ],
    },
];

/// How many actors a run has.
fn count_of(system: &System, placement: &Placement) -> u32
    requires system { IsWellFormed system.now }
    requires fits { Fits system.now placement.now }
    ensures { result ≡ actor_count (links_of system.now) placement.now }
{
    (system.nodes.len() + (placement.caps.len() - placement.relays.len())) as u32
}

/// Whether the actors of a walk, which has so many, answer so to steps.
fn steps_so(walk: &mut Walk, many: u32, steps: &[Step]) -> bool
    requires { HasActors walk.old many }
{
    for (actor, told) in steps {
        if *actor >= many || walk.step(*actor) != answer_of(*told) {
            return false;
        }
    }
    true
}

/// Whether the actors of a run answer so to steps from its start.
fn starts_so(alloc: Global, run: &SampleRun, steps: &[Step]) -> bool
    requires { IsFittingRun run.now.system run.now.placement run.now.rows.bits }
{
    systems_have_one_table();
    let many = count_of(&run.system, &run.placement);
    match Walk::start(alloc, &run.system, &run.placement, &run.rows) {
        Ok(mut walk) => steps_so(&mut walk, many, steps),
        Err(_) => false,
    }
}

/// Whether a case goes as it says.
fn goes(alloc: Global, case: &Case) -> bool {
    match run_of(alloc, case.net, case.stations, case.letters) {
        Some(run) => starts_so(alloc, &run, case.steps),
        None => false,
    }
}

#[test]
fn actors_answer_to_steps(rt: HostRuntime) {
    for case in &CASES {
        assert!(rt; goes(rt.alloc(), case));
    }
}

/// Whether a hundred sweeps settle a walk.
fn settles(walk: &mut Walk) -> bool
    requires { IsAtRest walk.old }
    ensures { IsSetupWalk walk.new }
{
    for _sweep in 0..100u32 {
        if walk.settled() {
            return true;
        }
        let _fired = walk.sweep();
    }
    walk.settled()
}

/// Whether rows of one column have the bits of letters.
fn are_bits(rows: &[Items<bool>], bits: &[u8]) -> bool {
    if rows.len() != bits.len() {
        return false;
    }
    for i in 0..rows.len() {
        if rows[i].len() != 1 || rows[i].as_slice()[0] != (bits[i] == b'1') {
            return false;
        }
    }
    true
}

/// Whether a walk of a run settles with these rows.
fn ends_with(alloc: Global, run: &SampleRun, bits: &[u8]) -> bool
    requires { IsFittingRun run.now.system run.now.placement run.now.rows.bits }
{
    systems_have_one_table();
    match Walk::start(alloc, &run.system, &run.placement, &run.rows) {
        Ok(mut walk) => settles(&mut walk) && are_bits(walk.rows(), bits),
        Err(_) => false,
    }
}

/// Whether a run of a netlist settles with these rows.
fn gives(alloc: Global, net: &[u8], stations: &[u8], letters: &[u8], out: &[u8]) -> bool {
    match run_of(alloc, net, stations, letters) {
        Some(run) => ends_with(alloc, &run, out),
        None => false,
    }
}

#[test]
fn sweeps_give_the_strict_rows(rt: HostRuntime) {
    assert!(rt; gives(rt.alloc(), ONE, TWO, b"1011", b"0101"));
    assert!(rt; gives(rt.alloc(), RING, NONE, b"0000", b"1010"));
    assert!(rt; gives(rt.alloc(), SELF, NONE, b"00000", b"01010"));
}
