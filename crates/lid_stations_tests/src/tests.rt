//! Texts of stations and wires, with what the format says of them, worked out by hand.

ghost use Rattle.std.specs.Prelude.{◌≤◌};
ghost use Rattle.lid_system.specs.Systems.{IsWellFormed};

use lid_base::{Which, append_number};
use lid_stations::Placement;
use lid_stations_text::{PlaceFault, place, print_stations, read_stations};
use lid_system::System;
use lid_tests_fixtures::{RING, system_of};
use std::alloc::{AllocError, Global};

/// A fault by its name, with its line or count.
type Told = (&'static str, u64);

fn told(fault: PlaceFault) -> Told {
    match fault {
        PlaceFault::Word { line } => ("Word", u64::from(line)),
        PlaceFault::NoChannel { line } => ("NoChannel", u64::from(line)),
        PlaceFault::Twice { line } => ("Twice", u64::from(line)),
        PlaceFault::TooMany { line } => ("TooMany", u64::from(line)),
        PlaceFault::TotalLimit { count } => ("TotalLimit", count),
        PlaceFault::ZeroLength { line } => ("ZeroLength", u64::from(line)),
        PlaceFault::Limit {
            which: Which::FileBytes,
            count,
        } => ("Limit FileBytes", count),
        PlaceFault::Limit { which: _, count } => ("Limit of another thing", count),
        PlaceFault::Capacity { line } => ("Capacity", u64::from(line)),
        PlaceFault::Memory => ("Memory", 0),
    }
}

/// What is told of a text of stations of the ring.
fn told_of_stations(alloc: Global, text: &[u8]) -> Told {
    let Some(ring) = system_of(alloc, RING) else {
        return ("no ring", 0);
    };
    match read_stations(alloc, text, &ring) {
        Ok(_) => ("", 0),
        Err(fault) => told(fault),
    }
}

/// What is told of a text of wires of the ring.
fn told_of_wires(alloc: Global, text: &[u8]) -> Told {
    let Some(ring) = system_of(alloc, RING) else {
        return ("no ring", 0);
    };
    match place(alloc, text, 1000, &ring) {
        Ok(_) => ("", 0),
        Err(fault) => told(fault),
    }
}

/// Texts of stations, and what is told of them.
static STATION_FAULTS: [(&[u8], Told); 36] = [
    (b"# nothing\n", ("Word", 0)),
    (b"lid-stations 3\n", ("Word", 1)),
    (b"\nlid-wires 1\n", ("Word", 2)),
    (b"lid-stations 1 1\n", ("Word", 1)),
    (b"lid-stations 1\nu0 u1 0\n", ("Word", 2)),
    (b"lid-stations 1\nu0 u1 0 1 2\n", ("Word", 2)),
    (b"lid-stations 1\nx0 u1 0 1\n", ("Word", 2)),
    (b"lid-stations 1\nu u1 0 1\n", ("Word", 2)),
    (b"lid-stations 1\nu0 u01 0 1\n", ("Word", 2)),
    (b"lid-stations 1\nu0 u1 x 1\n", ("Word", 2)),
    (
        b"lid-stations 1\nu0 u1 0 18446744073709551616\n",
        ("Word", 2),
    ),
    (b"lid-stations 2\nu0 u1 0 1 2\n", ("Word", 2)),
    (b"lid-stations 2\nu0 u1 0 1 2 2 2\n", ("Word", 2)),
    (b"lid-stations 2\nu0 u1 0 1 2 x\n", ("Word", 2)),
    (b"lid-stations 1\nu0 u1 0 1\n\x01\n", ("Word", 3)),
    (b"lid-stations 1\nu0 u1 1 0\n", ("NoChannel", 2)),
    (b"lid-stations 1\nu0 u2 0 0\n", ("NoChannel", 2)),
    // u2 would be the sink, which has another name
    (b"lid-stations 1\nu1 u2 0 0\n", ("NoChannel", 2)),
    (b"lid-stations 1\nu0 u1 4294967296 0\n", ("NoChannel", 2)),
    (
        b"lid-stations 1\nu0 u18446744073709551615 0 0\n",
        ("NoChannel", 2),
    ),
    (b"lid-stations 1\nu0 u1 00 0\n", ("Word", 2)),
    (b"lid-stations 1\nu0 u1 0 01\n", ("Word", 2)),
    (b"lid-stations 1\nin u0 0 0\n", ("NoChannel", 2)),
    (b"lid-stations 1\nu0 out 0 0\n", ("NoChannel", 2)),
    (b"lid-stations 1\nu0 u1 0 1\n\nu0 u1 0 1\n", ("Twice", 4)),
    (b"lid-stations 1\nu0 u1 0 65\n", ("TooMany", 2)),
    (b"lid-stations 2\nu0 u1 0 0 1\n", ("Capacity", 2)),
    (b"lid-stations 2\nu0 u1 0 1 2 17\n", ("Capacity", 2)),
    // of two faults on a line the first one in order is told
    (b"lid-stations 1\nu0 u9 0 x\n", ("Word", 2)),
    (b"lid-stations 1\nu0 u9 0 65\n", ("NoChannel", 2)),
    (b"lid-stations 1\nu0 u1 0 1\nu0 u1 0 65\n", ("Twice", 3)),
    (
        b"lid-stations 2\nu0 u1 0 65 1 1 1 1 1 1 1 1 1 1 1 1 1 1 1 1 1 1 1 1 1 1 1 1 1 1 1 1 1 1 1 1 1 1 1 1 1 1 1 1 1 1 1 1 1 1 1 1 1 1 1 1 1 1 1 1 1 1 1 1 1 1 1 1 1 1\n",
        ("TooMany", 2),
    ),
    (b"lid-stations 2\nu0 u1 0 1 1\n", ("Word", 2)),
    (b"lid-stations 2\nu0 u1 0 0 2\nu0 u1 0 0 1\n", ("Twice", 3)),
    // of two lines the first one
    (b"lid-stations 1\nu0 u1 0 65\nu0 u1 1 0\n", ("TooMany", 2)),
    (b"lid-stations 1\nu0 u1 1 0\n\x01\n", ("Word", 3)),
];

#[test]
fn faults_of_stations_are_told(rt: HostRuntime) {
    for (text, want) in &STATION_FAULTS {
        assert_eq!(rt; told_of_stations(rt.alloc(), text), *want, "{text:?}");
    }
}

/// Texts of wires at a reach of 1,000, and what is told of them.
static WIRE_FAULTS: [(&[u8], Told); 7] = [
    (b"", ("Word", 0)),
    (b"lid-stations 1\n", ("Word", 1)),
    (b"lid-wires 2\n", ("Word", 1)),
    (b"lid-wires 1\nu0 u1 0 5 2\n", ("Word", 2)),
    (b"lid-wires 1\nu0 u1 0 0\n", ("ZeroLength", 2)),
    (b"lid-wires 1\nu0 u1 0 65001\n", ("TooMany", 2)),
    (b"lid-wires 1\nu0 u1 0 5\nu0 u1 0 0\n", ("Twice", 3)),
];

#[test]
fn faults_of_wires_are_told(rt: HostRuntime) {
    for (text, want) in &WIRE_FAULTS {
        assert_eq!(rt; told_of_wires(rt.alloc(), text), *want, "{text:?}");
    }
}

/// The relay stations of each channel, and the capacities of all stations.
type Placed = (&'static [u32], &'static [u32]);

/// Whether a text of stations of the ring stands for this placement.
fn is_read(alloc: Global, text: &[u8], want: &Placed) -> bool {
    let Some(ring) = system_of(alloc, RING) else {
        return false;
    };
    match read_stations(alloc, text, &ring) {
        Ok(placement) => {
            placement.relays.as_slice() == want.0 && placement.caps.as_slice() == want.1
        }
        Err(_) => false,
    }
}

/// Texts of stations, and their placements.
static STATIONS: [(&[u8], Placed); 6] = [
    (b"lid-stations 1\n", (&[0, 0, 0], &[2, 2, 2])),
    (b"lid-stations 2\n", (&[0, 0, 0], &[2, 2, 2])),
    (
        b"# far\nlid-stations \\\n1\nu1 out 0 2\n\nu0 u1 0 1 # near\n",
        (&[1, 0, 2], &[2, 2, 2, 2, 2, 2]),
    ),
    (
        b"lid-stations 2\nu1 u0 0 1 2 16\n",
        (&[0, 1, 0], &[2, 2, 16, 2]),
    ),
    (
        b"lid-stations 2\nu1 out 0 0 4\nu0 u1 0 0 3",
        (&[0, 0, 0], &[3, 2, 4]),
    ),
    (
        b"lid-stations 1\nu1 u0 0 64\n",
        (
            &[0, 64, 0],
            &[
                2, 2, 2, 2, 2, 2, 2, 2, 2, 2, 2, 2, 2, 2, 2, 2, 2, 2, 2, 2, 2, 2, 2, 2, 2, 2, 2, 2,
                2, 2, 2, 2, 2, 2, 2, 2, 2, 2, 2, 2, 2, 2, 2, 2, 2, 2, 2, 2, 2, 2, 2, 2, 2, 2, 2, 2,
                2, 2, 2, 2, 2, 2, 2, 2, 2, 2, 2,
            ],
        ),
    ),
];

#[test]
fn stations_are_read(rt: HostRuntime) {
    for (text, want) in &STATIONS {
        assert!(rt; is_read(rt.alloc(), text, want), "{text:?}");
    }
}

/// Whether the wires of the ring have so many relay stations, and each station has capacity 2.
fn is_placed(alloc: Global, reach: u64, text: &[u8], want: &[u32]) -> bool
    requires { 1 ≤ reach }
{
    let Some(ring) = system_of(alloc, RING) else {
        return false;
    };
    match place(alloc, text, reach, &ring) {
        Ok(placement) => {
            placement.relays.as_slice() == want
                && placement
                    .caps
                    .as_slice()
                    .iter()
                    .all(|capacity| *capacity == 2)
        }
        Err(_) => false,
    }
}

/// Texts of wires, and the relay stations of the channels at a reach of 1,000.
static WIRES: [(&[u8], [u32; 3]); 5] = [
    (b"lid-wires 1\nu0 u1 0 2500\nu1 u0 0 1800\n", [2, 1, 0]),
    (b"lid-wires 1\nu0 u1 0 2000\nu1 out 0 1000\n", [1, 0, 0]),
    (b"lid-wires 1\nu0 u1 0 1001\nu1 u0 0 1\n", [1, 0, 0]),
    (b"lid-wires 1\nu1 u0 0 65000\n", [0, 64, 0]),
    (b"lid-wires 1\n", [0, 0, 0]),
];

#[test]
fn relay_stations_are_placed(rt: HostRuntime) {
    for (text, want) in &WIRES {
        assert!(rt; is_placed(rt.alloc(), 1000, text, want), "{text:?}");
    }
    assert!(rt;
        is_placed(
            rt.alloc(),
            u64::MAX,
            b"lid-wires 1\nu0 u1 0 18446744073709551615\n",
            &[0, 0, 0]
        )
    );
    assert!(rt; is_placed(rt.alloc(), 1, b"lid-wires 1\nu0 u1 0 2\n", &[1, 0, 0]));
}

/// Whether a text of the ring stands for this placement too.
fn is_again(alloc: Global, ring: &System, text: &[u8], placement: &Placement) -> bool
    requires { IsWellFormed ring.now }
{
    match read_stations(alloc, text, ring) {
        Ok(again) => {
            again.relays.as_slice() == placement.relays.as_slice()
                && again.caps.as_slice() == placement.caps.as_slice()
        }
        Err(_) => false,
    }
}

/// Whether what a text stands for is printed as another, which reads as the same
/// placement.
fn is_printed(alloc: Global, text: &[u8], want: &[u8]) -> bool {
    let Some(ring) = system_of(alloc, RING) else {
        return false;
    };
    let Ok(placement) = read_stations(alloc, text, &ring) else {
        return false;
    };
    let mut into = Vec::new(alloc);
    let Ok(()) = print_stations(&ring, &placement, &mut into) else {
        return false;
    };
    into.as_slice() == want && is_again(alloc, &ring, into.as_slice(), &placement)
}

/// Texts of stations, and their placements printed.
static PRINTED: [(&[u8], &[u8]); 4] = [
    (
        b"lid-stations 1\nu0 u1 0 1\n",
        b"lid-stations 1\nu0 u1 0 1\nu1 u0 0 0\nu1 out 0 0\n",
    ),
    (
        b"lid-stations 2\nu0 u1 0 1 2 3\n",
        b"lid-stations 2\nu0 u1 0 1 2 3\nu1 u0 0 0 2\nu1 out 0 0 2\n",
    ),
    (
        b"lid-stations 2\nu1 out 0 1 2 2\n",
        b"lid-stations 1\nu0 u1 0 0\nu1 u0 0 0\nu1 out 0 1\n",
    ),
    (
        b"lid-stations 2\nu1 out 0 0 16\n",
        b"lid-stations 2\nu0 u1 0 0 2\nu1 u0 0 0 2\nu1 out 0 0 16\n",
    ),
];

#[test]
fn stations_are_printed(rt: HostRuntime) {
    for (text, want) in &PRINTED {
        assert!(rt; is_printed(rt.alloc(), text, want), "{text:?}");
    }
}

/// Appends a number between two texts.
fn append_numbered(
    before: &[u8],
    number: u64,
    after: &[u8],
    into: &mut Vec<u8>,
) -> Result<(), AllocError> {
    into.extend_from_slice(before)?;
    append_number(number, into)?;
    into.extend_from_slice(after)
}

/// Appends a netlist of 505 registers that read the one input, and each give an output: it has 1,010
/// channels.
fn append_many_registers(into: &mut Vec<u8>) -> Result<(), AllocError> {
    into.extend_from_slice(b".model many\n.inputs x\n.outputs")?;
    for k in 0..505 {
        append_numbered(b" y", k, b"", into)?;
    }
    for k in 0..505 {
        append_numbered(b"\n.subckt reg d=x q=y", k, b"", into)?;
    }
    into.extend_from_slice(b"\n.end\n.model reg\n.inputs d\n.outputs q\n.latch d q 0\n.end\n")
}

/// Appends stations with 64 relay stations on 1,008 of the channels, so many on the next one, and none on
/// the last one.
fn append_many_stations(last: u64, into: &mut Vec<u8>) -> Result<(), AllocError> {
    into.extend_from_slice(b"lid-stations 1\n")?;
    for k in 0..505 {
        append_numbered(b"in u", k, b" 0 64\n", into)?;
    }
    for k in 0..503 {
        append_numbered(b"u", k, b" out 0 64\n", into)?;
    }
    append_numbered(b"u503 out 0 ", last, b"\n", into)
}

/// What is told of such stations: there are 65,522 of them, and so many more.
fn told_of_many(alloc: Global, last: u64) -> Told {
    let mut netlist = Vec::new(alloc);
    let Ok(()) = append_many_registers(&mut netlist) else {
        return ("Memory", 0);
    };
    let Some(system) = system_of(alloc, netlist.as_slice()) else {
        return ("no system", 0);
    };
    let mut text = Vec::new(alloc);
    let Ok(()) = append_many_stations(last, &mut text) else {
        return ("Memory", 0);
    };
    match read_stations(alloc, text.as_slice(), &system) {
        Ok(_) => ("", 0),
        Err(fault) => told(fault),
    }
}

#[test]
fn stations_are_counted(rt: HostRuntime) {
    assert_eq!(rt; told_of_many(rt.alloc(), 14), ("", 0));
    assert_eq!(rt; told_of_many(rt.alloc(), 15), ("TotalLimit", 65_537));
}
