//! The reading of dumps, and their writing. What is told of each text comes from `tools/dev/waves.py`.

use lid_base::{Shown, Which};
use lid_texts_runs::Trace;
use lid_vcd::{VcdFault, read, write};
use lid_vcd_form::append_id;
use std::alloc::{AllocError, Global};

/// The dump of two stations in two cycles.
static WORKED: &[u8] =
    b"$timescale 1 ns $end\n$scope module lid $end\n$var wire 1 ! s0_valid $end\n$var wire 1 \" s0_stop $end\n$var wire 31 # s0_token $end\n$var wire 1 $ s1_valid $end\n$var wire 1 % s1_stop $end\n$var wire 31 & s1_token $end\n$upscope $end\n$enddefinitions $end\n#0\n1!\n0\"\nb1 #\n1$\n0%\nb0 &\n#1\nb0 #\nb1 &\n#2\n";

/// What is told of a text: its cycles, or its refusal.
type Told = (&'static str, u64);

fn told_of(alloc: Global, text: &[u8]) -> Told {
    match read(alloc, text) {
        Ok(trace) => ("trace", trace.cycles),
        Err(VcdFault::Limit { which, count }) => match which {
            Which::FileBytes => ("FileBytes", count),
            Which::TraceCells => ("TraceCells", count),
            _ => ("another limit", count),
        },
        Err(VcdFault::Word { line }) => ("Word", u64::from(line)),
        Err(VcdFault::Memory) => ("Memory", 0),
    }
}

/// How many bytes are kept of the worked text, up to the end of each word, and what is told.
static CUTS: [(usize, Told); 64] = [
    (0, ("Word", 0)),
    (10, ("Word", 1)),
    (12, ("Word", 1)),
    (15, ("Word", 1)),
    (20, ("Word", 1)),
    (27, ("Word", 2)),
    (34, ("Word", 2)),
    (38, ("Word", 2)),
    (43, ("Word", 2)),
    (48, ("Word", 3)),
    (53, ("Word", 3)),
    (55, ("Word", 3)),
    (57, ("Word", 3)),
    (66, ("Word", 3)),
    (71, ("Word", 3)),
    (76, ("Word", 4)),
    (81, ("Word", 4)),
    (83, ("Word", 4)),
    (85, ("Word", 4)),
    (93, ("Word", 4)),
    (98, ("Word", 4)),
    (103, ("Word", 5)),
    (108, ("Word", 5)),
    (111, ("Word", 5)),
    (113, ("Word", 5)),
    (122, ("Word", 5)),
    (127, ("Word", 5)),
    (132, ("Word", 6)),
    (137, ("Word", 6)),
    (139, ("Word", 6)),
    (141, ("Word", 6)),
    (150, ("Word", 6)),
    (155, ("Word", 6)),
    (160, ("Word", 7)),
    (165, ("Word", 7)),
    (167, ("Word", 7)),
    (169, ("Word", 7)),
    (177, ("Word", 7)),
    (182, ("Word", 7)),
    (187, ("Word", 8)),
    (192, ("Word", 8)),
    (195, ("Word", 8)),
    (197, ("Word", 8)),
    (206, ("Word", 8)),
    (211, ("Word", 8)),
    (220, ("Word", 9)),
    (225, ("Word", 9)),
    (241, ("Word", 10)),
    (246, ("Word", 10)),
    (249, ("trace", 0)),
    (252, ("Word", 12)),
    (255, ("Word", 13)),
    (258, ("Word", 14)),
    (260, ("Word", 14)),
    (263, ("Word", 15)),
    (266, ("Word", 16)),
    (269, ("Word", 17)),
    (271, ("Word", 17)),
    (274, ("trace", 1)),
    (277, ("Word", 19)),
    (279, ("Word", 19)),
    (282, ("Word", 20)),
    (284, ("Word", 20)),
    (287, ("trace", 2)),
];

fn is_cut_told(alloc: Global, bytes: usize, told: Told) -> bool {
    match WORKED.get(..bytes) {
        Some(text) => told_of(alloc, text) == told,
        None => false,
    }
}

#[test]
fn cuts_are_told(rt: HostRuntime) {
    for (bytes, told) in &CUTS {
        assert!(rt; is_cut_told(rt.alloc(), *bytes, *told), "{bytes}");
    }
}

/// Texts that stand for no trace, and what is told of them.
static REFUSED: [(&[u8], Told); 25] = [
    // No words.
    (b"", ("Word", 0)),
    // No words, but lines.
    (b"\n \t\r\n", ("Word", 0)),
    // An ID that is no variable.
    (
        b"$timescale 1 ns $end\n$scope module lid $end\n$var wire 1 ! s0_valid $end\n$var wire 1 \" s0_stop $end\n$var wire 31 # s0_token $end\n$upscope $end\n$enddefinitions $end\n#0\n1$\n#1\n",
        ("Word", 9),
    ),
    // A bit whose ID is that of a token.
    (
        b"$timescale 1 ns $end\n$scope module lid $end\n$var wire 1 ! s0_valid $end\n$var wire 1 \" s0_stop $end\n$var wire 31 # s0_token $end\n$upscope $end\n$enddefinitions $end\n#0\n1#\n#1\n",
        ("Word", 9),
    ),
    // Bits whose ID is that of no token.
    (
        b"$timescale 1 ns $end\n$scope module lid $end\n$var wire 1 ! s0_valid $end\n$var wire 1 \" s0_stop $end\n$var wire 31 # s0_token $end\n$upscope $end\n$enddefinitions $end\n#0\nb1\n\n!\n#1\n",
        ("Word", 11),
    ),
    // An ID with a last digit 0.
    (
        b"$timescale 1 ns $end\n$scope module lid $end\n$var wire 1 ! s0_valid $end\n$var wire 1 \" s0_stop $end\n$var wire 31 # s0_token $end\n$upscope $end\n$enddefinitions $end\n#0\n0\"!\n#1\n",
        ("Word", 9),
    ),
    // A time that is that before.
    (
        b"$timescale 1 ns $end\n$scope module lid $end\n$var wire 1 ! s0_valid $end\n$var wire 1 \" s0_stop $end\n$var wire 31 # s0_token $end\n$upscope $end\n$enddefinitions $end\n#0\n#1\n#1\n",
        ("Word", 10),
    ),
    // A time with a leading zero.
    (
        b"$timescale 1 ns $end\n$scope module lid $end\n$var wire 1 ! s0_valid $end\n$var wire 1 \" s0_stop $end\n$var wire 31 # s0_token $end\n$upscope $end\n$enddefinitions $end\n#0\n#01\n",
        ("Word", 9),
    ),
    // The last time.
    (
        b"$timescale 1 ns $end\n$scope module lid $end\n$var wire 1 ! s0_valid $end\n$var wire 1 \" s0_stop $end\n$var wire 31 # s0_token $end\n$upscope $end\n$enddefinitions $end\n#0\n#4294967295\n1!\n",
        ("Word", 10),
    ),
    // A time that is too large.
    (
        b"$timescale 1 ns $end\n$scope module lid $end\n$var wire 1 ! s0_valid $end\n$var wire 1 \" s0_stop $end\n$var wire 31 # s0_token $end\n$upscope $end\n$enddefinitions $end\n#0\n#4294967296\n",
        ("Word", 9),
    ),
    // A first time that is not 0.
    (
        b"$timescale 1 ns $end\n$scope module lid $end\n$var wire 1 ! s0_valid $end\n$var wire 1 \" s0_stop $end\n$var wire 31 # s0_token $end\n$upscope $end\n$enddefinitions $end\n#1\n",
        ("Word", 8),
    ),
    // No bits.
    (
        b"$timescale 1 ns $end\n$scope module lid $end\n$var wire 1 ! s0_valid $end\n$var wire 1 \" s0_stop $end\n$var wire 31 # s0_token $end\n$upscope $end\n$enddefinitions $end\n#0\nb #\n#1\n",
        ("Word", 9),
    ),
    // 32 bits.
    (
        b"$timescale 1 ns $end\n$scope module lid $end\n$var wire 1 ! s0_valid $end\n$var wire 1 \" s0_stop $end\n$var wire 31 # s0_token $end\n$upscope $end\n$enddefinitions $end\n#0\nb00000000000000000000000000000000 #\n#1\n",
        ("Word", 9),
    ),
    // Two digits as a bit.
    (
        b"$timescale 1 ns $end\n$scope module lid $end\n$var wire 1 ! s0_valid $end\n$var wire 1 \" s0_stop $end\n$var wire 31 # s0_token $end\n$upscope $end\n$enddefinitions $end\n#0\nb2 #\n#1\n",
        ("Word", 9),
    ),
    // A token without stations.
    (
        b"$timescale $end $scope module lid $end $upscope $end $enddefinitions $end\n#0 b1\n#1",
        ("Word", 2),
    ),
    // A note in the body.
    (
        b"$timescale 1 ns $end\n$scope module lid $end\n$var wire 1 ! s0_valid $end\n$var wire 1 \" s0_stop $end\n$var wire 31 # s0_token $end\n$upscope $end\n$enddefinitions $end\n#0\n$comment $end\n#1\n",
        ("Word", 9),
    ),
    // A section that is left out.
    (
        b"$timescale 1 ns $end\n$scope module lid $end\n$var wire 1 ! s0_valid $end\n$var wire 1 \" s0_stop $end\n$var wire 31 # s0_token $end\n$enddefinitions $end\n#0\n",
        ("Word", 6),
    ),
    // A wrong station.
    (
        b"$timescale 1 ns $end\n$scope module lid $end\n$var wire 1 ! s0_valid $end\n$var wire 1 \" s1_stop $end\n$var wire 31 # s0_token $end\n$upscope $end\n$enddefinitions $end\n#0\n",
        ("Word", 4),
    ),
    // A station with a leading zero.
    (
        b"$timescale 1 ns $end\n$scope module lid $end\n$var wire 1 ! s0_valid $end\n$var wire 1 \" s00_stop $end\n$var wire 31 # s0_token $end\n$upscope $end\n$enddefinitions $end\n#0\n",
        ("Word", 4),
    ),
    // A wrong width.
    (
        b"$timescale 1 ns $end\n$scope module lid $end\n$var wire 1 ! s0_valid $end\n$var wire 1 \" s0_stop $end\n$var wire 32 # s0_token $end\n$upscope $end\n$enddefinitions $end\n#0\n",
        ("Word", 5),
    ),
    // A station without its token.
    (
        b"$timescale 1 ns $end\n$scope module lid $end\n$var wire 1 ! s0_valid $end\n$var wire 1 \" s0_stop $end\n$upscope $end\n$enddefinitions $end\n#0\n",
        ("Word", 5),
    ),
    // A change after the last time.
    (
        b"$timescale 1 ns $end\n$scope module lid $end\n$var wire 1 ! s0_valid $end\n$var wire 1 \" s0_stop $end\n$var wire 31 # s0_token $end\n$upscope $end\n$enddefinitions $end\n#0\n1!\n",
        ("Word", 9),
    ),
    // One cell too many.
    (
        b"$timescale 1 ns $end\n$scope module lid $end\n$var wire 1 ! s0_valid $end\n$var wire 1 \" s0_stop $end\n$var wire 31 # s0_token $end\n$upscope $end\n$enddefinitions $end\n#0\n#1048577\n",
        ("TraceCells", 1048577),
    ),
    // Very many cells.
    (
        b"$timescale 1 ns $end\n$scope module lid $end\n$var wire 1 ! s0_valid $end\n$var wire 1 \" s0_stop $end\n$var wire 31 # s0_token $end\n$upscope $end\n$enddefinitions $end\n#0\n#4000000000\n",
        ("TraceCells", 4000000000),
    ),
    // One cycle too many without stations.
    (
        b"$timescale $end $scope module lid $end $upscope $end $enddefinitions $end\n#0 #1048577",
        ("TraceCells", 1048577),
    ),
];

#[test]
fn refusals_are_told(rt: HostRuntime) {
    for (text, told) in &REFUSED {
        assert_eq!(rt; told_of(rt.alloc(), text), *told, "{text:?}");
    }
}

/// A cell: valid, stop and token.
pub type Cell = (bool, bool, u32);

fn is_cell(cell: &Shown, wanted: &Cell) -> bool {
    cell.valid == wanted.0 && cell.stop == wanted.1 && cell.token == wanted.2
}

fn are_cells(cells: &[Shown], wanted: &[Cell]) -> bool {
    cells.len() == wanted.len()
        && cells
            .iter()
            .zip(wanted)
            .all(|(cell, want)| is_cell(cell, want))
}

/// Whether a text shows this trace.
pub fn is_shown(alloc: Global, text: &[u8], stations: u32, cycles: u64, cells: &[Cell]) -> bool {
    match read(alloc, text) {
        Ok(trace) => {
            trace.stations == stations
                && trace.cycles == cycles
                && are_cells(trace.cells.as_slice(), cells)
        }
        Err(_) => false,
    }
}

/// Texts with their stations, cycles and cells.
static TRACES: [(&[u8], u32, u64, &[Cell]); 6] = [
    // The text that is written of two stations.
    (
        b"$timescale 1 ns $end\n$scope module lid $end\n$var wire 1 ! s0_valid $end\n$var wire 1 \" s0_stop $end\n$var wire 31 # s0_token $end\n$var wire 1 $ s1_valid $end\n$var wire 1 % s1_stop $end\n$var wire 31 & s1_token $end\n$upscope $end\n$enddefinitions $end\n#0\n1!\n0\"\nb1 #\n1$\n0%\nb0 &\n#1\nb0 #\nb1 &\n#2\n",
        2,
        2,
        &[
            (true, false, 1),
            (true, false, 0),
            (true, false, 0),
            (true, false, 1),
        ],
    ),
    // A token kept while its station is not valid.
    (
        b"$timescale 1 ns $end\n$scope module lid $end\n$var wire 1 ! s0_valid $end\n$var wire 1 \" s0_stop $end\n$var wire 31 # s0_token $end\n$upscope $end\n$enddefinitions $end\n#0\n1!\nb101 #\n#1\n0!\n#2\n1!\n1\"\n#4\n",
        1,
        4,
        &[
            (true, false, 5),
            (false, false, 0),
            (true, true, 5),
            (true, true, 5),
        ],
    ),
    // Notes wherever they may stand.
    (
        b"$comment a #5 $var $end $timescale any words $end $comment a #5 $var $end $scope module lid $end\r\n$comment a #5 $var $end $var wire 1 ! s0_valid $end $comment a #5 $var $end $version $end $date $end\t$var wire 1 \" s0_stop $end $comment a #5 $var $end $var wire 31 # s0_token $end $comment a #5 $var $end $upscope $end $comment a #5 $var $end $enddefinitions $end $comment a #5 $var $end #0 b1111111111111111111111111111111 # 1! 0! 1! #1",
        1,
        1,
        &[(true, false, 2147483647)],
    ),
    // No stations.
    (
        b"$timescale $end $scope module lid $end $upscope $end $enddefinitions $end\n#0 #3",
        0,
        3,
        &[],
    ),
    // No cycles.
    (
        b"$timescale 1 ns $end\n$scope module lid $end\n$var wire 1 ! s0_valid $end\n$var wire 1 \" s0_stop $end\n$var wire 31 # s0_token $end\n$upscope $end\n$enddefinitions $end\n#0",
        1,
        0,
        &[],
    ),
    // A change that is set again at one time.
    (
        b"$timescale 1 ns $end\n$scope module lid $end\n$var wire 1 ! s0_valid $end\n$var wire 1 \" s0_stop $end\n$var wire 31 # s0_token $end\n$upscope $end\n$enddefinitions $end\n#0 1! b1 # b0010 # #1",
        1,
        1,
        &[(true, false, 2)],
    ),
];

#[test]
fn traces_are_shown(rt: HostRuntime) {
    for (text, stations, cycles, cells) in &TRACES {
        assert!(rt;
            is_shown(rt.alloc(), text, *stations, *cycles, cells),
            "{text:?}"
        );
    }
}

/// Whether this is written of what a text shows, after what stood there before.
fn is_written(alloc: Global, text: &[u8], wanted: &[u8]) -> bool {
    let Ok(trace) = read(alloc, text) else {
        return false;
    };
    let mut into = Vec::new(alloc);
    if into.push(b'x').is_err() || write(&trace, &mut into).is_err() {
        return false;
    }
    into.len() > 0
        && into.starts_with(b"x")
        && into.ends_with(wanted)
        && into.len() == wanted.len().saturating_add(1)
}

/// Texts, and what is written of their traces.
static WRITTEN: [(&[u8], &[u8]); 4] = [
    (
        b"$timescale 1 ns $end\n$scope module lid $end\n$var wire 1 ! s0_valid $end\n$var wire 1 \" s0_stop $end\n$var wire 31 # s0_token $end\n$var wire 1 $ s1_valid $end\n$var wire 1 % s1_stop $end\n$var wire 31 & s1_token $end\n$upscope $end\n$enddefinitions $end\n#0\n1!\n0\"\nb1 #\n1$\n0%\nb0 &\n#1\nb0 #\nb1 &\n#2\n",
        b"$timescale 1 ns $end\n$scope module lid $end\n$var wire 1 ! s0_valid $end\n$var wire 1 \" s0_stop $end\n$var wire 31 # s0_token $end\n$var wire 1 $ s1_valid $end\n$var wire 1 % s1_stop $end\n$var wire 31 & s1_token $end\n$upscope $end\n$enddefinitions $end\n#0\n1!\n0\"\nb1 #\n1$\n0%\nb0 &\n#1\nb0 #\nb1 &\n#2\n",
    ),
    // A change that changes nothing, and a time without a change.
    (
        b"$timescale 1 ns $end\n$scope module lid $end\n$var wire 1 ! s0_valid $end\n$var wire 1 \" s0_stop $end\n$var wire 31 # s0_token $end\n$upscope $end\n$enddefinitions $end\n#0 1! #1 1! #2 #3 0! b11 # #4",
        b"$timescale 1 ns $end\n$scope module lid $end\n$var wire 1 ! s0_valid $end\n$var wire 1 \" s0_stop $end\n$var wire 31 # s0_token $end\n$upscope $end\n$enddefinitions $end\n#0\n1!\n0\"\nb0 #\n#3\n0!\n#4\n",
    ),
    (
        b"$timescale $end $scope module lid $end $upscope $end $enddefinitions $end\n#0 #7",
        b"$timescale 1 ns $end\n$scope module lid $end\n$upscope $end\n$enddefinitions $end\n#0\n#7\n",
    ),
    (
        b"$timescale 1 ns $end\n$scope module lid $end\n$var wire 1 ! s0_valid $end\n$var wire 1 \" s0_stop $end\n$var wire 31 # s0_token $end\n$upscope $end\n$enddefinitions $end\n#0",
        b"$timescale 1 ns $end\n$scope module lid $end\n$var wire 1 ! s0_valid $end\n$var wire 1 \" s0_stop $end\n$var wire 31 # s0_token $end\n$upscope $end\n$enddefinitions $end\n#0\n",
    ),
];

#[test]
fn dumps_are_written(rt: HostRuntime) {
    for (text, wanted) in &WRITTEN {
        assert!(rt; is_written(rt.alloc(), text, wanted), "{text:?}");
    }
}

/// Variables and their IDs.
static IDS: [(u32, &[u8]); 6] = [
    (0, b"!"),
    (93, b"~"),
    (94, b"!\""),
    (8835, b"~~"),
    (8836, b"!!\""),
    (196_607, b"V87"),
];

fn is_named(alloc: Global, variable: u32, id: &[u8]) -> bool {
    let mut into = Vec::new(alloc);
    append_id(variable, &mut into).is_ok() && into.as_slice() == id
}

#[test]
fn variables_have_ids(rt: HostRuntime) {
    for (variable, id) in &IDS {
        assert!(rt; is_named(rt.alloc(), *variable, id), "{variable}");
    }
}
