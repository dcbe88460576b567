//! Dumps that other programs wrote, rewritten to the form that is read: `data/README.md` says by which, and what was
//! rewritten. What they show stands in `data/shows.v`.

use crate::tests::{Cell, is_shown};

/// By Icarus Verilog: variables in reversed order at each time, tokens without leading zeros.
static ICARUS: &[u8] =
    b"$date\n\tSat Nov 28 09:26:01 2026\n$end\n$version\n\tIcarus Verilog\n$end\n$timescale\n\t1ns\n$end\n\
$scope module lid $end\n$var wire 1 ! s0_valid $end\n$var wire 1 \" s0_stop $end\n$var wire 31 # s0_token $end\n\
$var wire 1 $ s1_valid $end\n$var wire 1 % s1_stop $end\n$var wire 31 & s1_token $end\n$upscope $end\n\
$enddefinitions $end\n#0\nb0 &\n0%\n1$\nb1 #\n0\"\n1!\n#1\nb101 &\nb0 #\n1\"\n#2\n\
b1111111111111111111111111111111 &\n0!\n0\"\n1%\n#3\n";

/// By GTKWave's tools: tokens with all their digits.
static GTKWAVE: &[u8] =
    b"$date\n\tSat Nov 28 09:26:01 2026\n\n$end\n$version\n\tIcarus Verilog\n$end\n$timescale\n\t1ns\n$end\n\
$scope module lid $end\n$var wire 1 ! s0_valid $end\n$var wire 1 \" s0_stop $end\n$var wire 31 # s0_token $end\n\
$var wire 1 $ s1_valid $end\n$var wire 1 % s1_stop $end\n$var wire 31 & s1_token $end\n$upscope $end\n\
$enddefinitions $end\n#0\nb0000000000000000000000000000000 &\n0%\n1$\nb0000000000000000000000000000001 #\n0\"\n1!\n\
#1\n1\"\nb0000000000000000000000000000000 #\nb0000000000000000000000000000101 &\n#2\n\
b1111111111111111111111111111111 &\n0\"\n0!\n1%\n#3\n";

/// What the two stations show in the three cycles: valid, stop and token.
static SHOWN: [Cell; 6] = [
    (true, false, 1),
    (true, false, 0),
    (true, true, 0),
    (true, false, 5),
    (false, false, 0),
    (true, true, 2_147_483_647),
];

#[test]
fn a_dump_of_icarus_is_read(rt: HostRuntime) {
    assert!(rt; is_shown(rt.alloc(), ICARUS, 2, 3, &SHOWN));
}

#[test]
fn a_dump_of_gtkwave_is_read(rt: HostRuntime) {
    assert!(rt; is_shown(rt.alloc(), GTKWAVE, 2, 3, &SHOWN));
}
