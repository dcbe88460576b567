//! Walks, waves and generated designs, through the top call. What is expected is worked out by hand from the strict
//! tables, from the numbers of the interleaving machine, and from the draws.

use crate::net_tests::RING;
use crate::tests::{Left, NONE_FAILS, REGISTER, done, expect_run};
use std::test::Fail;

/// Walks: netlist, rows, stations, schedule, and what is printed.
type Walk = (
    &'static str,
    &'static str,
    &'static str,
    &'static str,
    &'static str,
);

static WALKS: &[Walk] = &[
    // the source fires once, and then its station is full
    (
        REGISTER,
        "d\n1\n0\n1\n",
        "lid-stations 1\n",
        "0 0 0\n",
        "0 room 0\n0 put 0 0 fired\n0 stop 0 8000000080000001\nq\n",
    ),
    // the shell takes the start token, puts, and finds no other
    (
        REGISTER,
        "d\n1\n0\n1\n",
        "lid-stations 1\n",
        "1 1 1\n1 1\n",
        "1 token 0 1\n1 room 1\n1 take 0 1\n1 put 1 1 fired\n1 void 0 0000000000000000\nq\n",
    ),
    // a mover carries the start token on, and the sink sees it
    (
        REGISTER,
        "d\n1\n0\n1\n",
        "lid-stations 1\nu0 out 0 1\n",
        "3 3 3 3 2\n",
        "3 token 1 0\n3 room 2\n3 take 1 0\n3 put 2 0 fired\n2 token 2 0\nq\n",
    ),
    // without rows all is done
    (
        REGISTER,
        "d\n",
        "lid-stations 1\n",
        "0 1 2\n",
        "0 done\n1 done\n2 done\nq\n",
    ),
    (REGISTER, "d\n1\n0\n1\n", "lid-stations 1\n", "", "q\n"),
    // three places: two words, of which the first is full
    (
        REGISTER,
        "d\n1\n0\n1\n1\n",
        "lid-stations 2\nin u0 0 0 3\n",
        "0 0 0 0 0\n",
        "0 room 0\n0 put 0 0 fired\n0 room 0\n0 put 0 1 fired\n0 stop 0 8000000080000001\nq\n",
    ),
    // the sink of the ring takes the start token of its station, which is its first row
    (
        RING,
        "-\n-\n-\n",
        "lid-stations 1\n",
        "3 3 3 0\n",
        "3 token 2 1\n3 take 2 1 fired\n3 void 2 0000000000000000\n0 fired\ny\n1\n",
    ),
];

#[test]
fn schedules_are_walked_step_by_step(rt: HostRuntime) -> Result<(), Fail> {
    for (net, rows, stations, schedule, told) in WALKS {
        let files = [
            ("n.blif", *net),
            ("r.vec", *rows),
            ("s", *stations),
            ("w", *schedule),
        ];
        let words = [
            "walk",
            "n.blif",
            "r.vec",
            "--stations",
            "s",
            "--schedule",
            "w",
        ];
        expect_run(&rt, &words, &files, NONE_FAILS, done(told))?;
    }
    Ok(())
}

/// The dump of two cycles of a register.
const DUMP: &str = "$timescale 1 ns $end\n$scope module lid $end\n$var wire 1 ! s0_valid $end\n\
$var wire 1 \" s0_stop $end\n$var wire 31 # s0_token $end\n$var wire 1 $ s1_valid $end\n\
$var wire 1 % s1_stop $end\n$var wire 31 & s1_token $end\n$upscope $end\n$enddefinitions $end\n\
#0\n1!\n0\"\nb1 #\n1$\n0%\nb0 &\n#1\nb0 #\nb1 &\n#2\n";

/// The same without its last line.
const CUT: &str = "$timescale 1 ns $end\n$scope module lid $end\n$var wire 1 ! s0_valid $end\n\
$var wire 1 \" s0_stop $end\n$var wire 31 # s0_token $end\n$var wire 1 $ s1_valid $end\n\
$var wire 1 % s1_stop $end\n$var wire 31 & s1_token $end\n$upscope $end\n$enddefinitions $end\n\
#0\n1!\n0\"\nb1 #\n1$\n0%\nb0 &\n#1\nb0 #\nb1 &\n";

#[test]
fn traces_are_written_as_dumps(rt: HostRuntime) -> Result<(), Fail> {
    let files = [("n.blif", REGISTER), ("r.vec", "d\n1\n0\n1\n")];
    let words = ["wave", "n.blif", "r.vec", "--trace", "2"];
    expect_run(&rt, &words, &files, NONE_FAILS, done(DUMP))?;
    Ok(())
}

/// Dumps that are read, and what is left.
static DUMPS: &[(&str, u8, &str, &str)] = &[
    (DUMP, 0, "trace 2 2\n1 0\n0 1\n", ""),
    (CUT, 1, "", "lid: vcd Word 20\n"),
    ("", 1, "", "lid: vcd Word 0\n"),
];

#[test]
fn dumps_are_read_as_traces(rt: HostRuntime) -> Result<(), Fail> {
    for (dump, status, out, err) in DUMPS {
        let files = [("t.vcd", *dump)];
        let left = Left {
            status: *status,
            out,
            err,
        };
        expect_run(&rt, &["unwave", "t.vcd"], &files, NONE_FAILS, left)?;
    }
    Ok(())
}

/// The cells of the design of a seed with one shell.
const ONE_SHELL: &str =
    ".model gen\n.inputs x0 x1 x2 x3\n.outputs y0 y1 y2 y3\n.names x3 y0\n1 1\n.names n0_q y1\n\
1 1\n.names n0_r y2\n1 1\n.names n0_r y3\n1 1\n.subckt cel0 a=x0 b=x2 q=n0_q r=n0_r\n.end\n.model cel0\n\
.inputs a b\n.outputs q r\n.names a b dq\n10 1\n01 1\n.names b q dr\n10 1\n01 1\n.latch dq q 0\n.latch dr r 1\n\
.end\n.model cel1\n.inputs a b\n.outputs q r\n.names a b dq\n11 1\n.names b q dr\n10 1\n01 1\n.latch dq q 0\n\
.latch dr r 1\n.end\n.model cel2\n.inputs a b\n.outputs q r\n.names a b dq\n1- 1\n-1 1\n.names b q dr\n10 1\n\
01 1\n.latch dq q 0\n.latch dr r 1\n.end\n.model cel3\n.inputs a b\n.outputs q r\n.names a b dq\n11 0\n\
.names b q dr\n10 1\n01 1\n.latch dq q 0\n.latch dr r 1\n.end\n";

#[test]
fn designs_are_made_of_seeds(rt: HostRuntime) -> Result<(), Fail> {
    let words = ["gen", "2", "--shells", "1"];
    expect_run(&rt, &words, &[], NONE_FAILS, done(ONE_SHELL))?;
    Ok(())
}

#[test]
fn generated_designs_run(rt: HostRuntime) -> Result<(), Fail> {
    let words = ["gen", "2", "--shells", "1", "--run", "3"];
    let told = "shells 1\nchannels 3\nstations 7\nrows 3\nones 6\ncycles 7\nratio 3/7\n";
    expect_run(&rt, &words, &[], NONE_FAILS, done(told))?;
    Ok(())
}
