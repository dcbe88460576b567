//! Placements, their rates and certificates, through the top call. What is expected is worked out by hand
//! from the definition of a marking, its closed walks and lags.

use crate::net_tests::{ONE_RELAY, PIPE, RING};
use crate::report_tests::DIAMOND;
use crate::tests::{NONE_FAILS, REGISTER, done, ended, expect_run, left_by, run_failing};
use std::str::from_utf8;
use std::test::Fail;

/// Wires, and how they end `place` with a reach of 1,000: its status, and what it prints or says.
static WIRES: &[(&str, &str, u8, &str)] = &[
    (
        PIPE,
        "lid-wires 1\nu0 u1 0 2500\nu3 u0 0 1800\n",
        0,
        "lid-stations 1\nin u0 0 0\nu0 u1 0 2\nu1 u2 0 0\nu2 u3 0 0\nu3 u0 0 1\nu3 out 0 0\n",
    ),
    // a wire as long as the reach needs none, one of the double length needs one
    (
        RING,
        "lid-wires 1\nu0 u1 0 1000\nu1 u0 0 2000\n",
        0,
        "lid-stations 1\nu0 u1 0 0\nu1 u0 0 1\nu1 out 0 0\n",
    ),
    (
        PIPE,
        "lid-wires 1\nu0 u1 0 0\n",
        1,
        "lid: stations ZeroLength 2\n",
    ),
    (
        RING,
        "lid-wires 1\nu0 u1 0 65001\n",
        1,
        "lid: stations TooMany 2\n",
    ),
    (RING, "", 1, "lid: stations Word 0\n"),
];

#[test]
fn long_wires_get_relay_stations(rt: HostRuntime) -> Result<(), Fail> {
    for (net, wires, status, told) in WIRES {
        let files = [("n.blif", *net), ("w", *wires)];
        let words = ["place", "n.blif", "--wires", "w", "--reach", "1000"];
        expect_run(&rt, &words, &files, NONE_FAILS, left_by(*status, told))?;
    }
    Ok(())
}

/// A certificate of the ring with one relay station.
const RING_CERT: &str =
    "lid-cert 1\npart 1\nratio 1 1\ncycle 8\nnode 0 0 0 0 -\npart 4\nratio 2 3\n\
cycle 0 2 4\nnode 1 1 2 0 -\nnode 2 2 5 1 5\nnode 3 1 8 2 6\nnode 4 0 5 1 0\n";

/// What `verify` tells of it.
const RING_VERDICT: &str = "certificate ok\npart 0 ratio 1/1\npart 1 ratio 2/3\nsink lag 1\n";

/// Texts of certificates for the ring with one relay station, and how they end `verify`: its status, and
/// what it prints or says.
static CERTS: &[(&str, u8, &str)] = &[
    (RING_CERT, 0, RING_VERDICT),
    // the lag of node 2 is too low for edge 2
    (
        "lid-cert 1\npart 1\nratio 1 1\ncycle 8\nnode 0 0 0 0 -\npart 4\nratio 2 3\ncycle 0 2 4\n\
node 1 1 2 0 -\nnode 2 1 5 1 5\nnode 3 1 8 2 6\nnode 4 0 5 1 0\n",
        6,
        "lid: not a certificate\n",
    ),
    // the lag of node 1 is too high for edge 0
    (
        "lid-cert 1\npart 1\nratio 1 1\ncycle 8\nnode 0 0 0 0 -\npart 4\nratio 2 3\ncycle 0 2 4\n\
node 1 2 2 0 -\nnode 2 2 5 1 5\nnode 3 1 8 2 6\nnode 4 0 5 1 0\n",
        6,
        "lid: not a certificate\n",
    ),
    // there is no edge 99
    (
        "lid-cert 1\npart 1\nratio 1 1\ncycle 99\nnode 0 0 0 0 -\npart 4\nratio 2 3\ncycle 0 2 4\n\
node 1 1 2 0 -\nnode 2 2 5 1 5\nnode 3 1 8 2 6\nnode 4 0 5 1 0\n",
        6,
        "lid: not a certificate\n",
    ),
    // the depth of node 2 is that of the start
    (
        "lid-cert 1\npart 1\nratio 1 1\ncycle 8\nnode 0 0 0 0 -\npart 4\nratio 2 3\ncycle 0 2 4\n\
node 1 1 2 0 -\nnode 2 2 5 0 5\nnode 3 1 8 2 6\nnode 4 0 5 1 0\n",
        6,
        "lid: not a certificate\n",
    ),
    // a lag may be greater than it needs to be
    (
        "lid-cert 1\npart 1\nratio 1 1\ncycle 8\nnode 0 4611686018427387903 0 0 -\npart 4\n\
ratio 2 3\ncycle 0 2 4\nnode 1 1 2 0 -\nnode 2 2 5 1 5\nnode 3 1 8 2 6\nnode 4 0 5 1 0\n",
        0,
        RING_VERDICT,
    ),
    // the text ends inside a part
    (
        "lid-cert 1\npart 1\nratio 1 1\ncycle 8\nnode 0 0 0 0 -\npart 4\nratio 2 3\ncycle 0 2 4\n",
        1,
        "lid: cert Word 8\n",
    ),
    ("lid-cert 1\n", 6, "lid: not a certificate\n"),
];

#[test]
fn certificates_are_judged(rt: HostRuntime) -> Result<(), Fail> {
    for (cert, status, told) in CERTS {
        let files = [("n.blif", RING), ("s", ONE_RELAY), ("c", *cert)];
        let words = ["verify", "n.blif", "c", "--stations", "s"];
        expect_run(&rt, &words, &files, NONE_FAILS, left_by(*status, told))?;
    }
    Ok(())
}

/// Netlists with stations, what `verify` tells of the certificate that `rate` prints, and how some lines
/// of that begin: the ratios, and the least lags of transitions.
static RATES: &[(&str, &str, &str, &[&str])] = &[
    (
        REGISTER,
        "lid-stations 1\nu0 out 0 2\n",
        "certificate ok\npart 0 ratio 1/1\nsink lag 2\n",
        &["ratio 1 1", "node 2 2 "],
    ),
    (RING, ONE_RELAY, RING_VERDICT, &["ratio 2 3", "node 3 1 "]),
    (
        DIAMOND,
        "lid-stations 1\nu0 u1 0 3\n",
        "certificate ok\npart 0 ratio 1/2\nsink lag 2\n",
        &[
            "ratio 1 2",
            "node 0 0 ",
            "node 1 1 ",
            "node 2 3 ",
            "node 3 2 ",
            "node 4 2 ",
            "node 5 0 ",
            "node 6 1 ",
            "node 7 2 ",
        ],
    ),
    // one place more on the short way
    (
        DIAMOND,
        "lid-stations 2\nu0 u1 0 3 2 2 2 2\nu0 u2 0 0 3\n",
        "certificate ok\npart 0 ratio 2/3\nsink lag 5\n",
        &["ratio 2 3"],
    ),
    // places enough wherever tokens wait
    (
        DIAMOND,
        "lid-stations 2\nu0 u1 0 3 2 16 2 2\nu0 u2 0 0 16\nin u0 0 0 16\n",
        "certificate ok\npart 0 ratio 1/1\nsink lag 3\n",
        &["ratio 1 1", "node 3 3 ", "node 7 2 "],
    ),
    // three more behind it
    (
        DIAMOND,
        "lid-stations 2\nin u0 0 0 2\nu0 u1 0 3 2 2 2 2\nu0 u2 0 0 2\nu1 out 0 0 2\nu2 u1 0 0 5\n",
        "certificate ok\npart 0 ratio 1/1\nsink lag 3\n",
        &["ratio 1 1"],
    ),
    (
        PIPE,
        "lid-stations 1\nu0 u1 0 2\nu3 u0 0 1\n",
        "certificate ok\npart 0 ratio 4/7\nsink lag 0\n",
        &["ratio 4 7"],
    ),
];

/// Whether a line of a text begins so.
fn has_line(text: &str, start: &str) -> bool {
    for line in text.lines() {
        if line.starts_with(start) {
            return true;
        }
    }
    false
}

/// Finds a certificate of each netlist with its stations, looks at its lines, and verifies it.
#[test]
fn rates_are_those_of_the_slowest_walks(rt: HostRuntime) -> Result<(), Fail> {
    for (net, stations, verdict, starts) in RATES {
        let files = [("n.blif", *net), ("s", *stations)];
        let words = ["rate", "n.blif", "--stations", "s"];
        let ran = run_failing(&rt, &words, &files, NONE_FAILS)?;
        let cert = match from_utf8(ran.out.written()) {
            Ok(cert) => cert,
            Err(_) => "",
        };
        for start in *starts {
            assert!(rt; has_line(cert, start), "no such line: {start}");
        }
        let files = [("n.blif", *net), ("s", *stations), ("c", cert)];
        let words = ["verify", "n.blif", "c", "--stations", "s"];
        expect_run(&rt, &words, &files, NONE_FAILS, done(verdict))?;
    }
    Ok(())
}

#[test]
fn words_of_stations_have_at_most_1024_bytes(rt: HostRuntime) -> Result<(), Fail> {
    let mut stations = String::from_str(rt.alloc(), "lid-stations 1\n# a comment of any length\n")?;
    for _ in 0..1_025u32 {
        stations.push('u')?;
    }
    let files = [("n.blif", RING), ("s", stations.as_str())];
    let words = ["rate", "n.blif", "--stations", "s"];
    let left = ended(1, "lid: stations Word 3\n");
    expect_run(&rt, &words, &files, NONE_FAILS, left)?;
    Ok(())
}

#[test]
fn without_stations_no_channel_has_a_relay_station(rt: HostRuntime) -> Result<(), Fail> {
    let files = [("n.blif", RING)];
    let words = ["rate", "n.blif", "--root", "ring"];
    let ran = run_failing(&rt, &words, &files, NONE_FAILS)?;
    let cert = match from_utf8(ran.out.written()) {
        Ok(cert) => cert,
        Err(_) => "",
    };
    let files = [("n.blif", RING), ("c", cert)];
    let verdict = "certificate ok\npart 0 ratio 1/1\npart 1 ratio 1/1\nsink lag 0\n";
    let words = ["verify", "--root=ring", "n.blif", "c"];
    expect_run(&rt, &words, &files, NONE_FAILS, done(verdict))?;
    let words = ["verify", "n.blif", "c", "--root", "none"];
    let left = ended(1, "lid: check NoRoot\n");
    expect_run(&rt, &words, &files, NONE_FAILS, left)?;
    Ok(())
}
