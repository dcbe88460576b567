//! Texts of runs, with what the formats say of them, worked out by hand.

use lid_base::{Answer, Items, Name, Shown, Tally, Which, copy_name};
use lid_texts::{
    ChannelLine, Report, SchedFault, Trace, TraceFault, print_answer, print_cycles, print_report,
    print_tallies, print_trace, read_schedule, trace_fits,
};
use std::alloc::Global;

/// What is told of a schedule: the name of its fault, with the line or the count, or the number of
/// its words.
fn told_of(alloc: Global, text: &[u8], actors: u32) -> (&'static str, u64) {
    match read_schedule(alloc, text, actors) {
        Ok(schedule) => ("", schedule.len() as u64),
        Err(SchedFault::Word { line }) => ("Word", u64::from(line)),
        Err(SchedFault::NoActor { line }) => ("NoActor", u64::from(line)),
        Err(
            SchedFault::Limit {
                which: Which::Words,
                count,
            },
        ) => ("Limit Words", count),
        Err(SchedFault::Limit { which: _, count }) => ("Limit FileBytes", count),
        Err(SchedFault::Memory) => ("Memory", 0),
    }
}

/// Whether the schedule of a text for three actors is this.
fn is_read(alloc: Global, text: &[u8], want: &[u32]) -> bool {
    match read_schedule(alloc, text, 3) {
        Ok(schedule) => schedule.as_slice() == want,
        Err(_) => false,
    }
}

#[test]
fn schedules_are_read(rt: HostRuntime) {
    assert!(rt; is_read(rt.alloc(), b"0 1 # a\n\n2 0\\\n1\n", &[0, 1, 2, 0, 1]));
    assert!(rt; is_read(rt.alloc(), b"# nothing\n", &[]));
}

/// Texts of schedules for three actors, and what is told of them.
static SCHEDULES: [(&[u8], (&str, u64)); 8] = [
    (b"0 1\n2 3\n", ("NoActor", 2)),
    (b"0 x\n", ("Word", 1)),
    (b"01\n", ("Word", 1)),
    (b"0\n-1\n", ("Word", 2)),
    (b"18446744073709551615\n", ("NoActor", 1)),
    (b"18446744073709551616\n", ("Word", 1)),
    (b"0\n9 \x01\n", ("Word", 2)),
    (b"3\n\x01\n", ("Word", 2)),
];

#[test]
fn faults_of_schedules_are_told(rt: HostRuntime) {
    for (text, want) in &SCHEDULES {
        assert_eq!(rt; told_of(rt.alloc(), text, 3), *want, "{text:?}");
    }
}

/// What is told of so many words on one line.
fn told_of_many(alloc: Global, words: u32) -> (&'static str, u64) {
    let mut text = Vec::new(alloc);
    for _ in 0..words {
        if text.extend_from_slice(b"0 ").is_err() {
            return ("Memory", 0);
        }
    }
    told_of(alloc, text.as_slice(), 1)
}

#[test]
fn a_schedule_has_a_million_words(rt: HostRuntime) {
    assert_eq!(rt; told_of_many(rt.alloc(), 1_000_000), ("", 1_000_000));
    assert_eq!(rt;
        told_of_many(rt.alloc(), 1_000_001),
        ("Limit Words", 1_000_001)
    );
}

/// What is told where a trace is too large: the count.
fn cells_told(stations: u32, cycles: u64) -> u64 {
    match trace_fits(stations, cycles) {
        Ok(()) => 0,
        Err(TraceFault::Limit { which: _, count }) => count,
    }
}

#[test]
fn traces_fit_up_to_their_limit(rt: HostRuntime) {
    assert_eq!(rt; cells_told(1_024, 1_024), 0);
    assert_eq!(rt; cells_told(1, 1_048_577), 1_048_577);
    assert_eq!(rt; cells_told(0, u64::MAX), 0);
    assert_eq!(rt; cells_told(2, u64::MAX), u64::MAX);
}

/// Whether the answers of actor 3 are these lines.
fn is_answered(alloc: Global, answer: Answer, want: &[u8]) -> bool {
    let mut into = Vec::new(alloc);
    print_answer(3, &answer, &mut into).is_ok() && into.as_slice() == want
}

/// Answers, and their lines.
static ANSWERS: [(Answer, &[u8]); 9] = [
    (
        Answer::Token {
            station: 5,
            token: 7,
        },
        b"3 token 5 7\n",
    ),
    (
        Answer::Void {
            station: 5,
            word: 0,
        },
        b"3 void 5 0000000000000000\n",
    ),
    (Answer::Room { station: 5 }, b"3 room 5\n"),
    (
        Answer::Stop {
            station: 6,
            word: 0x8000_0001_8000_00af,
        },
        b"3 stop 6 80000001800000af\n",
    ),
    (
        Answer::Took {
            station: 5,
            token: 7,
            fired: false,
        },
        b"3 take 5 7\n",
    ),
    (
        Answer::Took {
            station: 5,
            token: 7,
            fired: true,
        },
        b"3 take 5 7 fired\n",
    ),
    (
        Answer::Put {
            station: 9,
            token: 0,
            fired: true,
        },
        b"3 put 9 0 fired\n",
    ),
    (Answer::Fired, b"3 fired\n"),
    (Answer::Done, b"3 done\n"),
];

#[test]
fn answers_are_printed(rt: HostRuntime) {
    for (answer, want) in &ANSWERS {
        assert!(rt; is_answered(rt.alloc(), *answer, want), "{want:?}");
    }
}

/// Whether cycles and firings are printed so.
fn is_counted(alloc: Global, cycles: u64, fired: &[u64], want: &[u8]) -> bool {
    let mut into = Vec::new(alloc);
    fired.len() >= 2 && print_cycles(cycles, fired, &mut into).is_ok() && into.as_slice() == want
}

#[test]
fn cycles_are_printed(rt: HostRuntime) {
    assert!(rt;
        is_counted(
            rt.alloc(),
            5,
            &[3, 4, 2],
            b"cycles 5\nfired in 3\nfired u0 4\nfired out 2\n"
        )
    );
    assert!(rt;
        is_counted(
            rt.alloc(),
            0,
            &[0, 0],
            b"cycles 0\nfired in 0\nfired out 0\n"
        )
    );
}

/// Whether the tallies of two workers are printed as the formats say.
fn are_tallied(alloc: Global) -> bool {
    let tally = Tally {
        turns: 10,
        fired: 1,
        voids: 2,
        stops: 3,
        dones: 4,
    };
    let none = Tally {
        turns: 0,
        fired: 0,
        voids: 0,
        stops: 0,
        dones: 0,
    };
    let mut into = Vec::new(alloc);
    print_tallies(&[tally, none], 6, 7, &mut into).is_ok()
        && into.as_slice()
            == b"worker 0 turns 10 fired 1 voids 2 stops 3 dones 4\nworker 1 turns 0 fired 0 voids 0 stops 0 dones 0\nfinish 6 fired 7\n".as_slice()
}

#[test]
fn tallies_are_printed(rt: HostRuntime) {
    assert!(rt; are_tallied(rt.alloc()));
}

fn cell(valid: bool, stop: bool, token: u32) -> Shown {
    Shown { valid, stop, token }
}

/// Whether a trace of two stations and three cycles is printed as the formats say, and one without
/// stations.
fn are_traced(alloc: Global) -> bool {
    let shown = [
        cell(true, false, 0),
        cell(false, false, 0),
        cell(true, true, 12),
        cell(false, true, 0),
        cell(false, false, 0),
        cell(true, false, 5),
    ];
    let Ok(cells) = Vec::from_slice(alloc, &shown) else {
        return false;
    };
    let trace = Trace {
        stations: 2,
        cycles: 3,
        cells: Items::from_vec(cells),
    };
    let mut into = Vec::new(alloc);
    print_trace(&trace, &mut into).is_ok()
        && into.as_slice() == b"trace 2 3\n0 .\n12! .\n. 5\n".as_slice()
}

/// Whether a trace without stations is printed as the formats say.
fn is_traced_without_stations(alloc: Global) -> bool {
    let trace = Trace {
        stations: 0,
        cycles: 2,
        cells: Items::from_vec(Vec::new(alloc)),
    };
    let mut into = Vec::new(alloc);
    print_trace(&trace, &mut into).is_ok() && into.as_slice() == b"trace 0 2\n-\n-\n".as_slice()
}

#[test]
fn traces_are_printed(rt: HostRuntime) {
    assert!(rt; are_traced(rt.alloc()));
    assert!(rt; is_traced_without_stations(rt.alloc()));
}

/// Whether a report is printed as the formats say.
fn is_reported(alloc: Global, root: Name) -> bool {
    let lines = [
        ChannelLine {
            from: 0,
            to: 1,
            piece: 0,
            ports: 2,
        },
        ChannelLine {
            from: 2,
            to: 3,
            piece: 1,
            ports: 31,
        },
    ];
    let Ok(channels) = Vec::from_slice(alloc, &lines) else {
        return false;
    };
    let report = Report {
        root,
        shells: 2,
        inputs: 3,
        outputs: 1,
        latches: 4,
        defaulted: 0,
        channels: Items::from_vec(channels),
    };
    let mut into = Vec::new(alloc);
    print_report(&report, &mut into).is_ok()
        && into.as_slice()
            == b"root top\nshells 2\ninputs 3\noutputs 1\nlatches 4\ndefaulted 0\nchannels 2\nchannel in u0 0 ports 2\nchannel u1 out 1 ports 31\n".as_slice()
}

#[test]
fn reports_are_printed(rt: HostRuntime) {
    match copy_name(rt.alloc(), b"top") {
        Ok(root) => assert!(rt; is_reported(rt.alloc(), root)),
        Err(_) => assert!(rt; false, "no memory"),
    }
}
