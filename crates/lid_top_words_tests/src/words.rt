//! Words and the jobs that they are: the expected values are those of the table of commands and of
//! what `clap` says of options, their values and `--`.

use Asked::{Check, Free, Nothing, Place, Rate, Strict, Verify};
use lid_base::{Name, Text};
use lid_top_words::{Job, read_words};
use std::alloc::{AllocError, Global};
use std::convert::AsStr;

/// What words ask for: the names of files, numbers, and last the root.
#[derive(Clone, Copy)]
enum Asked {
    /// No job.
    Nothing,
    Check(&'static str, Option<&'static str>),
    Strict(&'static str, &'static str, Option<&'static str>),
    Place(&'static str, &'static str, u64, Option<&'static str>),
    Rate(&'static str, Option<&'static str>, Option<&'static str>),
    Verify(&'static str, &'static str, Option<&'static str>, Option<&'static str>),
    /// The file of stations, workers, rounds, and whether tallies are asked for, of the files `a` and `b`.
    Free(Option<&'static str>, u64, u64, bool),
}

/// The job of `strict a b`.
const PLAIN: Asked = Strict("a", "b", None);
/// The job of `strict a b` with the root `m`.
const ROOTED: Asked = Strict("a", "b", Some("m"));

/// Words and what they ask for.
static CASES: [(&[&str], Asked); 77] = [
    // the number of files, and their order
    (&["strict", "a", "b"], PLAIN),
    (&["strict", "b", "a"], Strict("b", "a", None)),
    (&["strict", "a", "a"], Strict("a", "a", None)),
    (
        &["strict", "strict", "strict"],
        Strict("strict", "strict", None),
    ),
    (&["strict"], Nothing),
    (&["strict", "a"], Nothing),
    (&["strict", "a", "b", "c"], Nothing),
    (&["strict", "a", "b", "a", "b"], Nothing),
    // the command
    (&[], Nothing),
    (&[""], Nothing),
    (&["", "a", "b"], Nothing),
    (&["a", "b"], Nothing),
    (&["a", "strict", "b"], Nothing),
    (&["Strict", "a", "b"], Nothing),
    (&["strictly", "a", "b"], Nothing),
    (&["stric", "a", "b"], Nothing),
    (&["unknown", "a", "b"], Nothing),
    (&["str\u{131}ct", "a", "b"], Nothing),
    // names of files
    (&["strict", "", ""], Strict("", "", None)),
    (&["strict", "-", "-"], Strict("-", "-", None)),
    (&["strict", "a b", "c=d"], Strict("a b", "c=d", None)),
    (
        &["strict", "n\u{e9}t", "\u{3c9}\u{1f600}"],
        Strict("n\u{e9}t", "\u{3c9}\u{1f600}", None),
    ),
    (&["strict", "-a", "b"], Nothing),
    (&["strict", "a", "-1"], Nothing),
    // the root, with its value in the next word or after `=`
    (&["--root", "m", "strict", "a", "b"], ROOTED),
    (&["strict", "--root", "m", "a", "b"], ROOTED),
    (&["strict", "a", "--root", "m", "b"], ROOTED),
    (&["strict", "a", "b", "--root", "m"], ROOTED),
    (&["--root=m", "strict", "a", "b"], ROOTED),
    (&["strict", "a", "--root=m", "b"], ROOTED),
    (&["strict", "a", "b", "--root=m"], ROOTED),
    (
        &["strict", "a", "b", "--root=\u{3c9}"],
        Strict("a", "b", Some("\u{3c9}")),
    ),
    (
        &["strict", "a", "b", "--root==m=n"],
        Strict("a", "b", Some("=m=n")),
    ),
    (&["strict", "a", "b", "--root="], Strict("a", "b", Some(""))),
    (
        &["strict", "a", "b", "--root", ""],
        Strict("a", "b", Some("")),
    ),
    (
        &["strict", "a", "b", "--root", "-"],
        Strict("a", "b", Some("-")),
    ),
    (
        &["strict", "a", "b", "--root=-m"],
        Strict("a", "b", Some("-m")),
    ),
    (
        &["strict", "a", "b", "--root=--"],
        Strict("a", "b", Some("--")),
    ),
    (&["strict", "a", "b", "--root", "-m"], Nothing),
    (&["strict", "a", "b", "--root", "--", "m"], Nothing),
    (&["strict", "a", "b", "--root"], Nothing),
    (&["--root", "strict", "a", "b"], Nothing),
    (&["strict", "a", "b", "--root", "m", "n"], Nothing),
    (&["strict", "a", "b", "--root", "m", "--root", "m"], Nothing),
    (&["strict", "a", "b", "--root=m", "--root=n"], Nothing),
    (&["strict", "a", "b", "--roo", "m"], Nothing),
    (&["strict", "a", "b", "--roots", "m"], Nothing),
    (&["strict", "a", "b", "--Root", "m"], Nothing),
    (&["strict", "a", "b", "-root", "m"], Nothing),
    (&["strict", "a", "b", "-r", "m"], Nothing),
    // after `--` all words are places
    (&["--", "strict", "a", "b"], PLAIN),
    (&["strict", "--", "a", "b"], PLAIN),
    (&["strict", "a", "--", "b"], PLAIN),
    (&["strict", "a", "b", "--"], PLAIN),
    (&["strict", "--root=m", "--", "a", "b"], ROOTED),
    (
        &["strict", "--", "-a", "--root"],
        Strict("-a", "--root", None),
    ),
    (
        &["strict", "--", "--", "--tally"],
        Strict("--", "--tally", None),
    ),
    (&["strict", "--", "a", "b", "--root=m"], Nothing),
    // there is no help and no version
    (&["--help"], Nothing),
    (&["-h"], Nothing),
    (&["help"], Nothing),
    (&["--version"], Nothing),
    (&["-V"], Nothing),
    (&["strict", "a", "b", "--help"], Nothing),
    (&["strict", "a", "b", "-h"], Nothing),
    (&["strict", "a", "b", "--version"], Nothing),
    (&["strict", "a", "b", "-V"], Nothing),
    (&["strict", "--help", "a"], Nothing),
    // options of no command, and of another one
    (&["strict", "a", "b", "--unknown"], Nothing),
    (&["strict", "a", "b", "--unknown=c"], Nothing),
    (&["strict", "a", "b", "--=c"], Nothing),
    (&["strict", "a", "b", "--workers", "2"], Nothing),
    (&["clock", "a"], Nothing),
    (&["strict", "a", "b", "--tally"], Nothing),
    (&["--tally", "strict", "a", "b"], Nothing),
    (&["strict", "a", "b", "--tally=true"], Nothing),
    (&["strict", "a", "b", "--tally", "--tally"], Nothing),
];

/// Words of the commands that read no rows.
static ONE_FILE: [(&[&str], Asked); 24] = [
    (&["check", "a"], Check("a", None)),
    (&["check", "strict"], Check("strict", None)),
    (&["--root=m", "check", "a"], Check("a", Some("m"))),
    (&["check", "a", "--root", "m"], Check("a", Some("m"))),
    (&["check", "--", "--root"], Check("--root", None)),
    (&["check"], Nothing),
    (&["check", "a", "b"], Nothing),
    (&["check", "a", "--tally"], Nothing),
    (&["check", "a", "--stations=c"], Nothing),
    (
        &["place", "a", "--wires", "w", "--reach", "10"],
        Place("a", "w", 10, None),
    ),
    (
        &["--reach=1", "place", "--wires=w", "a", "--root=m"],
        Place("a", "w", 1, Some("m")),
    ),
    (
        &["place", "a", "--wires=w", "--reach=9223372036854775807"],
        Place("a", "w", 9_223_372_036_854_775_807, None),
    ),
    (
        &["place", "a", "--wires=w", "--reach=9223372036854775808"],
        Nothing,
    ),
    (&["place", "a", "--wires=w", "--reach=0"], Nothing),
    (&["place", "a", "--wires=w", "--reach=01"], Nothing),
    (&["place", "a", "--wires=w"], Nothing),
    (&["place", "a", "--reach=1"], Nothing),
    (&["rate", "a"], Rate("a", None, None)),
    (
        &["rate", "a", "--root=m", "--stations=s"],
        Rate("a", Some("s"), Some("m")),
    ),
    (&["rate", "a", "b"], Nothing),
    (&["rate", "a", "--wires=w"], Nothing),
    (&["verify", "a", "c"], Verify("a", "c", None, None)),
    (
        &["verify", "--stations=s", "c", "a"],
        Verify("c", "a", Some("s"), None),
    ),
    (&["verify", "a"], Nothing),
];

/// Words of the command that runs threads.
static FREE: [(&[&str], Asked); 13] = [
    (&["free", "a", "b"], Free(None, 1, 1_000, false)),
    (&["--tally", "free", "a", "b"], Free(None, 1, 1_000, true)),
    (
        &["free", "a", "b", "--workers=64", "--rounds=0"],
        Free(None, 64, 0, false),
    ),
    (
        &[
            "free",
            "a",
            "--stations",
            "s",
            "b",
            "--rounds=1000000",
            "--tally",
        ],
        Free(Some("s"), 1, 1_000_000, true),
    ),
    (&["free", "a"], Nothing),
    (&["free", "a", "b", "--workers=0"], Nothing),
    (&["free", "a", "b", "--workers=65"], Nothing),
    (&["free", "a", "b", "--rounds=1000001"], Nothing),
    (&["free", "a", "b", "--rounds=-1"], Nothing),
    (&["free", "a", "b", "--tally=yes"], Nothing),
    (&["free", "a", "b", "--tally", "--tally"], Nothing),
    (&["free", "a", "b", "--stalls=h"], Nothing),
    (&["free", "a", "b", "--trace=1"], Nothing),
];

/// Options with a value that other commands have.
static OTHERS: [&str; 10] = [
    "--stations=c",
    "--stalls=c",
    "--workers=1",
    "--trace=1",
    "--schedule=c",
    "--rounds=1",
    "--wires=c",
    "--reach=1",
    "--shells=1",
    "--run=1",
];

fn texts_of(alloc: Global, words: &[&str]) -> Result<Vec<Text>, AllocError> {
    let mut texts = Vec::new(alloc);
    for word in words {
        texts.push(Text::new(String::from_str(alloc, word)?))?;
    }
    Ok(texts)
}

fn is_root(root: Option<&Name>, expected: Option<&str>) -> bool {
    match (root, expected) {
        (Some(name), Some(text)) => name.as_slice() == text.as_bytes(),
        (None, None) => true,
        _ => false,
    }
}

fn is_file(file: Option<&Text>, expected: Option<&str>) -> bool {
    match (file, expected) {
        (Some(name), Some(text)) => name.as_str() == text,
        (None, None) => true,
        _ => false,
    }
}

/// Whether a job of one file, or of rows, is this one.
fn is_plain(job: &Job, asked: Asked) -> bool {
    match (job, asked) {
        (Job::Check { net, root }, Check(a, m)) => net.as_str() == a && is_root(root.as_ref(), m),
        (Job::Strict { net, vec, root }, Strict(a, b, m)) => {
            net.as_str() == a && vec.as_str() == b && is_root(root.as_ref(), m)
        }
        _ => false,
    }
}

/// Whether a job on stations is this one.
fn is_placed(job: &Job, asked: Asked) -> bool {
    match (job, asked) {
        (
            Job::Place {
                net,
                wires,
                reach,
                root,
            },
            Place(a, w, r, m),
        ) => net.as_str() == a && wires.as_str() == w && *reach == r && is_root(root.as_ref(), m),
        (
            Job::Rate {
                net,
                stations,
                root,
            },
            Rate(a, s, m),
        ) => net.as_str() == a && is_file(stations.as_ref(), s) && is_root(root.as_ref(), m),
        (
            Job::Verify {
                net,
                cert,
                stations,
                root,
            },
            Verify(a, c, s, m),
        ) => {
            net.as_str() == a
                && cert.as_str() == c
                && is_file(stations.as_ref(), s)
                && is_root(root.as_ref(), m)
        }
        _ => false,
    }
}

/// Whether a job of threads is this one, on the files `a` and `b`.
fn is_free(job: &Job, asked: Asked) -> bool {
    match (job, asked) {
        (
            Job::Free {
                net,
                vec,
                stations,
                workers,
                rounds,
                tally,
                root,
            },
            Free(s, w, r, t),
        ) => {
            net.as_str() == "a"
                && vec.as_str() == "b"
                && is_file(stations.as_ref(), s)
                && (*workers, *rounds, *tally) == (w, r, t)
                && root.is_none()
        }
        _ => false,
    }
}

fn is_asked(job: Option<&Job>, asked: Asked) -> bool {
    match (job, asked) {
        (Some(job), asked) => is_plain(job, asked) || is_placed(job, asked) || is_free(job, asked),
        (None, Nothing) => true,
        (None, _) => false,
    }
}

fn job_of(alloc: Global, words: &[&str]) -> Result<Option<Job>, AllocError> {
    let texts = texts_of(alloc, words)?;
    read_words(alloc, &texts)
}

/// Whether words ask for this.
fn are_words_of(alloc: Global, words: &[&str], asked: Asked) -> bool {
    match job_of(alloc, words) {
        Ok(job) => is_asked(job.as_ref(), asked),
        Err(_) => false,
    }
}

/// Whether `strict a b` with one more option is no job.
fn is_refused(alloc: Global, option: &str) -> bool {
    are_words_of(alloc, &["strict", "a", "b", option], Nothing)
}

#[test]
fn words_are_the_jobs_of_the_table(rt: HostRuntime) {
    for (words, asked) in &CASES {
        assert!(rt; are_words_of(rt.alloc(), words, *asked), "{words:?}");
    }
    for (words, asked) in &ONE_FILE {
        assert!(rt; are_words_of(rt.alloc(), words, *asked), "{words:?}");
    }
    for (words, asked) in &FREE {
        assert!(rt; are_words_of(rt.alloc(), words, *asked), "{words:?}");
    }
    for option in &OTHERS {
        assert!(rt; is_refused(rt.alloc(), option), "{option}");
    }
}
