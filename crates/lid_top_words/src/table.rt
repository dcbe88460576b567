//! The table of the commands, and the names of the options.
//!
//! The same table stands in `specs/Table.antt`, and the two are shown to be equal.

/// The place of the command's word.
pub const COMMAND: &str = "command";
/// The place of the files.
pub const FILES: &str = "files";
/// The option with the name of the root model.
pub const ROOT: &str = "root";
/// The option with the file of the stalls.
pub const STALLS: &str = "stalls";
/// The option with the file of the stations.
pub const STATIONS: &str = "stations";
/// The option with the file of the schedule.
pub const SCHEDULE: &str = "schedule";
/// The option with the file of the wires.
pub const WIRES: &str = "wires";
/// The option with the length that a signal comes in one clock cycle.
pub const REACH: &str = "reach";
/// The option with the number of workers.
pub const WORKERS: &str = "workers";
/// The option with the number of rounds.
pub const ROUNDS: &str = "rounds";
/// The option with the number of cycles of the trace.
pub const TRACE: &str = "trace";
/// The option with the number of shells.
pub const SHELLS: &str = "shells";
/// The option with the number of rows of a run.
pub const RUN: &str = "run";
/// The flag that asks for the tallies.
pub const TALLY: &str = "tally";

/// The options of all commands; each has one value.
pub static OPTIONS: [&str; 11] = [
    ROOT, STATIONS, STALLS, WORKERS, TRACE, SCHEDULE, ROUNDS, WIRES, REACH, SHELLS, RUN,
];

/// A command of the table.
#[derive(Clone, Copy)]
pub enum Command {
    Check,
    Strict,
    Clock,
    Walk,
    Free,
    Rate,
    Verify,
    Place,
    Gen,
    Wave,
    Unwave,
    Emit,
    Slack,
    Size,
}

/// The form of the words of a command: the command, the word that names it, what stands in the
/// places after that word, the options that must stand, the further options that may stand, and
/// whether the flag may stand.
pub type Form = (
    Command,
    &'static str,
    &'static [&'static str],
    &'static [&'static str],
    &'static [&'static str],
    bool,
);

/// The table of the commands.
pub static FORMS: [Form; 14] = [
    (Command::Check, "check", &["NET"], &[], &[ROOT], false),
    (
        Command::Strict,
        "strict",
        &["NET", "VEC"],
        &[],
        &[ROOT],
        false,
    ),
    (
        Command::Clock,
        "clock",
        &["NET", "VEC"],
        &[],
        &[ROOT, STATIONS, STALLS, WORKERS, TRACE],
        false,
    ),
    (
        Command::Walk,
        "walk",
        &["NET", "VEC"],
        &[SCHEDULE],
        &[ROOT, STATIONS],
        false,
    ),
    (
        Command::Free,
        "free",
        &["NET", "VEC"],
        &[],
        &[ROOT, STATIONS, WORKERS, ROUNDS],
        true,
    ),
    (
        Command::Rate,
        "rate",
        &["NET"],
        &[],
        &[ROOT, STATIONS],
        false,
    ),
    (
        Command::Verify,
        "verify",
        &["NET", "CERT"],
        &[],
        &[ROOT, STATIONS],
        false,
    ),
    (
        Command::Place,
        "place",
        &["NET"],
        &[WIRES, REACH],
        &[ROOT],
        false,
    ),
    (Command::Gen, "gen", &["SEED"], &[SHELLS], &[RUN], false),
    (
        Command::Wave,
        "wave",
        &["NET", "VEC"],
        &[TRACE],
        &[ROOT, STATIONS],
        false,
    ),
    (Command::Unwave, "unwave", &["FILE"], &[], &[], false),
    (
        Command::Emit,
        "emit",
        &["NET"],
        &[],
        &[ROOT, STATIONS],
        false,
    ),
    (
        Command::Slack,
        "slack",
        &["NET"],
        &[],
        &[ROOT, STATIONS],
        false,
    ),
    (
        Command::Size,
        "size",
        &["NET"],
        &[],
        &[ROOT, STATIONS],
        false,
    ),
];

/// An option or a place that is a number, with the least and the greatest number that may stand
/// there.
pub type Range = (&'static str, u64, u64);

/// The options and the place that are numbers.
pub static RANGES: [Range; 7] = [
    (WORKERS, 1, 64),
    (ROUNDS, 0, 1_000_000),
    (TRACE, 1, 1_048_576),
    (REACH, 1, 9_223_372_036_854_775_807),
    (SHELLS, 0, 4_294_967_295),
    (RUN, 1, 1_000_000),
    ("SEED", 0, 18_446_744_073_709_551_615),
];
