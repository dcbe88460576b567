//! Lines on the standard error, one for each form of what is told.

ghost use Rattle.std.specs.Prelude.{◌≡◌, ◌∷◌, [], codes, map};
ghost use Rattle.std.specs.Fmt.{decimal};
ghost use Rattle.lid_base_io.specs.Telling.{fault_line, path_text, spelled};
ghost use Rattle.lid_top_refusals.specs.Saying.{Says};
ghost use Rattle.lid_top_refusals.specs.Faults.{which_word, at_line, over_limit, at_inst, with_names};
ghost use Rattle.lid_top_refusals.specs.Told.{told_words};

use crate::told::Told;
use lid_base::{Items, Name, Sink, Which};
use lid_base_io::{Word, tell};

/// Writes a line of words. A sink that fails changes nothing else.
pub fn say<E: Sink>(err: &mut E, words: &[Word<'_>])
    ensures { Says E.written E.pieces E.faults err.old err.new (fault_line (map spelled words.now)) }
{
    let _ = tell(err, words);
}

/// The name of a limit.
fn which_name(which: Which) -> &'static str
    ensures { result.now ≡ which_word which }
{
    match which {
        Which::FileBytes => "FileBytes",
        Which::Models => "Models",
        Which::CoverRows => "CoverRows",
        Which::RootInsts => "RootInsts",
        Which::Depth => "Depth",
        Which::Cells => "Cells",
        Which::Nets => "Nets",
        Which::Rows => "Rows",
        Which::OutBits => "OutBits",
        Which::Words => "Words",
        Which::TraceCells => "TraceCells",
    }
}

/// Says a refusal at a line.
fn say_at<'a, E: Sink>(err: &mut E, stage: &'a str, name: &'a str, line: u32)
    ensures { Says E.written E.pieces E.faults err.old err.new (fault_line (stage.now ∷ at_line name.now line)) }
{
    say(
        err,
        &[
            Word::Text(stage),
            Word::Text(name),
            Word::Number(u64::from(line)),
        ],
    );
}

/// Says that a limit is exceeded.
fn say_limit<E: Sink>(err: &mut E, stage: &str, which: Which, count: u64)
    ensures { Says E.written E.pieces E.faults err.old err.new (fault_line (stage.now ∷ over_limit which count)) }
{
    say(
        err,
        &[
            Word::Text(stage),
            Word::Text("Limit"),
            Word::Text(which_name(which)),
            Word::Number(count),
        ],
    );
}

/// Says how many there are of what may not be so many.
fn say_many<'a, E: Sink>(err: &mut E, stage: &'a str, fault: &'a str, count: u64)
    ensures { Says E.written E.pieces E.faults err.old err.new (fault_line (stage.now ∷ fault.now ∷ decimal count ∷ [])) }
{
    say(
        err,
        &[Word::Text(stage), Word::Text(fault), Word::Number(count)],
    );
}

/// Says that rows were not the same at a second reading.
fn say_changed<E: Sink>(err: &mut E, stage: &str, rows: u64, found: u64)
    ensures { Says E.written E.pieces E.faults err.old err.new (fault_line (stage.now ∷ codes "Changed" ∷ decimal rows ∷ decimal found ∷ [])) }
{
    say(
        err,
        &[
            Word::Text(stage),
            Word::Text("Changed"),
            Word::Number(rows),
            Word::Number(found),
        ],
    );
}

/// Says a refusal with two names.
fn say_names<'a, E: Sink>(
    err: &mut E,
    stage: &'a str,
    fault: &'a str,
    first: &'a Name,
    second: &'a Name,
)
    ensures { Says E.written E.pieces E.faults err.old err.new (fault_line (stage.now ∷ with_names fault.now first.now second.now)) }
{
    say(
        err,
        &[
            Word::Text(stage),
            Word::Text(fault),
            Word::Name(first.as_slice()),
            Word::Name(second.as_slice()),
        ],
    );
}

/// Says a refusal at an instance of a model.
fn say_inst<'a, E: Sink>(
    err: &mut E,
    stage: &'a str,
    fault: &'a str,
    model: &'a Name,
    inst: u32,
    name: &'a Name,
)
    ensures { Says E.written E.pieces E.faults err.old err.new (fault_line (stage.now ∷ at_inst fault.now model.now inst name.now)) }
{
    say(
        err,
        &[
            Word::Text(stage),
            Word::Text(fault),
            Word::Name(model.as_slice()),
            Word::Number(u64::from(inst)),
            Word::Name(name.as_slice()),
        ],
    );
}

/// Says a refusal with one name.
fn say_name<'a, E: Sink>(err: &mut E, stage: &'a str, fault: &'a str, name: &'a Name)
    ensures { Says E.written E.pieces E.faults err.old err.new (fault_line (stage.now ∷ fault.now ∷ name.now ∷ [])) }
{
    say(
        err,
        &[
            Word::Text(stage),
            Word::Text(fault),
            Word::Name(name.as_slice()),
        ],
    );
}

/// Says that a column lies on a closed walk.
fn say_loop<'a, E: Sink>(err: &mut E, stage: &'a str, path: &'a Items<u32>, name: &'a Name)
    ensures { Says E.written E.pieces E.faults err.old err.new (fault_line (stage.now ∷ codes "CombLoop" ∷ path_text path.now ∷ name.now ∷ [])) }
{
    say(
        err,
        &[
            Word::Text(stage),
            Word::Text("CombLoop"),
            Word::Path(path.as_slice()),
            Word::Name(name.as_slice()),
        ],
    );
}

/// Says a refusal with three names.
fn say_three<'a, E: Sink>(
    err: &mut E,
    stage: &'a str,
    fault: &'a str,
    first: &'a Name,
    second: &'a Name,
    third: &'a Name,
)
    ensures { Says E.written E.pieces E.faults err.old err.new (fault_line (stage.now ∷ fault.now ∷ first.now ∷ second.now ∷ third.now ∷ [])) }
{
    say(
        err,
        &[
            Word::Text(stage),
            Word::Text(fault),
            Word::Name(first.as_slice()),
            Word::Name(second.as_slice()),
            Word::Name(third.as_slice()),
        ],
    );
}

/// Says a refusal without fields.
fn say_bare<'a, E: Sink>(err: &mut E, stage: &'a str, fault: &'a str)
    ensures { Says E.written E.pieces E.faults err.old err.new (fault_line (stage.now ∷ fault.now ∷ [])) }
{
    say(err, &[Word::Text(stage), Word::Text(fault)]);
}

/// Says what a refusal tells.
pub fn say_told<'a, E: Sink>(err: &mut E, stage: &'a str, told: Told<'a>)
    ensures { Says E.written E.pieces E.faults err.old err.new (fault_line (stage.now ∷ told_words told.entry)) }
{
    match told {
        Told::Bare(fault) => say_bare(err, stage, fault),
        Told::At(fault, line) => say_at(err, stage, fault, line),
        Told::Over(which, count) => say_limit(err, stage, which, count),
        Told::Many(fault, count) => say_many(err, stage, fault, count),
        Told::Changed(rows, found) => say_changed(err, stage, rows, found),
        Told::One(fault, name) => say_name(err, stage, fault, name),
        Told::Two(fault, first, second) => say_names(err, stage, fault, first, second),
        Told::Three(fault, first, second, third) => {
            say_three(err, stage, fault, first, second, third)
        }
        Told::Inst(fault, model, inst, name) => say_inst(err, stage, fault, model, inst, name),
        Told::Loop(path, name) => say_loop(err, stage, path, name),
        Told::Nothing => say(err, &[Word::Text(stage)]),
    }
}
