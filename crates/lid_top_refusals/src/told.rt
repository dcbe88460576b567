//! What a refusal tells: its name and its fields, as the words of one line.

ghost use Rattle.std.specs.Prelude.{◌≡◌, true};
ghost use Rattle.lid_top_refusals.specs.Faults.{text_words, blif_words, rows_words, net_words, place_words, cert_words, trace_words, stalls_words, schedule_words, vcd_words, gen_words, emit_words, is_at_inst, check_words};
ghost use Rattle.lid_top_refusals.specs.Told.{told_words};

use lid_base::{Items, Name, TextFault, Which};
use lid_blif::BlifFault;
use lid_cert_text::CertFault;
use lid_check_rules::CheckFault;
use lid_emit_meaning::EmitFault;
use lid_gen::GenFault;
use lid_net_channels::NetFault;
use lid_stall_text::StallFault;
use lid_stations_text::PlaceFault;
use lid_texts::VecFault;
use lid_texts_runs::{SchedFault, TraceFault};
use lid_vcd::VcdFault;

/// A refusal by its name and its fields.
#[derive(Clone, Copy)]
pub enum Told<'a> {
    /// No field.
    Bare(&'a str),
    /// The number of a line.
    At(&'a str, u32),
    /// A limit that is exceeded, and the count.
    Over(Which, u64),
    /// How many there are of what may not be so many.
    Many(&'a str, u64),
    /// How many rows there were at first, and how many were found then.
    Changed(u64, u64),
    /// A name.
    One(&'a str, &'a Name),
    /// Two names.
    Two(&'a str, &'a Name, &'a Name),
    /// Three names.
    Three(&'a str, &'a Name, &'a Name, &'a Name),
    /// A model, the number of an instance in it, and a name.
    Inst(&'a str, &'a Name, u32, &'a Name),
    /// A column on a closed walk, by its path and its name.
    Loop(&'a Items<u32>, &'a Name),
    /// Want of memory is no refusal.
    Nothing,
}

/// What a fault of lines and words tells.
fn told_of_text(fault: TextFault) -> Told<'static>
    ensures { told_words result ≡ text_words fault }
{
    match fault {
        TextFault::BadByte { line } => Told::At("BadByte", line),
        TextFault::NameTooLong { line } => Told::At("NameTooLong", line),
        TextFault::Memory => Told::Nothing,
    }
}

/// What a refusal of a netlist tells.
pub fn told_of_blif(fault: BlifFault) -> Told<'static>
    ensures { told_words result ≡ blif_words fault }
{
    match fault {
        BlifFault::Text(fault) => told_of_text(fault),
        BlifFault::NoModel { line } => Told::At("NoModel", line),
        BlifFault::Unsupported { line } => Told::At("Unsupported", line),
        BlifFault::Arity { line } => Told::At("Arity", line),
        BlifFault::RowOutside { line } => Told::At("RowOutside", line),
        BlifFault::RowShape { line } => Told::At("RowShape", line),
        BlifFault::MixedRows { line } => Told::At("MixedRows", line),
        BlifFault::LatchType { line } => Told::At("LatchType", line),
        BlifFault::LatchInit { line } => Told::At("LatchInit", line),
        BlifFault::BindShape { line } => Told::At("BindShape", line),
        BlifFault::DuplicateModel { line } => Told::At("DuplicateModel", line),
        BlifFault::TooManyInputs { line } => Told::At("TooManyInputs", line),
        BlifFault::Limit { which, count } => Told::Over(which, count),
        BlifFault::Memory => Told::Nothing,
    }
}

/// What a refusal of rows tells.
pub fn told_of_rows(fault: VecFault) -> Told<'static>
    ensures { told_words result ≡ rows_words fault }
{
    match fault {
        VecFault::Header => Told::Bare("Header"),
        VecFault::Width { line } => Told::At("Width", line),
        VecFault::Char { line } => Told::At("Char", line),
        VecFault::Limit { which, count } => Told::Over(which, count),
        VecFault::Changed { rows, found } => Told::Changed(rows, found),
        VecFault::Memory => Told::Nothing,
    }
}

/// What a refusal of a system tells.
pub fn told_of_net(fault: NetFault) -> Told<'static>
    ensures { told_words result ≡ net_words fault }
{
    match fault {
        NetFault::TooManyChannels { count } => Told::Many("TooManyChannels", count),
        NetFault::Memory => Told::Nothing,
    }
}

/// What a refusal of stations or wires tells.
pub fn told_of_place(fault: PlaceFault) -> Told<'static>
    ensures { told_words result ≡ place_words fault }
{
    match fault {
        PlaceFault::Word { line } => Told::At("Word", line),
        PlaceFault::NoChannel { line } => Told::At("NoChannel", line),
        PlaceFault::Twice { line } => Told::At("Twice", line),
        PlaceFault::TooMany { line } => Told::At("TooMany", line),
        PlaceFault::TotalLimit { count } => Told::Many("TotalLimit", count),
        PlaceFault::ZeroLength { line } => Told::At("ZeroLength", line),
        PlaceFault::Limit { which, count } => Told::Over(which, count),
        PlaceFault::Capacity { line } => Told::At("Capacity", line),
        PlaceFault::Memory => Told::Nothing,
    }
}

/// What a refusal of a certificate's text tells.
pub fn told_of_cert(fault: CertFault) -> Told<'static>
    ensures { told_words result ≡ cert_words fault }
{
    match fault {
        CertFault::Word { line } => Told::At("Word", line),
        CertFault::Limit { which, count } => Told::Over(which, count),
        CertFault::Memory => Told::Nothing,
    }
}

/// What a refusal of a schedule tells.
pub fn told_of_schedule(fault: SchedFault) -> Told<'static>
    ensures { told_words result ≡ schedule_words fault }
{
    match fault {
        SchedFault::Word { line } => Told::At("Word", line),
        SchedFault::NoActor { line } => Told::At("NoActor", line),
        SchedFault::Limit { which, count } => Told::Over(which, count),
        SchedFault::Memory => Told::Nothing,
    }
}

/// What a refusal of stalls tells.
pub fn told_of_stalls(fault: StallFault) -> Told<'static>
    ensures { told_words result ≡ stalls_words fault }
{
    match fault {
        StallFault::Limit { which, count } => Told::Over(which, count),
        StallFault::Word { line } => Told::At("Word", line),
        StallFault::Order { line } => Told::At("Order", line),
        StallFault::Memory => Told::Nothing,
    }
}

/// What a refusal of a value change dump tells.
pub fn told_of_dump(fault: VcdFault) -> Told<'static>
    ensures { told_words result ≡ vcd_words fault }
{
    match fault {
        VcdFault::Word { line } => Told::At("Word", line),
        VcdFault::Limit { which, count } => Told::Over(which, count),
        VcdFault::Memory => Told::Nothing,
    }
}

/// What a refusal of a generated design tells.
pub fn told_of_gen(fault: GenFault) -> Told<'static>
    ensures { told_words result ≡ gen_words fault }
{
    match fault {
        GenFault::Size { shells } => Told::Many("Size", u64::from(shells)),
        GenFault::Memory => Told::Nothing,
    }
}

/// What a refusal of an emitted design tells.
pub fn told_of_emit(fault: &EmitFault) -> Told<'_>
    ensures { told_words result ≡ emit_words fault.now }
{
    match fault {
        EmitFault::NameTaken { name } => Told::One("NameTaken", name),
        EmitFault::TooBig { count } => Told::Many("TooBig", *count),
        EmitFault::Memory => Told::Nothing,
    }
}

/// What a refusal of a trace tells.
pub fn told_of_trace(fault: TraceFault) -> Told<'static>
    ensures { told_words result ≡ trace_words fault }
{
    match fault {
        TraceFault::Limit { which, count } => Told::Over(which, count),
    }
}

/// What a refusal at an instance of a model tells.
fn told_of_inst(fault: &CheckFault) -> Told<'_>
    requires { is_at_inst fault.now ≡ true }
    ensures { told_words result ≡ check_words fault.now }
{
    match fault {
        CheckFault::UnknownModel { model, inst, name } => {
            Told::Inst("UnknownModel", model, *inst, name)
        }
        CheckFault::UnknownFormal {
            model,
            inst,
            formal,
        } => Told::Inst("UnknownFormal", model, *inst, formal),
        CheckFault::FormalTwice {
            model,
            inst,
            formal,
        } => Told::Inst("FormalTwice", model, *inst, formal),
        CheckFault::Unbound {
            model,
            inst,
            formal,
        } => Told::Inst("Unbound", model, *inst, formal),
        _ => Told::Nothing,
    }
}

/// What a refusal of acceptance tells.
pub fn told_of_check(fault: &CheckFault) -> Told<'_>
    ensures { told_words result ≡ check_words fault.now }
{
    match fault {
        CheckFault::NoRoot => Told::Bare("NoRoot"),
        CheckFault::DuplicateName { model, name } => { Told::Two("DuplicateName", model, name) }
        CheckFault::UnknownModel { .. }
        | CheckFault::UnknownFormal { .. }
        | CheckFault::FormalTwice { .. }
        | CheckFault::Unbound { .. } => told_of_inst(fault),
        CheckFault::Recursive { model } => Told::One("Recursive", model),
        CheckFault::TwoDrivers { model, name } => { Told::Two("TwoDrivers", model, name) }
        CheckFault::Undriven { model, name } => { Told::Two("Undriven", model, name) }
        CheckFault::ClockUse { model, name } => { Told::Two("ClockUse", model, name) }
        CheckFault::TwoClocks { first, second } => { Told::Two("TwoClocks", first, second) }
        CheckFault::MixedEdges { model, name } => { Told::Two("MixedEdges", model, name) }
        CheckFault::RootLogic { name } => Told::One("RootLogic", name),
        CheckFault::Limit { which, count } => Told::Over(*which, *count),
        CheckFault::CombLoop { path, name } => Told::Loop(path, name),
        CheckFault::OutputFromInput {
            model,
            output,
            input,
        } => Told::Three("OutputFromInput", model, output, input),
        CheckFault::Memory => Told::Nothing,
    }
}
