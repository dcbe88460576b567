//! The first fault of some lines.

ghost use Rattle.std.specs.Prelude.{◌≡◌, ◌+◌, ◌<◌, ◌^◌, ◌⊎◌, ℕ, List, [], ◌∷◌, bytes_eq, Some, None, OnOk, IfErr};
ghost use Rattle.std.specs.List.{list_any};
ghost use Rattle.lid_base.specs.declared.line.Line.{Line};
ghost use Rattle.lid_blif.specs.Names.{HoldsNames};
ghost use Rattle.lid_blif.specs.Faults.{context_of, model_names, told, no_model_case, model_cases, names_cases, latch_cases, subckt_cases, row_cases, is_mixed, line_fault, first_fault};

use crate::context::Context;
use crate::fault::BlifFault;
use crate::keyword::Keyword;
use crate::line::{TextLine, last_word, word_at, words_after};
use crate::shapes::{are_bindings, has_init, has_type, is_latch_init, is_latch_type, is_row_of};
use crate::words::{is_line, is_zero_row};
use lid_base::Which;
use std::alloc::{AllocError, Global};
use std::collections::HashSet;

const MOST_MODELS: usize = 4096;

const MOST_INPUTS: usize = 64;

const MOST_ROWS: usize = 1_048_576;

fn is_known(names: &HashSet<&[u8]>, name: &[u8]) -> bool
    ensures { (earlier : List (List ℕ)) → HoldsNames names.now earlier → result ≡ list_any (λ other. bytes_eq other name.now) earlier }
{
    names.contains(name)
}

fn model_fault(
    context: &Context,
    names: &HashSet<&[u8]>,
    model: &TextLine<'_, '_>,
) -> Option<BlifFault>
    requires { context.now.models + 1 < 2 ^ 64 }
    ensures { (earlier : List (List ℕ)) → HoldsNames names.now earlier → result ≡ told (model_cases context.now earlier model.now) }
{
    let words = model.words();
    let line = model.number();
    let models = context.models + 1;
    if words.len() != 2 {
        Some(BlifFault::Arity { line })
    } else if is_known(names, word_at(&words, 1)) {
        Some(BlifFault::DuplicateModel { line })
    } else if models > MOST_MODELS {
        Some(BlifFault::Limit {
            which: Which::Models,
            count: models as u64,
        })
    } else {
        None
    }
}

fn names_fault(context: &Context, cover: &TextLine<'_, '_>) -> Option<BlifFault>
    ensures { result ≡ told (names_cases context.now cover.now) }
{
    let words = cover.words();
    let line = cover.number();
    if !context.inside {
        Some(BlifFault::NoModel { line })
    } else if words.len() < 2 {
        Some(BlifFault::Arity { line })
    } else if words.len() - 2 > MOST_INPUTS {
        Some(BlifFault::TooManyInputs { line })
    } else {
        None
    }
}

fn latch_fault(context: &Context, latch: &TextLine<'_, '_>) -> Option<BlifFault>
    ensures { result ≡ told (latch_cases context.now latch.now) }
{
    let words = latch.words();
    let line = latch.number();
    if !context.inside {
        Some(BlifFault::NoModel { line })
    } else if words.len() < 3 || words.len() > 6 {
        Some(BlifFault::Arity { line })
    } else if has_type(&words) && !is_latch_type(word_at(&words, 3)) {
        Some(BlifFault::LatchType { line })
    } else if has_init(&words) && !is_latch_init(last_word(&words)) {
        Some(BlifFault::LatchInit { line })
    } else {
        None
    }
}

fn subckt_fault(context: &Context, inst: &TextLine<'_, '_>) -> Option<BlifFault>
    ensures { result ≡ told (subckt_cases context.now inst.now) }
{
    let words = inst.words();
    let line = inst.number();
    if !context.inside {
        Some(BlifFault::NoModel { line })
    } else if words.len() < 2 {
        Some(BlifFault::Arity { line })
    } else if !are_bindings(&words_after(&words, 2)) {
        Some(BlifFault::BindShape { line })
    } else {
        None
    }
}

fn is_mixed(context: &Context, row: &TextLine<'_, '_>) -> bool
    ensures { result ≡ is_mixed context.now row.now }
{
    if is_zero_row(row) {
        context.ones
    } else {
        context.zeros
    }
}

fn row_fault(context: &Context, row: &TextLine<'_, '_>) -> Option<BlifFault>
    requires { context.now.rows + 1 < 2 ^ 64 }
    ensures { result ≡ told (row_cases context.now row.now) }
{
    let line = row.number();
    let rows = context.rows + 1;
    if !context.inside {
        Some(BlifFault::NoModel { line })
    } else if !context.covered {
        Some(BlifFault::RowOutside { line })
    } else if !is_row_of(context.inputs, &row.words()) {
        Some(BlifFault::RowShape { line })
    } else if is_mixed(context, row) {
        Some(BlifFault::MixedRows { line })
    } else if rows > MOST_ROWS {
        Some(BlifFault::Limit {
            which: Which::CoverRows,
            count: rows as u64,
        })
    } else {
        None
    }
}

#[tactic(auto, unfolding(crate::specs::Faults::line_fault))]
fn line_fault(
    context: &Context,
    names: &HashSet<&[u8]>,
    line: &TextLine<'_, '_>,
) -> Option<BlifFault>
    requires rows { context.now.rows + 1 < 2 ^ 64 }
    requires models { context.now.models + 1 < 2 ^ 64 }
    ensures { (earlier : List (List ℕ)) → HoldsNames names.now earlier → result ≡ line_fault context.now earlier line.now }
{
    match line.keyword() {
        Keyword::Model => model_fault(context, names, line),
        Keyword::Names => names_fault(context, line),
        Keyword::Latch => latch_fault(context, line),
        Keyword::Subckt => subckt_fault(context, line),
        Keyword::Row => row_fault(context, line),
        Keyword::Unknown if context.inside => Some(BlifFault::Unsupported {
            line: line.number(),
        }),
        _ if context.inside => None,
        _ => Some(BlifFault::NoModel {
            line: line.number(),
        }),
    }
}

fn remember<'a>(line: &'a TextLine<'_, '_>, names: &mut HashSet<&'a [u8]>) -> Result<(), AllocError>
    ensures { OnOk result ((before : List Line) → HoldsNames names.old (model_names before) → HoldsNames names.new (model_names (line.now ∷ before))) }
{
    if is_line(Keyword::Model, line) {
        names.insert(word_at(&line.words(), 1))?;
    }
    Ok(())
}

/// Finds the first faulty line.
///
/// # Errors
/// The fault of that line; `Memory` may come at any lines.
pub fn scan(alloc: Global, lines: &[TextLine<'_, '_>]) -> Result<(), BlifFault>
    ensures ok { OnOk result (first_fault [] lines.now ≡ None) }
    ensures err { IfErr result (λ e. (e ≡ BlifFault.Memory) ⊎ (first_fault [] lines.now ≡ Some e)) }
{
    let mut context = Context::start();
    let mut names = HashSet::new(alloc);
    for line in lines {
        if let Some(fault) = line_fault(&context, &names, line) {
            return Err(fault);
        }
        let Ok(()) = remember(line, &mut names) else {
            return Err(BlifFault::Memory);
        };
        context = context.after(line);
    }
    Ok(())
}
