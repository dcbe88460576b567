//! From a text to a design.

ghost use Rattle.std.specs.Prelude.{◌≡◌, ◌<◌, ◌≤◌, ◌⊎◌, length, IfOk, IfErr, OnErr, Some, None};
ghost use Rattle.lid_base.specs.Lines.{logical_lines};
ghost use Rattle.lid_blif.specs.Faults.{blif_fault, lines_fault};
ghost use Rattle.lid_blif.specs.Designs.{design_of};
ghost use Rattle.lid_blif.specs.Joins.{lines_cut, words_counted};
ghost use Rattle.lid_design.specs.WellFormed.{IsWellFormed};

use crate::cutting::{LineSize, WordList, lines_cut, word_list};
use crate::fault::BlifFault;
use crate::line::{TextLine, TextWords};
use crate::models::design_of;
use crate::scan::scan;
use lid_base::{Items, TextFault, Which};
use lid_design::Design;
use std::alloc::Global;

const MOST_BYTES: usize = 16_777_216;

const LONGEST_WORD: u32 = 1024;

fn of_text(fault: TextFault) -> BlifFault
    ensures told { (result ≡ BlifFault.Memory) ⊎ (result ≡ BlifFault.Text fault) }
    ensures memory { fault ≡ TextFault.Memory → result ≡ BlifFault.Memory }
{
    match fault {
        TextFault::Memory => BlifFault::Memory,
        _ => BlifFault::Text(fault),
    }
}

fn design_from(alloc: Global, lines: &[TextLine<'_, '_>]) -> Result<Design, BlifFault>
    ensures ok { IfOk result (λ d. (lines_fault lines.now ≡ None) × (d ≡ design_of lines.now)) }
    ensures err { IfErr result (λ e. (e ≡ BlifFault.Memory) ⊎ (lines_fault lines.now ≡ Some e)) }
{
    if lines.is_empty() {
        return Err(BlifFault::NoModel { line: 0 });
    }
    match scan(alloc, lines) {
        Err(fault) => Err(fault),
        Ok(()) => match design_of(alloc, lines) {
            Ok(design) => Ok(design),
            Err(_) => Err(BlifFault::Memory),
        },
    }
}

/// The lines of a list. Its sizes go before the design is made.
fn lines_from<'w, 't>(
    alloc: Global,
    words: &'w TextWords<'t>,
    sizes: Vec<LineSize>,
) -> Result<Items<TextLine<'w, 't>>, BlifFault>
    requires counted { words_counted sizes.items ≤ length words.now }
    requires few { length words.now < 4294967296 }
    ensures ok { IfOk result (λ lines. lines ≡ lines_cut sizes.items words.now) }
    ensures err { IfErr result (λ e. e ≡ BlifFault.Memory) }
{
    match lines_cut(alloc, words, sizes.as_slice()) {
        Ok(lines) => Ok(lines),
        Err(_) => Err(BlifFault::Memory),
    }
}

fn design_of_list(alloc: Global, list: WordList<'_>) -> Result<Design, BlifFault>
    requires counted { words_counted list.sizes.items ≤ length list.words }
    requires few { length list.words < 4294967296 }
    ensures ok { IfOk result (λ d. let ls = lines_cut list.entry.sizes.items list.entry.words in (lines_fault ls ≡ None) × (d ≡ design_of ls)) }
    ensures err { IfErr result (λ e. (e ≡ BlifFault.Memory) ⊎ (lines_fault (lines_cut list.entry.sizes.items list.entry.words) ≡ Some e)) }
{
    let WordList { words, sizes } = list;
    match lines_from(alloc, &words, sizes) {
        Ok(lines) => design_from(alloc, lines.as_slice()),
        Err(fault) => Err(fault),
    }
}

/// The design that a BLIF text stands for. Its root is the first model.
///
/// # Errors
/// A text of more than 16,777,216 bytes is refused with `Limit`; then the text that has no logical
/// lines with `Text`; then the first faulty logical line is told, and of its faults the one that
/// `BlifFault` lists first. `Memory` may come at any text.
#[tactic(auto, unfolding(crate::specs::Faults::blif_fault))]
pub fn read(alloc: Global, bytes: &[u8]) -> Result<Design, BlifFault>
    ensures ok { IfOk result (λ d. (blif_fault bytes.now ≡ None) × (d ≡ design_of (logical_lines bytes.now))) }
    ensures formed { IfOk result IsWellFormed }
    ensures few { IfOk result (λ d. length d.models ≤ 4096) }
    ensures err { IfErr result (λ e. (e ≡ BlifFault.Memory) ⊎ (blif_fault bytes.now ≡ Some e)) }
{
    if bytes.len() > MOST_BYTES {
        return Err(BlifFault::Limit {
            which: Which::FileBytes,
            count: bytes.len() as u64,
        });
    }
    match word_list(alloc, bytes, LONGEST_WORD) {
        Ok(list) => design_of_list(alloc, list),
        Err(fault) => Err(of_text(fault)),
    }
}
