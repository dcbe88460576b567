//! The reading of a dump: once for its form, and once more for its cells.

ghost use Rattle.std.specs.Prelude.{◌≡◌, ◌⊎◌, ◌≤◌, ◌*◌, ◌/◌, Ok, Err, max, length, IfOk, IfErr};
ghost use Rattle.lid_vcd_form.specs.Words.{placed_words};
ghost use Rattle.lid_vcd_form.specs.Form.{start, read_words};
ghost use Rattle.lid_vcd_form.specs.Shows.{time_of, Wave, trace_at, wave_of};
ghost use Rattle.lid_vcd_form.specs.Writable.{IsWritable};
ghost use Rattle.lid_vcd.specs.Reading.{cell_count, if_few, wave_reading};

use crate::cells::cells_of;
use lid_base::{Items, Which};
use lid_texts_runs::Trace;
use lid_vcd_form::{Place, next_word, step};
use std::alloc::Global;

/// The most bytes of a dump.
const MOST_BYTES: usize = 67_108_864;

/// The most cells of a trace.
const MOST_CELLS: u64 = 1_048_576;

/// Why a text does not stand for a trace. Lines are counted from 1.
#[derive(Clone, Copy)]
pub enum VcdFault {
    /// The number of what is counted, which is over the limit.
    Limit { which: Which, count: u64 },
    /// The line of the first word by which no dump goes on. Where the text ends too early, it is that of
    /// the last word, and 0 where there is none.
    Word { line: u32 },
    /// There was no memory.
    Memory,
}

/// The place at the end of a text, or the line of the word at which it is not of the form.
#[tactic(auto, unfolding(lid_vcd_form::specs::Words::placed_words))]
fn find_end(bytes: &[u8]) -> Result<Place, u32>
    requires { length bytes.now ≤ 67108864 }
    ensures { result ≡ read_words 0 start (placed_words bytes.now) }
{
    let mut place = Place::start();
    let mut last = 0;
    let mut line = 1;
    let mut rest = bytes;
    while let Some(word) = next_word(line, rest) {
        let Some(next) = step(place, word.word) else {
            return Err(word.line);
        };
        place = next;
        last = word.line;
        line = word.line;
        rest = word.after;
    }
    if place.is_time() {
        Ok(place)
    } else {
        Err(last)
    }
}

/// How many cells there are, where a trace without stations counts as if it had one.
fn count_cells(place: Place) -> u64
    ensures { result ≡ cell_count (place.variables / 3) (time_of place.next) }
{
    let stations = u64::from(place.variables / 3);
    stations.max(1) * u64::from(place.time())
}

/// The trace of a text that is of the form and ends at this place.
fn trace_at(alloc: Global, place: Place, bytes: &[u8]) -> Result<Trace, VcdFault>
    requires few { length bytes.now ≤ 67108864 }
    requires form { read_words 0 start (placed_words bytes.now) ≡ Ok place }
    ensures writable { IfOk result IsWritable }
    ensures ok { IfOk result (λ trace. if_few (trace_at (placed_words bytes.now) place) ≡ Ok trace) }
    ensures err { IfErr result (λ e. (e ≡ VcdFault.Memory) ⊎ (if_few (trace_at (placed_words bytes.now) place) ≡ Err e)) }
{
    let count = count_cells(place);
    if count > MOST_CELLS {
        return Err(VcdFault::Limit {
            which: Which::TraceCells,
            count,
        });
    }
    match cells_of(alloc, place.variables, bytes) {
        Ok(cells) => Ok(Trace {
            stations: place.variables / 3,
            cycles: u64::from(place.time()),
            cells: Items::from_vec(cells),
        }),
        Err(_) => Err(VcdFault::Memory),
    }
}

/// Reads the trace that a value change dump shows. The text is looked through once before memory is
/// taken for its cells; time is linear in the text and the cells.
///
/// # Errors
/// `Limit` of `FileBytes`, with the length of the text, comes first of all. Then `Word` comes where the
/// text is not a dump of this form. `Limit` of `TraceCells` comes where it is one of more than 1,048,576
/// cells, which are stations times cycles, and one for each cycle without stations. `Memory` may
/// come at any text.
#[tactic(auto, unfolding(crate::specs::Reading::wave_reading, lid_vcd_form::specs::Shows::wave_of))]
pub fn read(alloc: Global, bytes: &[u8]) -> Result<Trace, VcdFault>
    ensures ok { IfOk result (λ trace. wave_reading bytes.now ≡ Ok trace) }
    ensures err { IfErr result (λ e. (e ≡ VcdFault.Memory) ⊎ (wave_reading bytes.now ≡ Err e)) }
    ensures writable { IfOk result IsWritable }
{
    if bytes.len() > MOST_BYTES {
        return Err(VcdFault::Limit {
            which: Which::FileBytes,
            count: bytes.len() as u64,
        });
    }
    let place = match find_end(bytes) {
        Ok(place) => place,
        Err(line) => return Err(VcdFault::Word { line }),
    };
    trace_at(alloc, place, bytes)
}
