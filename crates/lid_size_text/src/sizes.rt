//! The text of what sizing answers.

ghost use Rattle.std.specs.Prelude.{◌≡◌, ◌++◌, IfOk, OnOk};
ghost use Rattle.lid_base_lines.specs.Texts.{line_text};
ghost use Rattle.lid_size_text.specs.Sizes.{short_words, end_text, IsSizeText};
ghost use Rattle.lid_size.specs.Sizes.{FitsIfReached};
ghost use Rattle.lid_stations.specs.Placements.{links_of, Fits};
ghost use Rattle.lid_system.specs.Systems.{IsWellFormed};

use crate::ratio::append_ratio;
use lid_base::append_number;
use lid_size::{SizeEnd, size};
use lid_stations::Placement;
use lid_stations_text::print_stations;
use lid_system::System;
use std::alloc::{AllocError, Global};

/// Appends the line where no capacities reach.
#[tactic(auto, unfolding(lid_base_lines::specs::Texts::line_text))]
fn append_short(
    part: u32,
    have_p: u64,
    have_q: u64,
    want_p: u64,
    want_q: u64,
    into: &mut Vec<u8>,
) -> Result<(), AllocError>
    ensures { OnOk result (into.new.items ≡ into.old.items ++ line_text (short_words part have_p have_q want_p want_q)) }
{
    into.extend_from_slice(b"short ")?;
    append_number(u64::from(part), into)?;
    into.push(b' ')?;
    append_ratio(have_p, have_q, into)?;
    into.extend_from_slice(b" of ")?;
    append_ratio(want_p, want_q, into)?;
    into.push(b'\n')?;
    Ok(())
}

/// Appends the text of an answer.
fn append_end(system: &System, end: &SizeEnd, into: &mut Vec<u8>) -> Result<(), AllocError>
    requires { FitsIfReached system.now end.now }
    ensures { OnOk result (into.new.items ≡ into.old.items ++ end_text (links_of system.now) end.now) }
{
    match end {
        SizeEnd::Reached(sized) => print_stations(system, sized, into),
        SizeEnd::Short {
            part,
            have_p,
            have_q,
            want_p,
            want_q,
            ..
        } => append_short(*part, *have_p, *have_q, *want_p, *want_q, into),
    }
}

/// The first capacities of all stations with which the relay stations of a placement cost no throughput that
/// they need not, as a text of stations; or where there are none, a line that says where it falls short.
///
/// # Errors
/// Where there is no memory.
pub fn size_text(
    alloc: Global,
    system: &System,
    placement: &Placement,
) -> Result<Vec<u8>, AllocError>
    requires system { IsWellFormed system.now }
    requires fits { Fits system.now placement.now }
    ensures { IfOk result (λ text. IsSizeText (links_of system.now) placement.now text.items) }
{
    let end = size(alloc, system, placement)?;
    let mut text = Vec::new(alloc);
    append_end(system, &end, &mut text)?;
    Ok(text)
}
