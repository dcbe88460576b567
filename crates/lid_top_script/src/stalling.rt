//! Stalls that are read.

ghost use Rattle.std.specs.Prelude.{◌≡◌, ℕ, ◌≤◌, List, IfOk, IfErr};
ghost use Rattle.lid_stall_text.specs.declared.stalls.Stall.{Stall};
ghost use Rattle.lid_top_script.specs.Scripts.{text_limit, stalls_read};
ghost use Rattle.lid_top_script.specs.Causes.{GotStalls, MissesStalls};
ghost use Rattle.lid_top_script.specs.FetchSteps.{FetchesNamed};
ghost use Rattle.lid_stall_text.specs.Holds.{Ascend, listed};

use crate::fault::{Stop, stalls_stop};
use crate::reading::{FileText, read_file};
use lid_base::{Items, Shelf, Text};
use lid_stall_text::{Stall, read_stalls};
use std::alloc::Global;
use std::convert::AsStr;

/// The text of stalls.
#[derive(Clone, Copy)]
pub(crate) struct StallsText;

impl FileText for StallsText {
    type Read = Items<Stall>;

    ghost Told = { List Stall };

    ghost told = { λ stalls. stalls };

    ghost limit = { text_limit };

    ghost reading = { λ _. stalls_read };

    ghost is_sound = { λ _. Ascend };

    fn limit(&self) -> u32 {
        16_777_216
    }

    fn read<'a>(&self, alloc: Global, bytes: &[u8]) -> Result<Items<Stall>, Stop<'a>> {
        match read_stalls(alloc, bytes) {
            Ok(stalls) => Ok(stalls),
            Err(fault) => Err(stalls_stop(fault)),
        }
    }
}

/// The stalls of a job: those of the file of stalls, where one is named.
pub fn read_job_stalls<'a, S: Shelf>(
    alloc: Global,
    shelf: &mut S,
    stalls: &'a Option<Text>,
) -> Result<Option<Items<Stall>>, Stop<'a>>
    ensures ok { IfOk result (GotStalls (S.held shelf.old) stalls.now) }
    ensures ascend { IfOk result (λ read. Ascend (listed read)) }
    ensures err { IfErr result (MissesStalls (S.held shelf.old) stalls.now (S.faults shelf.old) (S.faults shelf.new)) }
    ensures fetched { FetchesNamed S.whole (S.held shelf.old) stalls.now
        (S.fetches shelf.old) (S.fetches shelf.new) (S.faults shelf.old) (S.faults shelf.new) result }
    ensures kept { S.held shelf.new ≡ S.held shelf.old }
    ensures grows { (q : List ℕ) → S.faults shelf.old q ≤ S.faults shelf.new q }
{
    match stalls {
        Some(file) => match read_file(alloc, shelf, file.as_str(), &StallsText) {
            Ok(read) => Ok(Some(read)),
            Err(stop) => Err(stop),
        },
        None => Ok(None),
    }
}
