//! Schedules that are read.

ghost use Rattle.std.specs.Prelude.{ℕ, ◌<◌, List};
ghost use Rattle.std.specs.List.{AllByRecursion};
ghost use Rattle.lid_top_script.specs.Scripts.{text_limit, schedule_read};

use crate::fault::{Stop, schedule_stop};
use crate::reading::FileText;
use lid_base::Items;
use lid_texts::read_schedule;
use std::alloc::Global;

/// The text of a schedule.
#[derive(Clone, Copy)]
pub struct ScheduleText {
    /// How many actors there are.
    pub actors: u32,
}

impl FileText for ScheduleText {
    type Read = Items<u32>;

    ghost Told = { List ℕ };

    ghost told = { λ list. list };

    ghost limit = { text_limit };

    ghost reading = { λ text. schedule_read text.actors };

    ghost is_sound = { λ text. AllByRecursion (λ v. v < text.actors) };

    fn limit(&self) -> u32 {
        16_777_216
    }

    fn read<'a>(&self, alloc: Global, bytes: &[u8]) -> Result<Items<u32>, Stop<'a>> {
        match read_schedule(alloc, bytes, self.actors) {
            Ok(schedule) => Ok(schedule),
            Err(fault) => Err(schedule_stop(fault)),
        }
    }
}
