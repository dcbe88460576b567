//! A gate at which workers meet.

ghost use Rattle.std.specs.Prelude.{◌≤◌};

use crate::outside::Gate;
use std::sync::atomic::{AtomicU64, Ordering};

/// A gate for tests. In round 0 `pass` marks that the worker has arrived, and looks whether all
/// workers have, as often as it may.
#[derive(Drop)]
pub struct MeetGate {
    everyone: u64,
    limit: u64,
    arrived: AtomicU64,
    met: AtomicU64,
}

impl MeetGate {
    /// A gate for at most 64 workers, each of which looks at most `limit` times.
    pub fn new(workers: u32, limit: u64) -> MeetGate
        requires { workers ≤ 64 }
    {
        MeetGate {
            everyone: if workers == 0 {
                0
            } else {
                u64::MAX >> (64 - workers)
            },
            limit,
            arrived: AtomicU64::new(0),
            met: AtomicU64::new(0),
        }
    }

    /// Whether each of the workers passed the gate in round 0 and saw all of them in it.
    pub fn met(&self) -> bool {
        self.met.load(Ordering::SeqCst) == self.everyone
    }
}

impl Gate for MeetGate {
    fn pass(&self, worker: u32, round: u64) {
        let bit = 1u64.checked_shl(worker).unwrap_or(0) & self.everyone;
        if round != 0 || bit == 0 {
            return;
        }
        self.arrived.fetch_or(bit, Ordering::SeqCst);
        for _ in 0..self.limit {
            if self.arrived.load(Ordering::SeqCst) == self.everyone {
                self.met.fetch_or(bit, Ordering::SeqCst);
                return;
            }
        }
    }
}
