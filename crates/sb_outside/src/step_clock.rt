// A clock in memory.
ghost use Rattle.std.specs.Prelude.{ℕ};
ghost use Rattle.sb_outside.specs.Clocks.{IsStep};

use crate::Clock;
use std::sync::atomic::{AtomicU64, Ordering};

/// A clock in memory, which threads may share: it stands still but at a pause, which moves it on by a
/// step. Past 2^64 - 1 it begins at 0 again.
#[derive(Drop)]
pub struct StepClock {
    start_ms: u64,
    step_ms: u64,
    pauses: AtomicU64,
}

impl StepClock {
    /// A clock that reads `start_ms` and moves on by `step_ms` at each pause.
    pub fn new(start_ms: u64, step_ms: u64) -> Self
        ensures { (reading : ℕ) → ⟦<StepClock as Clock>⟧.reads result reading → IsStep start_ms step_ms reading }
    {
        StepClock {
            start_ms,
            step_ms,
            pauses: AtomicU64::new(0),
        }
    }
}

// The reading behind so many pauses.
fn reading_behind(pauses: u64, start_ms: u64, step_ms: u64) -> u64
    ensures { IsStep start_ms step_ms result }
{
    start_ms.wrapping_add(pauses.wrapping_mul(step_ms))
}

impl Clock for StepClock {
    ghost reads = { λ c reading. IsStep c.start_ms c.step_ms reading };

    fn now(&self) -> u64 {
        let pauses = self.pauses.load(Ordering::SeqCst);
        reading_behind(pauses, self.start_ms, self.step_ms)
    }

    fn pause(&self) {
        self.pauses.fetch_add(1, Ordering::SeqCst);
    }

    fn micros(&self) -> u64 {
        self.now().wrapping_mul(1000)
    }
}
