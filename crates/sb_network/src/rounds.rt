// The rounds of a thread: who was called in the last one and hasn't come again, and how long those who have come wait
// for them.
use std::sync::atomic::{AtomicU64, AtomicUsize, Ordering};

// Who has come waits for the others for this part of the time that the last round took.
const PART: u64 = 8;

// It waits no longer, in microseconds.
const LONGEST_US: u64 = 150;

/// The rounds of one thread, which alone goes by them. From one wait to the next those are called for whom something
/// has come; whose calls are made in one round share their syncs. What stands here is in no contract.
#[derive(Drop)]
pub(crate) struct Rounds {
    // The number of this one, from 1 on.
    number: AtomicU64,
    // How many of those who were called in it haven't come again.
    away: AtomicUsize,
    // When it began, in microseconds since the hall was made.
    began_us: AtomicU64,
}

impl Rounds {
    /// The first.
    pub(crate) fn new() -> Rounds {
        Rounds {
            number: AtomicU64::new(1),
            away: AtomicUsize::new(0),
            began_us: AtomicU64::new(0),
        }
    }

    /// The number of this round, above 0.
    pub(crate) fn number(&self) -> u64 {
        self.number.load(Ordering::SeqCst)
    }

    /// One more is called in it.
    pub(crate) fn leave(&self) {
        self.away.fetch_add(1, Ordering::SeqCst);
    }

    /// For one of those who were called in it something has come again.
    pub(crate) fn come(&self) {
        let away = self.away.load(Ordering::SeqCst);
        self.away.store(away.saturating_sub(1), Ordering::SeqCst);
    }

    /// Whether something has come again for each of them.
    pub(crate) fn is_whole(&self) -> bool {
        self.away.load(Ordering::SeqCst) == 0
    }

    /// Until when those who have come wait for the others, where the round ended then: both in microseconds since the
    /// hall was made.
    pub(crate) fn until_us(&self, ended_us: u64) -> u64 {
        let took_us = ended_us.saturating_sub(self.began_us.load(Ordering::SeqCst));
        ended_us.saturating_add((took_us / PART).min(LONGEST_US))
    }

    /// The next begins, so many microseconds since the hall was made.
    pub(crate) fn next(&self, now_us: u64) {
        self.number.fetch_add(1, Ordering::SeqCst);
        self.away.store(0, Ordering::SeqCst);
        self.began_us.store(now_us, Ordering::SeqCst);
    }
}
