// How long something lasts, as looks at it tell.
use std::sync::atomic::{AtomicU64, Ordering};

// Nothing lasts.
const STOPPED: u64 = u64::MAX;

// It lasts since the last look.
const BEGUN: u64 = u64::MAX - 1;

// It has lasted for too long.
const OVER: u64 = u64::MAX - 2;

/// How long something lasts: since which look, in milliseconds, or one of the words above.
#[derive(Drop)]
pub(crate) struct Span {
    since_ms: AtomicU64,
}

impl Span {
    /// Nothing lasts yet.
    pub(crate) fn new() -> Span {
        Span {
            since_ms: AtomicU64::new(STOPPED),
        }
    }

    /// It lasts no more.
    pub(crate) fn stop(&self) {
        self.since_ms.store(STOPPED, Ordering::SeqCst);
    }

    /// It lasts from now on, however long it has lasted before.
    pub(crate) fn begin(&self) {
        self.since_ms.store(BEGUN, Ordering::SeqCst);
    }

    /// It lasts, from now on if it didn't before. Whether it has lasted for too long.
    pub(crate) fn goes_on(&self) -> bool {
        let since = self.since_ms.load(Ordering::SeqCst);
        if since == STOPPED {
            self.begin();
        }
        since == OVER
    }

    /// Whether it has lasted for too long.
    pub(crate) fn is_over(&self) -> bool {
        self.since_ms.load(Ordering::SeqCst) == OVER
    }

    /// A look at this reading: whether it has lasted for so long by now, which is noted where it ends then.
    pub(crate) fn look(&self, now_ms: u64, longest_ms: u64, ends: bool) -> bool {
        let since = self.since_ms.load(Ordering::SeqCst);
        if since == BEGUN {
            self.since_ms.store(now_ms, Ordering::SeqCst);
            return false;
        }
        if !ends || since == STOPPED || now_ms < since.saturating_add(longest_ms) {
            return false;
        }
        self.since_ms.store(OVER, Ordering::SeqCst);
        true
    }
}
