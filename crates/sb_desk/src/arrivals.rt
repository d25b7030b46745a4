//! For which parts of entities something to receive may have come, and when the next thing comes due. No clause
//! says anything of it.
use crate::Stepped;
use std::sync::atomic::{AtomicU64, Ordering};

/// What the steps of a value told of arrivals.
#[derive(Drop)]
pub(crate) struct Arrivals {
    // The marks since they were taken last.
    entered: AtomicU64,
    // What the last step told, in ms since 1970.
    soonest: AtomicU64,
}

impl Arrivals {
    pub(crate) fn new() -> Arrivals {
        Arrivals {
            entered: AtomicU64::new(0),
            soonest: AtomicU64::new(u64::MAX),
        }
    }

    /// Takes in what a step told. Its seat has the turn, so that no other step comes between.
    pub(crate) fn note(&self, stepped: &Stepped) {
        self.soonest.store(stepped.soonest, Ordering::SeqCst);
        if stepped.entered != 0 {
            self.entered.fetch_or(stepped.entered, Ordering::SeqCst);
        }
    }

    /// The marks since this was last asked.
    pub(crate) fn take(&self) -> u64 {
        if self.entered.load(Ordering::SeqCst) == 0 {
            return 0;
        }
        self.entered.swap(0, Ordering::SeqCst)
    }

    pub(crate) fn soonest(&self) -> u64 {
        self.soonest.load(Ordering::SeqCst)
    }
}
