// What a hall knows of arrivals, for which workers wait in it.
use std::sync::atomic::{AtomicBool, AtomicU64, Ordering};

// So many kinds of workers are told apart as some are called.
const KINDS: usize = 16;

/// The arrivals of a hall. Its own thread makes a call, then listens, and waits at last; another makes a step,
/// tells what came, and then looks who listens. So one of them sees the other: no arrival is missed by a worker
/// that listens before its thread waits.
#[derive(Drop)]
pub(crate) struct Arrivals {
    // All bits for which somebody listens here, perhaps some more.
    listens: AtomicU64,
    // All bits that came since the last wait.
    came: AtomicU64,
    // A seat was rung for since this was last asked.
    rung: AtomicBool,
}

impl Arrivals {
    pub(crate) fn new() -> Arrivals {
        Arrivals {
            listens: AtomicU64::new(0),
            came: AtomicU64::new(0),
            rung: AtomicBool::new(false),
        }
    }

    /// Somebody listens for arrivals with this mark from now on. Whether some may have come since the last
    /// wait.
    pub(crate) fn listen(&self, mark: u64) -> bool {
        self.listens.fetch_or(mark, Ordering::SeqCst);
        has_all(self.came.load(Ordering::SeqCst), mark)
    }

    /// These are all bits for which somebody listens.
    pub(crate) fn listen_anew(&self, marks: u64) {
        self.listens.store(marks, Ordering::SeqCst);
    }

    /// Arrivals with these bits came. Whether somebody may listen for some of them.
    pub(crate) fn come(&self, arrivals: u64) -> bool {
        if !has_all(self.came.load(Ordering::SeqCst), arrivals) {
            self.came.fetch_or(arrivals, Ordering::SeqCst);
        }
        self.listens.load(Ordering::SeqCst) & arrivals != 0
    }

    /// The thread has waited: who listens by now is rung for by whatever comes.
    pub(crate) fn forget(&self) {
        self.came.store(0, Ordering::SeqCst);
    }

    /// Seats were rung for. Whether the thread is to be woken: where seats were before, it has been.
    pub(crate) fn ring(&self) -> bool {
        !self.rung.swap(true, Ordering::SeqCst)
    }

    /// Whether a seat was rung for.
    pub(crate) fn is_rung(&self) -> bool {
        self.rung.load(Ordering::SeqCst)
    }

    /// Whether a seat was rung for since this was last asked.
    pub(crate) fn take_rung(&self) -> bool {
        self.is_rung() && self.rung.swap(false, Ordering::SeqCst)
    }
}

/// The kinds of workers that were called for some arrivals, as far as there is room for them; 0 stands for
/// none.
#[derive(Drop)]
pub(crate) struct Kinds {
    kinds: [u64; KINDS],
}

impl Kinds {
    pub(crate) fn new() -> Kinds {
        Kinds { kinds: [0; KINDS] }
    }

    /// Whether no worker of this kind was called, as far as that is known. One is from now on.
    pub(crate) fn is_new(&mut self, kind: u64) -> bool {
        for known in &mut self.kinds {
            if *known == kind {
                return false;
            }
            if *known == 0 {
                *known = kind;
                return true;
            }
        }
        true
    }
}

/// Whether these bits have all of a mark that isn't 0.
pub(crate) fn has_all(bits: u64, mark: u64) -> bool {
    mark != 0 && bits & mark == mark
}
