// What a worker, its door and its connection share with the hall of their thread.
use crate::arrivals::{Kinds, has_all};
use crate::span::Span;
use std::sync::atomic::{AtomicBool, AtomicU64, Ordering};

// A connection whose other side takes nothing of what is written for so many milliseconds fails.
const LONGEST_STALL_MS: u64 = 60_000;

// A connection that rests between two requests for so many milliseconds ends, where its place is wanted.
const LONGEST_REST_MS: u64 = 5_000;

/// The seat of a worker in a hall.
#[derive(Drop)]
pub(crate) struct Seat {
    // It wants a connection.
    wants: AtomicBool,
    // Something of its connection may be there to be read.
    may_read: AtomicBool,
    // The other side has ended, or the connection has failed: a read tells it at any time.
    has_ended: AtomicBool,
    // That nothing is left to be read was told by a read that didn't fill its piece.
    is_unsure: AtomicBool,
    // For what arrivals its worker waits, 0 for none, and of what kind it is then.
    mark: AtomicU64,
    kind: AtomicU64,
    // Some of them came.
    rung: AtomicBool,
    // In which round its worker was called, if nothing has come for it since; else 0.
    called_in: AtomicU64,
    // A write of its connection waits.
    stall: Span,
    // Its connection rests between two requests.
    rest: Span,
}

impl Seat {
    /// A seat without a connection.
    pub(crate) fn new() -> Seat {
        Seat {
            wants: AtomicBool::new(false),
            may_read: AtomicBool::new(true),
            has_ended: AtomicBool::new(false),
            is_unsure: AtomicBool::new(false),
            mark: AtomicU64::new(0),
            kind: AtomicU64::new(0),
            rung: AtomicBool::new(false),
            called_in: AtomicU64::new(0),
            stall: Span::new(),
            rest: Span::new(),
        }
    }

    /// Its worker wants a connection, or has one.
    pub(crate) fn want(&self, wants: bool) {
        self.wants.store(wants, Ordering::SeqCst);
    }

    /// Whether its worker wants a connection.
    pub(crate) fn wants(&self) -> bool {
        self.wants.load(Ordering::SeqCst)
    }

    /// For what arrivals its worker waits, or 0.
    pub(crate) fn mark(&self) -> u64 {
        self.mark.load(Ordering::SeqCst)
    }

    /// Its worker waits for arrivals with this mark, and is of this kind. Whether it did so for others before.
    pub(crate) fn wait_for(&self, mark: u64, kind: u64) -> bool {
        if self.mark() == mark && self.kind.load(Ordering::SeqCst) == kind {
            return false;
        }
        self.kind.store(kind, Ordering::SeqCst);
        self.mark.store(mark, Ordering::SeqCst);
        true
    }

    /// Arrivals with these bits came. Whether they are some for which its worker waits, the first of its
    /// kind.
    pub(crate) fn ring(&self, arrivals: u64, kinds: &mut Kinds) -> bool {
        if !has_all(arrivals, self.mark()) {
            return false;
        }
        if !kinds.is_new(self.kind.load(Ordering::SeqCst)) {
            return false;
        }
        self.rung.store(true, Ordering::SeqCst);
        true
    }

    /// Whether some came since this was last asked.
    pub(crate) fn take_rung(&self) -> bool {
        self.rung.load(Ordering::SeqCst) && self.rung.swap(false, Ordering::SeqCst)
    }

    /// Its worker is called in this round. Whether it wasn't called in it yet, or something has come for it since.
    pub(crate) fn call_in(&self, round: u64) -> bool {
        self.called_in.swap(round, Ordering::SeqCst) != round
    }

    /// Something has come for its worker. Whether that was called in this round, and nothing had come for it since.
    pub(crate) fn comes_again(&self, round: u64) -> bool {
        self.called_in.swap(0, Ordering::SeqCst) == round
    }

    /// It has a new connection.
    pub(crate) fn begin(&self) {
        self.may_read.store(true, Ordering::SeqCst);
        self.has_ended.store(false, Ordering::SeqCst);
        self.is_unsure.store(false, Ordering::SeqCst);
        self.flows();
        self.rest.begin();
    }

    /// Something has come for its connection: bytes, its end or its failure, or that it may write.
    pub(crate) fn come(&self, may_read: bool, has_ended: bool) {
        if may_read {
            self.may_read.store(true, Ordering::SeqCst);
        }
        if has_ended {
            self.has_ended.store(true, Ordering::SeqCst);
        }
    }

    /// A read took all that was there; where it found something, as it didn't fill its piece.
    pub(crate) fn is_read_out(&self, found: bool) {
        self.may_read.store(false, Ordering::SeqCst);
        self.is_unsure.store(found, Ordering::SeqCst);
    }

    /// Whether a read may find something, or has to tell the end.
    pub(crate) fn may_read(&self) -> bool {
        self.may_read.load(Ordering::SeqCst)
            || self.has_ended.load(Ordering::SeqCst)
            || self.is_wanted()
    }

    /// A request of its connection comes, or is being answered.
    pub(crate) fn works(&self) {
        self.rest.stop();
    }

    /// Its connection rests from now on.
    pub(crate) fn rests(&self) {
        self.rest.begin();
    }

    /// Whether its connection has rested for too long, as its place is wanted.
    pub(crate) fn is_wanted(&self) -> bool {
        self.rest.is_over()
    }

    /// A write took something.
    pub(crate) fn flows(&self) {
        self.stall.stop();
    }

    /// A write could take nothing yet. Whether it has waited for too long.
    pub(crate) fn stalls(&self) -> bool {
        self.works();
        self.stall.goes_on()
    }

    /// Looks at the seat at this reading of the hall, in which places are wanted or not: whether its worker
    /// is to be called, since a write has waited for too long, or its connection has rested for too long, or
    /// to make sure that nothing is left to be read.
    pub(crate) fn look(&self, now_ms: u64, wanted: bool) -> bool {
        let doubts = self.doubts();
        let stalled = self.stall.look(now_ms, LONGEST_STALL_MS, true);
        let rested = self.rest.look(now_ms, LONGEST_REST_MS, wanted);
        doubts || stalled || rested
    }

    // Whether a read has to make sure that nothing is left, which is so once behind one that found something.
    fn doubts(&self) -> bool {
        if !self.is_unsure.load(Ordering::SeqCst) {
            return false;
        }
        self.is_read_out(false);
        self.may_read.store(true, Ordering::SeqCst);
        true
    }
}
