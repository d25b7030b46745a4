// Where workers wait until one of them may go on.
use crate::Clock;

/// Where the workers of a server wait until one of them may go on. Workers are named by their numbers,
/// from 0 on, in the order of their doors reversed: worker 0 has the last door, and of `n` doors the
/// first is worker `n - 1`'s. A thread has a stretch of them, named by its first. Nothing is said of when
/// they are called: who is called too often goes on waiting, and each is called in the end.
pub trait Lobby {
    /// How many workers each thread has; the last may have fewer. 0 counts as one.
    fn share(&self) -> usize;

    /// Waits until a worker of the thread whose first is this one may go on, or this reading comes; not at
    /// all where one is called. Whether the lobby doesn't say who may go on, so that all of that thread are
    /// to be looked at.
    fn wait<C: Clock>(&self, clock: &C, first: usize, until: u64) -> bool;

    /// The next worker of the thread whose first is this one for which something has come. It counts as
    /// called no more.
    fn called(&self, first: usize) -> Option<usize>;

    /// Calls a worker that may go on at once behind those that are called. Whether `called` will give it.
    fn call(&self, worker: usize) -> bool;

    /// This worker waits for arrivals that have all bits of this mark; for none where it is 0. Workers of
    /// one kind, which says more than the mark, wait for the same. It may be called at once, where some came
    /// since its thread waited last. Where it waited before and waits no more, another may be called that
    /// waits for what it has left.
    fn listen(&self, worker: usize, mark: u64, kind: u64);

    /// Arrivals with these bits came: of each kind that waits for some of them one worker is called, in
    /// whatever thread. The one that is named is a worker of the calling thread.
    fn ring(&self, worker: usize, arrivals: u64);
}

/// A lobby over the clock alone, for doors in memory, all in one thread: each wait is a pause, it calls
/// nobody, and all workers are to be looked at behind it.
#[derive(Clone, Copy)]
pub struct PauseLobby;

impl Lobby for PauseLobby {
    fn share(&self) -> usize {
        usize::MAX
    }

    fn wait<C: Clock>(&self, clock: &C, _first: usize, _until: u64) -> bool {
        clock.pause();
        true
    }

    fn called(&self, _first: usize) -> Option<usize> {
        None
    }

    fn call(&self, _worker: usize) -> bool {
        false
    }

    fn listen(&self, _worker: usize, _mark: u64, _kind: u64) {}

    fn ring(&self, _worker: usize, _arrivals: u64) {}
}
