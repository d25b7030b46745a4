// A lobby whose threads have so many workers each.
use sb_outside::{Clock, Lobby, PauseLobby};

/// A lobby over the clock alone, each of whose threads has so many workers.
#[derive(Drop)]
pub(crate) struct Shares {
    pub(crate) workers: usize,
}

impl Lobby for Shares {
    fn share(&self) -> usize {
        self.workers
    }

    fn wait<C: Clock>(&self, clock: &C, first: usize, until: u64) -> bool {
        PauseLobby.wait(clock, first, until)
    }

    fn called(&self, first: usize) -> Option<usize> {
        PauseLobby.called(first)
    }

    fn call(&self, worker: usize) -> bool {
        PauseLobby.call(worker)
    }

    fn listen(&self, worker: usize, mark: u64, kind: u64) {
        PauseLobby.listen(worker, mark, kind)
    }

    fn ring(&self, worker: usize, arrivals: u64) {
        PauseLobby.ring(worker, arrivals)
    }
}
