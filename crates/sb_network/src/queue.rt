// Places that wait for their turn.
use std::alloc::Global;
use std::io;
use std::sync::atomic::{AtomicUsize, Ordering};

// What stands behind the last place.
const END: usize = usize::MAX;

// What stands behind a place that isn't in the queue.
const OUT: usize = usize::MAX - 1;

/// A queue of places, in which each stands once at most. One thread at a time goes by it; what stands in it is in
/// no contract.
#[derive(Drop)]
pub struct Queue {
    // What stands behind each place.
    behind: Vec<AtomicUsize>,
    first: AtomicUsize,
    last: AtomicUsize,
}

impl Queue {
    /// An empty queue for so many places.
    pub fn new(alloc: Global, places: usize) -> io::Result<Queue> {
        let mut behind = Vec::new(alloc);
        for _ in 0..places {
            behind.push(AtomicUsize::new(OUT))?;
        }
        Ok(Queue {
            behind,
            first: AtomicUsize::new(END),
            last: AtomicUsize::new(END),
        })
    }

    /// Whether nobody stands in it.
    pub fn is_empty(&self) -> bool {
        self.first.load(Ordering::SeqCst) == END
    }

    /// Puts a place behind the others, where it isn't in the queue yet.
    pub fn put_last(&self, place: usize) {
        let Some(behind) = self.outside(place) else {
            return;
        };
        behind.store(END, Ordering::SeqCst);
        let last = self.last.swap(place, Ordering::SeqCst);
        match self.behind.get(last) {
            Some(word) => word.store(place, Ordering::SeqCst),
            None => self.first.store(place, Ordering::SeqCst),
        }
    }

    /// Puts a place before the others, where it isn't in the queue yet.
    pub fn put_first(&self, place: usize) {
        let Some(behind) = self.outside(place) else {
            return;
        };
        let first = self.first.swap(place, Ordering::SeqCst);
        behind.store(first, Ordering::SeqCst);
        if first == END {
            self.last.store(place, Ordering::SeqCst);
        }
    }

    /// Takes the first place out.
    pub fn take(&self) -> Option<usize> {
        let place = self.first.load(Ordering::SeqCst);
        let Some(behind) = self.behind.get(place) else {
            return None;
        };
        let next = behind.swap(OUT, Ordering::SeqCst);
        self.first.store(next, Ordering::SeqCst);
        if next == END {
            self.last.store(END, Ordering::SeqCst);
        }
        Some(place)
    }

    // What stands behind a place that isn't in the queue.
    fn outside(&self, place: usize) -> Option<&AtomicUsize> {
        match self.behind.get(place) {
            Some(word) if word.load(Ordering::SeqCst) == OUT => Some(word),
            _ => None,
        }
    }
}
