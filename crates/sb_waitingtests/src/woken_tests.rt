// A receive that waits is asked again when a message comes for its entity, and by no other message.
use crate::callers::{Caller, RECEIVE, SEND, Single, Still, is_given, put_callers};
use sb_calls::{ONE_EVENT, SERVE, served_in};
use sb_outside::{Clock, Lobby};
use std::alloc::{AllocError, Global};
use std::sync::Wait;
use std::sync::atomic::{AtomicBool, AtomicU64, Ordering};
use std::test::Fail;
use std::thread::Threads;

const CREATE: &[u8] =
    b"POST /$script HTTP/1.1\r\nHost: h\r\nContent-Length: 32\r\n\r\n{\"do\":\"create-queue\",\"name\":\"r\"}";

const SEND_BESIDE: &[u8] = b"POST /r/messages HTTP/1.1\r\nHost: h\r\nContent-Length: 2\r\n\r\nho";

// The receive, a queue that is made, and a message that is sent to each of the two: of these no matter what they are
// given.
static FOUR: [Caller; 4] = [
    Caller {
        asks: 0,
        leaves: u64::MAX,
        request: RECEIVE,
        begins: b"HTTP/1.1 201 Created\r\n",
        ends: b"\r\n\r\nhi",
    },
    Caller {
        asks: 20,
        leaves: u64::MAX,
        request: CREATE,
        begins: b"",
        ends: b"",
    },
    Caller {
        asks: 40,
        leaves: u64::MAX,
        request: SEND_BESIDE,
        begins: b"",
        ends: b"",
    },
    Caller {
        asks: 60,
        leaves: u64::MAX,
        request: SEND,
        begins: b"",
        ends: b"",
    },
];

// The receive finds nothing, a queue is made, a message is sent to each, and the receive has one.
const TOLD: &str = "{\"changing\":4,\"entries\":5,\"ok\":\"report\",\"refused\":0}\n";

/// A worker of a [`Hearing`].
#[derive(Drop)]
struct Worker {
    called: AtomicBool,
    mark: AtomicU64,
}

impl Worker {
    fn new() -> Worker {
        Worker {
            called: AtomicBool::new(false),
            mark: AtomicU64::new(0),
        }
    }

    fn call(&self) {
        self.called.store(true, Ordering::SeqCst);
    }

    fn mark(&self) -> u64 {
        self.mark.load(Ordering::SeqCst)
    }
}

/// A lobby for doors in memory that calls who waits for arrivals where some come, and the others behind each
/// pause.
#[derive(Drop)]
struct Hearing {
    workers: Vec<Worker>,
}

impl Lobby for Hearing {
    fn share(&self) -> usize {
        usize::MAX
    }

    fn wait<C: Clock>(&self, clock: &C, _first: usize, _until: u64) -> bool {
        clock.pause();
        for worker in &self.workers {
            if worker.mark() == 0 {
                worker.call();
            }
        }
        false
    }

    fn called(&self, first: usize) -> Option<usize> {
        for place in 0..self.workers.len() {
            if let Some(worker) = self.workers.get(place) {
                if worker.called.swap(false, Ordering::SeqCst) {
                    return Some(first.saturating_add(place));
                }
            }
        }
        None
    }

    fn call(&self, number: usize) -> bool {
        match self.workers.get(number) {
            Some(worker) => {
                worker.call();
                true
            }
            None => false,
        }
    }

    fn listen(&self, number: usize, mark: u64, _kind: u64) {
        if let Some(worker) = self.workers.get(number) {
            worker.mark.store(mark, Ordering::SeqCst);
        }
    }

    fn ring(&self, _worker: usize, arrivals: u64) {
        for worker in &self.workers {
            let mark = worker.mark();
            if mark != 0 && arrivals & mark == mark {
                worker.call();
            }
        }
    }
}

// Puts so many workers into a lobby.
fn put_workers(workers: &mut Vec<Worker>, count: usize) -> Result<(), AllocError> {
    for _ in 0..count {
        workers.push(Worker::new())?;
    }
    Ok(())
}

// A lobby for so many workers.
fn lobby_for(alloc: Global, count: usize) -> Result<Hearing, AllocError> {
    let mut workers = Vec::new(alloc);
    match put_workers(&mut workers, count) {
        Ok(()) => Ok(Hearing { workers }),
        Err(error) => {
            drop(workers);
            Err(error)
        }
    }
}

// Serves these doors over a queue without a message: whether it ends well and tells its numbers.
fn serves_well<T: Threads + Wait + Sync>(
    threads: &T,
    alloc: Global,
    clock: &Still,
    doors: &mut Vec<Single<'_>>,
) -> Result<bool, Fail> {
    let lobby = lobby_for(alloc, doors.len())?;
    let ended = served_in(
        threads,
        alloc,
        &SERVE,
        (&ONE_EVENT, &[]),
        clock,
        doors,
        &lobby,
    );
    drop(lobby);
    let ended = ended?;
    let is_well = ended.is(0, TOLD);
    drop(ended);
    Ok(is_well)
}

// The same of the four, and the receive has its message.
fn serves_four<'a, T: Threads + Wait + Sync>(
    threads: &T,
    alloc: Global,
    clock: &'a Still,
    doors: &mut Vec<Single<'a>>,
) -> Result<(), Fail> {
    put_callers(alloc, clock, &FOUR, doors)?;
    if !serves_well(threads, alloc, clock, doors)? {
        return Err(Fail::from("another status, or other numbers"));
    }
    match doors.first() {
        Some(receiving) if is_given(receiving, &FOUR[0]) => Ok(()),
        _ => Err(Fail::from("the receive was given something else")),
    }
}

// After how many pauses it is so.
fn tries_four<T: Threads + Wait + Sync>(threads: &T, alloc: Global) -> Result<u64, Fail> {
    let clock = Still::new();
    let mut doors = Vec::new(alloc);
    let tried = serves_four(threads, alloc, &clock, &mut doors);
    drop(doors);
    let pauses = clock.pauses();
    drop(clock);
    tried?;
    Ok(pauses)
}

#[test]
fn a_receive_is_woken_by_its_own_message(rt: HostRuntime) -> Result<(), Fail> {
    let pauses = tries_four(&rt, rt.alloc())?;
    assert!(rt; pauses < 1000);
    Ok(())
}
