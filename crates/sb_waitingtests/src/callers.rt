// Callers over a clock that stands still: each asks after so many of its pauses and leaves after so many, one at each
// door, and keeps what it is given.
ghost use Rattle.std.specs.Prelude.{◌≡◌, ◌≤◌, None};

use crate::shares::Shares;
use sb_calls::{ONE_EVENT, SERVE, served_in};
use sb_outside::{Clock, Conn, Door, DoorFault, Given, ReadFault, WriteFault};
use std::alloc::Global;
use std::mem;
use std::sync::Wait;
use std::sync::atomic::{AtomicU64, Ordering};
use std::test::Fail;
use std::thread::Threads;

pub(crate) const RECEIVE: &[u8] = b"POST /q/messages/head HTTP/1.1\r\nHost: h\r\n\r\n";

pub(crate) const SEND: &[u8] =
    b"POST /q/messages HTTP/1.1\r\nHost: h\r\nContent-Length: 2\r\n\r\nhi";

// How often the clock pauses before the receive's time has passed.
const MOST_PAUSES: u64 = 1_000_000;

/// A clock that stands still, and jumps past the receive's time after a million pauses.
#[derive(Drop)]
pub(crate) struct Still {
    pauses: AtomicU64,
}

impl Still {
    pub(crate) fn new() -> Still {
        Still {
            pauses: AtomicU64::new(0),
        }
    }

    pub(crate) fn pauses(&self) -> u64 {
        self.pauses.load(Ordering::SeqCst)
    }
}

impl Clock for Still {
    ghost reads = { λ _ _. Unit {0} };

    fn now(&self) -> u64 {
        if self.pauses() > MOST_PAUSES {
            1_000_000
        } else {
            1000
        }
    }

    fn pause(&self) {
        self.pauses.fetch_add(1, Ordering::SeqCst);
    }

    fn micros(&self) -> u64 {
        self.now().wrapping_mul(1000)
    }
}

/// A connection: how often the clock is paused before it asks, and before it leaves without a response, what it
/// asks for, and how the bytes that it is given begin and end.
#[derive(Clone, Copy)]
pub(crate) struct Caller {
    pub(crate) asks: u64,
    pub(crate) leaves: u64,
    pub(crate) request: &'static [u8],
    pub(crate) begins: &'static [u8],
    pub(crate) ends: &'static [u8],
}

/// A connection that gives its request once the clock was paused so often, ends behind its response, or
/// before it once the clock was paused so often, and keeps what it is given.
#[derive(Drop)]
pub(crate) struct Late<'a> {
    clock: &'a Still,
    pauses: u64,
    leaves: u64,
    request: &'static [u8],
    at: usize,
    given: Vec<u8>,
}

impl Conn for Late<'_> {
    ghost left = { λ _. None };

    ghost given = { λ _. None };

    ghost reads = { λ _. 0 };

    ghost writes = { λ _. 0 };

    fn read(&mut self, into: &mut [u8]) -> Result<Option<usize>, ReadFault> {
        let pauses = self.clock.pauses();
        if pauses < self.pauses {
            return Ok(None);
        }
        if self.at >= self.request.len() {
            if self.given.is_empty() && pauses < self.leaves {
                return Ok(None);
            }
            return Ok(Some(0));
        }
        let rest = &self.request[self.at..];
        let count = rest.len().min(into.len());
        into[..count].copy_from_slice(&rest[..count]);
        self.at += count;
        Ok(Some(count))
    }

    fn write(&mut self, bytes: &[u8]) -> Result<Option<usize>, WriteFault> {
        let _ = self.given.extend_from_slice(bytes);
        Ok(Some(bytes.len()))
    }

    fn asked(&mut self, _method: &[u8], _path: &[u8]) {}

    fn answered(&mut self, _response: &[u8]) {}
}

/// A door with one connection.
#[derive(Drop)]
pub(crate) struct Single<'a> {
    next: Option<Late<'a>>,
    taken: Option<Late<'a>>,
    out: u64,
    ended: bool,
}

impl<'a> Door for Single<'a> {
    type Conn = Late<'a>;

    ghost ended = { λ d. d.ended };

    ghost left = { λ _. None };

    ghost taken = { λ _. None };

    ghost out = { λ d. d.out };

    ghost count = { λ _. 0 };

    fn accept(&mut self) -> Result<Given<Late<'a>>, DoorFault> {
        if !self.ended && self.out == 0 {
            if let Some(conn) = self.next.take() {
                self.out = 1;
                return Ok(Given::One(conn));
            }
        }
        self.ended = true;
        Ok(Given::End)
    }

    fn done(&mut self, conn: Late<'a>) {
        self.out -= 1;
        drop(mem::replace(&mut self.taken, Some(conn)));
    }
}

// A caller's door.
fn door<'a>(alloc: Global, clock: &'a Still, caller: &Caller) -> Single<'a> {
    Single {
        next: Some(Late {
            clock,
            pauses: caller.asks,
            leaves: caller.leaves,
            request: caller.request,
            at: 0,
            given: Vec::new(alloc),
        }),
        taken: None,
        out: 0,
        ended: false,
    }
}

/// Puts the door of each of these callers behind the others.
pub(crate) fn put_callers<'a>(
    alloc: Global,
    clock: &'a Still,
    callers: &[Caller],
    doors: &mut Vec<Single<'a>>,
) -> Result<(), Fail> {
    for caller in callers {
        doors.push(door(alloc, clock, caller))?;
    }
    Ok(())
}

/// Whether what the door's connection was given begins and ends as its caller has it.
pub(crate) fn is_given(door: &Single<'_>, caller: &Caller) -> bool {
    match &door.taken {
        Some(conn) => conn.given.starts_with(caller.begins) && conn.given.ends_with(caller.ends),
        None => false,
    }
}

// Whether each was given what it is to be given.
fn are_given(doors: &[Single<'_>], callers: &[Caller]) -> bool {
    for (place, caller) in callers.iter().enumerate() {
        let Some(door) = doors.get(place) else {
            return false;
        };
        if !is_given(door, caller) {
            return false;
        }
    }
    true
}

/// Whether this stands in what the door's connection was given.
pub(crate) fn says(door: &Single<'_>, text: &[u8]) -> bool {
    match &door.taken {
        Some(conn) => stands_in(conn.given.as_slice(), text),
        None => false,
    }
}

fn stands_in(given: &[u8], text: &[u8]) -> bool {
    for start in 0..given.len() {
        if given[start..].starts_with(text) {
            return true;
        }
    }
    false
}

/// Serves these doors over a queue without a message, so many a thread, and gives the status.
pub(crate) fn serve_doors<T: Threads + Wait + Sync>(
    threads: &T,
    alloc: Global,
    clock: &Still,
    doors: &mut Vec<Single<'_>>,
    share: usize,
) -> Result<u8, Fail> {
    let lobby = Shares { workers: share };
    let ended = served_in(
        threads,
        alloc,
        &SERVE,
        (&ONE_EVENT, &[]),
        clock,
        doors,
        &lobby,
    )?;
    let status = ended.status;
    drop(ended);
    Ok(status)
}

fn serves<'a, T: Threads + Wait + Sync>(
    threads: &T,
    alloc: Global,
    clock: &'a Still,
    callers: &[Caller],
    doors: &mut Vec<Single<'a>>,
    share: usize,
) -> Result<(), Fail> {
    put_callers(alloc, clock, callers, doors)?;
    if serve_doors(threads, alloc, clock, doors, share)? != 0 {
        return Err(Fail::from("another status"));
    }
    if !are_given(doors, callers) {
        return Err(Fail::from("a caller was given something else"));
    }
    Ok(())
}

/// Serves these callers, so many a thread: each is given what it is to be given.
pub(crate) fn tries<T: Threads + Wait + Sync>(
    threads: &T,
    alloc: Global,
    callers: &[Caller],
    share: usize,
) -> Result<(), Fail> {
    let clock = Still::new();
    let mut doors = Vec::new(alloc);
    let tried = serves(threads, alloc, &clock, callers, &mut doors, share);
    drop(doors);
    drop(clock);
    tried
}
