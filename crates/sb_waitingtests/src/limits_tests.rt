// Callers that are slower than the limits of time, and some that are just fast enough.
ghost use Rattle.std.specs.Prelude.{None};

use sb_calls::{ONE_EVENT, served_in};
use sb_outside::{Clock, Conn, Door, DoorFault, Given, PauseLobby, ReadFault, WriteFault};
use std::alloc::{AllocError, Global};
use std::process::Abort;
use std::sync::Wait;
use std::sync::atomic::{AtomicU64, Ordering};
use std::test::Fail;
use std::thread::Threads;

const TAKE: &[u8] = b"DELETE /q/messages/head?timeout=0 HTTP/1.1\r\nHost: h\r\n\r\n";

const WAIT: &[u8] = b"DELETE /q/messages/head?timeout=100 HTTP/1.1\r\nHost: h\r\n\r\n";

const WAIT_BY_LINE: &[u8] =
    b"POST /$script HTTP/1.1\r\nHost: h\r\nContent-Length: 38\r\n\r\n{\"do\":\"receive\",\"from\":\"q\",\"wait\":100}";

const SEND: &[u8] = b"POST /q/messages HTTP/1.1\r\nHost: h\r\nContent-Length: 204800\r\n\r\n";

/// A clock that goes on by a second at each pause.
#[derive(Drop)]
struct Seconds {
    now: AtomicU64,
}

impl Clock for Seconds {
    ghost reads = { λ _ _. Unit {0} };

    fn now(&self) -> u64 {
        self.now.load(Ordering::SeqCst)
    }

    fn pause(&self) {
        self.now.fetch_add(1000, Ordering::SeqCst);
    }

    fn micros(&self) -> u64 {
        self.now().wrapping_mul(1000)
    }
}

/// A connection that gives so many bytes of its request at once, and takes so many of its response, each
/// once a second. It ends behind its response.
#[derive(Drop)]
struct Paced<'a> {
    clock: &'a Seconds,
    comes: usize,
    takes: usize,
    request: &'a [u8],
    at: usize,
    read_ms: u64,
    wrote_ms: u64,
    given: Vec<u8>,
}

impl Conn for Paced<'_> {
    ghost left = { λ _. None };

    ghost given = { λ _. None };

    ghost reads = { λ _. 0 };

    ghost writes = { λ _. 0 };

    fn read(&mut self, into: &mut [u8]) -> Result<Option<usize>, ReadFault> {
        let now = self.clock.now();
        if now <= self.read_ms {
            return Ok(None);
        }
        if self.at >= self.request.len() {
            if self.given.is_empty() {
                return Ok(None);
            }
            return Ok(Some(0));
        }
        self.read_ms = now;
        let rest = &self.request[self.at..];
        let count = rest.len().min(into.len()).min(self.comes);
        into[..count].copy_from_slice(&rest[..count]);
        self.at += count;
        Ok(Some(count))
    }

    fn write(&mut self, bytes: &[u8]) -> Result<Option<usize>, WriteFault> {
        let now = self.clock.now();
        if self.takes == 0 || now <= self.wrote_ms {
            return Ok(None);
        }
        self.wrote_ms = now;
        let count = bytes.len().min(self.takes);
        let _ = self.given.extend_from_slice(&bytes[..count]);
        Ok(Some(count))
    }

    fn asked(&mut self, _method: &[u8], _path: &[u8]) {}

    fn answered(&mut self, _response: &[u8]) {}
}

/// A door with one connection, which says when it took it back.
#[derive(Drop)]
struct Single<'a> {
    next: Option<Paced<'a>>,
    taken: Option<Paced<'a>>,
    taken_ms: u64,
    out: u64,
    ended: bool,
}

impl<'a> Door for Single<'a> {
    type Conn = Paced<'a>;

    ghost ended = { λ d. d.ended };

    ghost left = { λ _. None };

    ghost taken = { λ _. None };

    ghost out = { λ d. d.out };

    ghost count = { λ _. 0 };

    fn accept(&mut self) -> Result<Given<Paced<'a>>, DoorFault> {
        if !self.ended && self.out == 0 {
            if let Some(conn) = self.next.take() {
                self.out = 1;
                return Ok(Given::One(conn));
            }
        }
        self.ended = true;
        Ok(Given::End)
    }

    fn done(&mut self, conn: Paced<'a>) {
        self.out -= 1;
        self.taken_ms = conn.clock.now();
        self.taken = Some(conn);
    }
}

// A caller: both limits, how many bytes come and are taken in a second, and the request. Then what it is given
// begins so, and in which seconds from the begin it is over.
#[derive(Clone, Copy)]
struct Case<'a> {
    request_time: &'static str,
    idle_time: &'static str,
    comes: usize,
    takes: usize,
    request: &'a [u8],
    given: &'static [u8],
    over: (u64, u64),
}

// A caller that isn't slow.
const USUAL: Case<'static> = Case {
    request_time: "--request-time=60",
    idle_time: "--idle-time=600",
    comes: 4096,
    takes: 4096,
    request: TAKE,
    given: b"HTTP/1.1 204 No Content\r\n",
    over: (0, 2),
};

static CASES: [Case<'static>; 9] = [
    // nothing waits, so it is answered at once
    USUAL,
    // a byte a second: whole within a minute, and not within ten seconds
    Case {
        comes: 1,
        over: (53, 57),
        ..USUAL
    },
    Case {
        request_time: "--request-time=10",
        comes: 1,
        given: b"",
        over: (10, 12),
        ..USUAL
    },
    // a byte of the response a second, and none
    Case {
        request_time: "--request-time=10",
        takes: 1,
        given: b"HTTP/1.1 2",
        over: (10, 12),
        ..USUAL
    },
    Case {
        takes: 0,
        given: b"",
        over: (60, 62),
        ..USUAL
    },
    // no request at all, by both limits
    Case {
        request: b"",
        given: b"",
        over: (600, 602),
        ..USUAL
    },
    Case {
        idle_time: "--idle-time=5",
        request: b"",
        given: b"",
        over: (5, 7),
        ..USUAL
    },
    // a receive that waits longer than both limits
    Case {
        request_time: "--request-time=2",
        idle_time: "--idle-time=2",
        request: WAIT,
        over: (100, 102),
        ..USUAL
    },
    // a line that waits so
    Case {
        request_time: "--request-time=2",
        idle_time: "--idle-time=2",
        request: WAIT_BY_LINE,
        given: b"HTTP/1.1 200 OK\r\nContent-Length: 15\r\n\r\n{\"ok\":\"empty\"}\n",
        over: (100, 102),
        ..USUAL
    },
];

fn door<'a>(alloc: Global, clock: &'a Seconds, case: Case<'a>) -> Single<'a> {
    Single {
        next: Some(Paced {
            clock,
            comes: case.comes,
            takes: case.takes,
            request: case.request,
            at: 0,
            read_ms: 0,
            wrote_ms: 0,
            given: Vec::new(alloc),
        }),
        taken: None,
        taken_ms: 0,
        out: 0,
        ended: false,
    }
}

// Serves these doors over a queue without a message, and gives the status.
fn serve_one<T: Threads + Wait + Sync>(
    threads: &T,
    alloc: Global,
    clock: &Seconds,
    case: &Case<'_>,
    doors: &mut Vec<Single<'_>>,
) -> Result<u8, Fail> {
    let words = [
        "serve",
        "--data=data",
        "--port=8080",
        case.request_time,
        case.idle_time,
    ];
    let ended = served_in(
        threads,
        alloc,
        &words,
        (&ONE_EVENT, &[]),
        clock,
        doors,
        &PauseLobby,
    )?;
    let status = ended.status;
    drop(ended);
    Ok(status)
}

// Whether the door's connection was given what it should be, and in which second it was over.
fn outcome_of(door: &Single<'_>, case: &Case<'_>) -> Result<(bool, u64), Fail> {
    let Some(conn) = &door.taken else {
        return Err(Fail::from("the connection comes back"));
    };
    let is_given = conn.given.starts_with(case.given)
        && conn.given.is_empty() == case.given.is_empty();
    Ok((is_given, door.taken_ms.saturating_sub(1000) / 1000))
}

fn serves_case<'a, T: Threads + Wait + Sync>(
    threads: &T,
    alloc: Global,
    clock: &'a Seconds,
    case: Case<'a>,
    doors: &mut Vec<Single<'a>>,
) -> Result<(bool, u64), Fail> {
    doors.push(door(alloc, clock, case))?;
    if serve_one(threads, alloc, clock, &case, doors)? != 0 {
        return Err(Fail::from("another status"));
    }
    match doors.first() {
        Some(door) => outcome_of(door, &case),
        None => Err(Fail::from("the door comes back")),
    }
}

// Whether it was given what it should be, and in which second it was over.
fn outcome<T: Threads + Wait + Sync>(
    threads: &T,
    alloc: Global,
    case: &Case<'_>,
) -> Result<(bool, u64), Fail> {
    let clock = Seconds {
        now: AtomicU64::new(1000),
    };
    let mut doors = Vec::new(alloc);
    let found = serves_case(threads, alloc, &clock, *case, &mut doors);
    drop(doors);
    drop(clock);
    found
}

fn is_within(second: u64, over: (u64, u64)) -> bool {
    over.0 <= second && second <= over.1
}

fn assert_within(rt: &impl Abort, number: usize, found: (bool, u64), over: (u64, u64)) {
    let (is_given, second) = found;
    let holds = is_given && is_within(second, over);
    assert!(rt; holds, "case {number}: {is_given}, {second}");
}

fn tries<T: Abort + Threads + Wait + Sync>(
    threads: &T,
    alloc: Global,
    number: usize,
    case: &Case<'_>,
) -> Result<(), Fail> {
    let found = outcome(threads, alloc, case)?;
    assert_within(threads, number, found, case.over);
    Ok(())
}

#[test]
fn who_is_slow_is_let_go(rt: HostRuntime) -> Result<(), Fail> {
    for (number, case) in CASES.iter().enumerate() {
        tries(&rt, rt.alloc(), number, case)?;
    }
    Ok(())
}

fn put_long(request: &mut Vec<u8>) -> Result<(), AllocError> {
    request.extend_from_slice(SEND)?;
    request.resize(SEND.len() + 204_800, b'x')
}

// Within which seconds it is over, by how many bytes come in one.
fn tries_long<T: Abort + Threads + Wait + Sync>(
    threads: &T,
    alloc: Global,
    request: &[u8],
) -> Result<(), Fail> {
    let steady = Case {
        comes: 2048,
        request,
        given: b"HTTP/1.1 201 Created\r\n",
        over: (100, 103),
        ..USUAL
    };
    tries(threads, alloc, 0, &steady)?;
    let slow = Case {
        comes: 512,
        given: b"",
        over: (118, 124),
        ..steady
    };
    tries(threads, alloc, 1, &slow)
}

fn tries_made<T: Abort + Threads + Wait + Sync>(
    threads: &T,
    alloc: Global,
    request: &mut Vec<u8>,
) -> Result<(), Fail> {
    put_long(request)?;
    tries_long(threads, alloc, request)
}

// A body of 200 KiB, of which 2 KiB come in a second, and one of which half a KiB does.
#[test]
fn a_long_body_may_take_long(rt: HostRuntime) -> Result<(), Fail> {
    let mut request = Vec::new(rt.alloc());
    let tried = tries_made(&rt, rt.alloc(), &mut request);
    drop(request);
    tried
}
