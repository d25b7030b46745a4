// A server that is asked for its numbers while a receive waits, and again behind it.
use crate::callers::{Caller, RECEIVE, SEND, Single, Still, put_callers, says, serve_doors};
use std::alloc::Global;
use std::sync::Wait;
use std::test::Fail;
use std::thread::Threads;

const STATUS: &[u8] = b"GET /$status HTTP/1.1\r\nHost: h\r\n\r\n";

const METRICS: &[u8] = b"GET /$metrics HTTP/1.1\r\nHost: h\r\n\r\n";

// Of these no matter how what they are given begins and ends.
const AT_ONCE: Caller = Caller {
    asks: 0,
    leaves: u64::MAX,
    request: RECEIVE,
    begins: b"",
    ends: b"",
};

// A receive that waits, a look at it, a send for it, and two looks behind it.
static FIVE: [Caller; 5] = [
    AT_ONCE,
    Caller {
        asks: 20,
        request: STATUS,
        ..AT_ONCE
    },
    Caller {
        asks: 40,
        request: SEND,
        ..AT_ONCE
    },
    Caller {
        asks: 60,
        request: METRICS,
        ..AT_ONCE
    },
    Caller {
        asks: 80,
        request: STATUS,
        ..AT_ONCE
    },
];

// What the looks show, by their places.
static SHOWN: [(usize, &[u8]); 6] = [
    (1, b"\"server\":{\"connections\":5,"),
    (1, b"\"waiting\":1,\"workers\":5}"),
    (
        3,
        b"zolmutarn_calls_total{act=\"list\",answer=\"done\"} 2\n",
    ),
    (
        3,
        b"zolmutarn_calls_total{act=\"receive\",answer=\"done\"} 1\n",
    ),
    (4, b"\"server\":{\"connections\":1,"),
    (4, b"\"waiting\":0,\"workers\":5}"),
];

// How many of these in a row are shown.
fn shown(doors: &[Single<'_>]) -> usize {
    for (number, (place, text)) in SHOWN.iter().enumerate() {
        match doors.get(*place) {
            Some(door) if says(door, text) => {}
            _ => return number,
        }
    }
    SHOWN.len()
}

// How many are shown.
fn serves_five<'a, T: Threads + Wait + Sync>(
    threads: &T,
    alloc: Global,
    clock: &'a Still,
    doors: &mut Vec<Single<'a>>,
) -> Result<usize, Fail> {
    put_callers(alloc, clock, &FIVE, doors)?;
    if serve_doors(threads, alloc, clock, doors, 5)? != 0 {
        return Err(Fail::from("another status"));
    }
    Ok(shown(doors))
}

fn tries_five<T: Threads + Wait + Sync>(threads: &T, alloc: Global) -> Result<usize, Fail> {
    let clock = Still::new();
    let mut doors = Vec::new(alloc);
    let tried = serves_five(threads, alloc, &clock, &mut doors);
    drop(doors);
    drop(clock);
    tried
}

#[test]
fn a_server_shows_its_numbers(rt: HostRuntime) -> Result<(), Fail> {
    let count = tries_five(&rt, rt.alloc())?;
    assert_eq!(rt; count, SHOWN.len());
    Ok(())
}
