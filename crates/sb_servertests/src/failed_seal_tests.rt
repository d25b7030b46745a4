// Connections of one thread that send at the same moment: one group, whose changes are made safe together. Where the
// disk fails at a call of that, each of them is answered so and ends, a call behind them finds that the namespace has
// stopped, and who opens the disk again finds all that they sent, or nothing. All was worked out by hand.
use crate::server_tests::{FAILED, Pace, SEND, SENT, connection, is_given};
use sb_calls::{Ended, ONE_EVENT, found_behind, found_in, served};
use sb_outside::{MemDisk, MemDoor};
use std::alloc::Global;
use std::process::Abort;
use std::sync::Wait;
use std::test::Fail;
use std::thread::Threads;

// So many connections send.
const SENDERS: usize = 3;

// The messages from the third on: the third alone, where three were sent.
const LOOK: &str = "GET /$peek?from=q&start=3 HTTP/1.1\r\nHost: h\r\n\r\n";

const THIRD: &str =
    "HTTP/1.1 200 OK\r\nContent-Type: application/json\r\nContent-Length: 130\r\n\r\n{\"copies\":[{\"body\":\"hi\",\"delivery\":0,\"enqueued\":1000,\"enqueued_seq\":3,\"props\":{},\"seq\":3,\"state\":\"ready\",\"sys\":{}}],\"ok\":\"copies\"}";

const STOPPED: &str =
    "HTTP/1.1 500 Internal Server Error\r\nContent-Type: application/json\r\nContent-Length: 21\r\nConnection: close\r\n\r\n{\"refused\":\"Stopped\"}";

// How a server ends.
#[derive(Clone, Copy)]
enum End {
    // It couldn't open its journal.
    Unopened,
    // Its disk failed in the group.
    Failed,
    Served,
}

// By what it is known: the status, the report, and what each connection is given that sends, and the one that looks
// later.
#[derive(Clone, Copy)]
struct Signs<'a> {
    end: End,
    status: u8,
    told: &'a str,
    sending: &'a [&'a str],
    later: &'a [&'a str],
}

static ENDS: [Signs<'static>; 3] = [
    Signs {
        end: End::Unopened,
        status: 5,
        told: "",
        sending: &[],
        later: &[],
    },
    // three sends, and one look: who sent was let go before its own
    Signs {
        end: End::Failed,
        status: 5,
        told: "{\"changing\":0,\"entries\":4,\"ok\":\"report\",\"refused\":4}\n",
        sending: &[FAILED],
        later: &[STOPPED],
    },
    // three sends, and four looks
    Signs {
        end: End::Served,
        status: 0,
        told: "{\"changing\":3,\"entries\":7,\"ok\":\"report\",\"refused\":0}\n",
        sending: &[SENT, THIRD],
        later: &[THIRD],
    },
];

// How many messages are found in the bytes of a disk as they are read, and where a crash leaves 0xff, or 0x01, wherever
// it may leave any byte.
#[derive(Clone, Copy, PartialEq, Eq)]
struct Found {
    read: u64,
    by_ff: u64,
    by_01: u64,
}

const NOTHING: Found = Found {
    read: 0,
    by_ff: 0,
    by_01: 0,
};

const THREE: Found = Found {
    read: 3,
    by_ff: 3,
    by_01: 3,
};

// What is found where each call of the disk failed that the group makes. Only 0x01 is an open gate.
static BY_CALL: [Found; 4] = [
    // the records behind the closed gate, and their sync
    NOTHING,
    NOTHING,
    // the gate's opening, which a crash may leave
    Found {
        by_01: 3,
        ..NOTHING
    },
    // its sync, before which the gate is read as open
    Found { by_ff: 0, ..THREE },
];

// A door with one connection, which makes these requests.
fn door(alloc: Global, requests: &[&str], pace: Pace) -> Result<MemDoor, Fail> {
    let conn = connection(alloc, requests, 4096, pace)?;
    let conns = vec![in alloc; conn]?;
    Ok(MemDoor::new(alloc, conns, Vec::new(alloc))?)
}

fn put_door(
    alloc: Global,
    doors: &mut Vec<MemDoor>,
    requests: &[&str],
    pace: Pace,
) -> Result<(), Fail> {
    let door = door(alloc, requests, pace)?;
    doors.push(door)?;
    Ok(())
}

// Puts the doors of those who send, each with a look behind it, and of one of whom nothing comes at first.
fn put_all(alloc: Global, doors: &mut Vec<MemDoor>) -> Result<(), Fail> {
    for _ in 0..SENDERS {
        put_door(alloc, doors, &[SEND, LOOK], Pace::Even)?;
    }
    put_door(alloc, doors, &[LOOK], Pace::Hesitant)
}

// Whether the connection of this door was given just these, and none where it wasn't served.
fn is_answered(door: &MemDoor, responses: &[&str]) -> bool {
    match door.taken().first() {
        Some(conn) => is_given(conn, responses),
        None => responses.is_empty(),
    }
}

// Whether each connection was given what it is to be given.
fn are_answered(doors: &[MemDoor], signs: &Signs<'_>) -> bool {
    for (place, door) in doors.iter().enumerate() {
        let responses = if place < SENDERS {
            signs.sending
        } else {
            signs.later
        };
        if !is_answered(door, responses) {
            return false;
        }
    }
    true
}

// Which end it is.
fn end_of(ended: &Ended, doors: &[MemDoor]) -> Option<End> {
    for signs in &ENDS {
        if ended.is(signs.status, signs.told) && are_answered(doors, signs) {
            return Some(signs.end);
        }
    }
    None
}

// How many messages who opens the disk finds.
fn found_on(alloc: Global, disk: &MemDisk) -> Result<Found, Fail> {
    let (_, read) = found_in(alloc, disk.bytes())?;
    let (_, by_ff) = found_behind(alloc, disk, 0xff)?;
    let (_, by_01) = found_behind(alloc, disk, 0x01)?;
    Ok(Found { read, by_ff, by_01 })
}

// The end of a server over these doors whose disk fails at this call, in one thread and over a queue without a message,
// and what is found behind it.
fn tried_with<T: Threads + Wait + Sync>(
    threads: &T,
    alloc: Global,
    call: u64,
    doors: &mut Vec<MemDoor>,
) -> Result<(Option<End>, Found), Fail> {
    put_all(alloc, doors)?;
    let ended = served(threads, alloc, (&ONE_EVENT, &[call]), doors)?;
    let end = end_of(&ended, doors);
    let found = found_on(alloc, &ended.disk);
    drop(ended);
    Ok((end, found?))
}

fn tried<T: Threads + Wait + Sync>(
    threads: &T,
    alloc: Global,
    call: u64,
) -> Result<(Option<End>, Found), Fail> {
    let mut doors = Vec::new(alloc);
    let tried = tried_with(threads, alloc, call, &mut doors);
    drop(doors);
    tried
}

// Whether this is to be found, where the group failed at so many calls before.
fn is_right(end: Option<End>, found: Found, failed: usize) -> bool {
    match end {
        Some(End::Unopened) => found == NOTHING,
        Some(End::Failed) => BY_CALL.get(failed) == Some(&found),
        Some(End::Served) => found == THREE,
        None => false,
    }
}

// Tries a disk that fails at this call, where the group failed at so many before; at how many it did with this one.
fn tries<T: Abort + Threads + Wait + Sync>(
    threads: &T,
    alloc: Global,
    call: u64,
    failed: usize,
) -> Result<usize, Fail> {
    let (end, found) = tried(threads, alloc, call)?;
    assert!(threads; is_right(end, found, failed), "call {call}");
    match end {
        Some(End::Failed) => Ok(failed.saturating_add(1)),
        _ => Ok(failed),
    }
}

// More than the calls of the disk in one run.
const MANY_CALLS: u64 = 24;

// Each of the disk's calls fails in turn: four of the group, and those of the opening before. Of the three that send
// each is told, and none gets an answer more; who looks later is told that all has stopped. Three messages are found
// or none, and three where no call failed.
#[test]
fn connections_fail_together(rt: HostRuntime) -> Result<(), Fail> {
    let mut failed = 0usize;
    for call in 0..MANY_CALLS {
        failed = tries(&rt, rt.alloc(), call, failed)?;
    }
    assert_eq!(rt; failed, BY_CALL.len());
    Ok(())
}
