// Eight doors whose workers are shared among one, two, four and eight threads: each connection is given its
// responses, and all sends stand in one history.
use crate::shares::Shares;
use sb_calls::{ONE_EVENT, SERVE, door_of, served_in};
use sb_outside::{MemDoor, StepClock};
use std::alloc::{AllocError, Global};
use std::sync::Wait;
use std::test::Fail;
use std::thread::Threads;

const SEND: &str = "POST /Q/messages HTTP/1.1\r\nHost: h\r\nContent-Length: 2\r\n\r\nhi";

const SENT: &str = "HTTP/1.1 201 Created\r\nContent-Length: 0\r\n\r\n";

const DOORS: usize = 8;

const SENDS: usize = 4;

const REPORT: &str = "{\"changing\":32,\"entries\":32,\"ok\":\"report\",\"refused\":0}\n";

// The requests of one connection.
fn requests(alloc: Global) -> Result<Vec<u8>, AllocError> {
    let mut bytes = Vec::new(alloc);
    for _ in 0..SENDS {
        bytes.extend_from_slice(SEND.as_bytes())?;
    }
    Ok(bytes)
}

// Puts a door with one connection that sends these bytes behind the others.
fn put_door(alloc: Global, doors: &mut Vec<MemDoor>, bytes: &[u8]) -> Result<(), Fail> {
    let door = door_of(alloc, bytes, 4096)?;
    doors.push(door)?;
    Ok(())
}

fn put_doors(alloc: Global, doors: &mut Vec<MemDoor>) -> Result<(), Fail> {
    let bytes = requests(alloc)?;
    for _ in 0..DOORS {
        if let Err(fail) = put_door(alloc, doors, &bytes) {
            drop(bytes);
            return Err(fail);
        }
    }
    drop(bytes);
    Ok(())
}

// Whether the door's connection was given a response for each message.
fn is_answered(door: &MemDoor) -> bool {
    let Some(conn) = door.taken().first() else {
        return false;
    };
    let mut left = conn.bytes();
    for _ in 0..SENDS {
        let Some(rest) = left.strip_prefix(SENT.as_bytes()) else {
            return false;
        };
        left = rest;
    }
    left.is_empty()
}

// Serves these doors, so many workers a thread: the status, whether the numbers are told, and whether each connection
// is answered.
fn serves<T: Threads + Wait + Sync>(
    threads: &T,
    alloc: Global,
    workers: usize,
    doors: &mut Vec<MemDoor>,
) -> Result<(), Fail> {
    put_doors(alloc, doors)?;
    let clock = StepClock::new(1000, 0);
    let lobby = Shares { workers };
    let ended = served_in(
        threads,
        alloc,
        &SERVE,
        (&ONE_EVENT, &[]),
        &clock,
        doors,
        &lobby,
    );
    drop(clock);
    let ended = ended?;
    let is_well = ended.is(0, REPORT);
    drop(ended);
    if !is_well {
        return Err(Fail::from("another status, or other numbers"));
    }
    if !doors.iter().all(is_answered) {
        return Err(Fail::from("a connection was given something else"));
    }
    Ok(())
}

fn tries<T: Threads + Wait + Sync>(threads: &T, alloc: Global, workers: usize) -> Result<(), Fail> {
    let mut doors = Vec::new(alloc);
    let tried = serves(threads, alloc, workers, &mut doors);
    drop(doors);
    tried
}

#[test]
fn doors_are_shared_among_threads(rt: HostRuntime) -> Result<(), Fail> {
    for workers in [8, 4, 2, 1, 3, 0] {
        tries(&rt, rt.alloc(), workers)?;
    }
    Ok(())
}
