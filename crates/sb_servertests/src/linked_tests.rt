// A client whose requests are served, each as a connection of its own.
use sb_calls::{connection_of, doors_of, ran_over, served, sink_of};
use sb_outside::{Bytes, MemConn, MemDoor, MemLink, MemSink};
use std::alloc::Global;
use std::sync::Wait;
use std::test::Fail;
use std::thread::Threads;

const CREATE_AND_COUNT: &str =
    "{\"do\":\"create-queue\",\"name\":\"q\"}\n{\"do\":\"counts\",\"entity\":\"q\"}\n";

const MADE_AND_COUNTED: &str =
    "{\"ok\":\"done\"}\n{\"counts\":{\"dead\":0,\"main\":0,\"transfer\":0},\"ok\":\"counts\"}\n";

// The requests of these lines.
const CREATE: &str =
    "POST /$script HTTP/1.1\r\nHost: localhost\r\nContent-Length: 32\r\nConnection: close\r\n\r\n{\"do\":\"create-queue\",\"name\":\"q\"}";

const COUNT: &str =
    "POST /$script HTTP/1.1\r\nHost: localhost\r\nContent-Length: 28\r\nConnection: close\r\n\r\n{\"do\":\"counts\",\"entity\":\"q\"}";

fn put_connections(alloc: Global, connections: &mut Vec<MemConn>) -> Result<(), Fail> {
    for request in [CREATE, COUNT] {
        let conn = connection_of(alloc, request.as_bytes(), 7)?;
        connections.push(conn)?;
    }
    Ok(())
}

// A door with the two requests, each on a connection of its own.
fn door(alloc: Global) -> Result<Vec<MemDoor>, Fail> {
    let mut connections = Vec::new(alloc);
    match put_connections(alloc, &mut connections) {
        Ok(()) => Ok(doors_of(alloc, connections)?),
        Err(fail) => {
            drop(connections);
            Err(fail)
        }
    }
}

// Serves these doors over empty disks, whatever is told.
fn serves<T: Threads + Wait + Sync>(
    threads: &T,
    alloc: Global,
    doors: &mut Vec<MemDoor>,
) -> Result<(), Fail> {
    drop(served(threads, alloc, (&[], &[]), doors)?);
    Ok(())
}

fn put_replies(
    alloc: Global,
    replies: &mut Vec<Bytes>,
    connections: &[MemConn],
) -> Result<(), Fail> {
    for conn in connections {
        let reply = Bytes::of(alloc, conn.bytes())?;
        replies.push(reply)?;
    }
    Ok(())
}

// What the connections that a door took back were given.
fn replies_of(alloc: Global, doors: &[MemDoor]) -> Result<Vec<Bytes>, Fail> {
    let mut replies = Vec::new(alloc);
    let put = match doors.first() {
        Some(door) => put_replies(alloc, &mut replies, door.taken()),
        None => Ok(()),
    };
    match put {
        Ok(()) => Ok(replies),
        Err(fail) => {
            drop(replies);
            Err(fail)
        }
    }
}

// The responses of a server to two requests, each on a connection of its own.
fn served_replies<T: Threads + Wait + Sync>(
    threads: &T,
    alloc: Global,
) -> Result<Vec<Bytes>, Fail> {
    let mut doors = door(alloc)?;
    let replies = match serves(threads, alloc, &mut doors) {
        Ok(()) => replies_of(alloc, &doors),
        Err(fail) => Err(fail),
    };
    drop(doors);
    replies
}

// Whether this is what the link was asked there.
fn is_asked(link: &MemLink, place: usize, request: &str) -> bool {
    match link.request(place) {
        Some(asked) => asked == request.as_bytes(),
        None => false,
    }
}

// Makes the run of a client over this link, and gives its status.
fn client(alloc: Global, output: &mut MemSink, link: &mut MemLink) -> Result<u8, Fail> {
    let words = ["client", "--port", "8080"];
    let (status, disk) = ran_over(alloc, &words, (&[], &[]), CREATE_AND_COUNT, output, link)?;
    drop(disk);
    Ok(status)
}

// The status, and whether the lines were answered.
fn client_told(alloc: Global, link: &mut MemLink) -> Result<(u8, bool), Fail> {
    let mut output = sink_of(alloc, 256, &[])?;
    let status = client(alloc, &mut output, link);
    let is_told = output.bytes() == MADE_AND_COUNTED.as_bytes();
    drop(output);
    Ok((status?, is_told))
}

// So it is over this link, which was asked just what was served.
fn is_served(alloc: Global, link: &mut MemLink) -> Result<bool, Fail> {
    let (status, is_told) = client_told(alloc, link)?;
    Ok(status == 0 && is_told && is_asked(link, 0, CREATE) && is_asked(link, 1, COUNT))
}

fn tries<T: Threads + Wait + Sync>(threads: &T, alloc: Global) -> Result<bool, Fail> {
    let replies = served_replies(threads, alloc)?;
    let mut link = MemLink::new(alloc, replies, Vec::new(alloc));
    let is_served = is_served(alloc, &mut link);
    drop(link);
    is_served
}

// A client over a link that gives these responses sends just the requests that were served.
#[test]
fn a_client_is_served(rt: HostRuntime) -> Result<(), Fail> {
    let is_served = tries(&rt, rt.alloc())?;
    assert!(rt; is_served);
    Ok(())
}
