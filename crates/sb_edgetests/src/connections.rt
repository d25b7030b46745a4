// What no contract says of connections over streams: which answers of a stream are a fault, what a real socket
// does whose other side ends, falls silent or is gone, and what a log tells of a call. Doors and connections are
// lent, and dropped by calls: so the proofs of the tests stay short.
ghost use Rattle.std.specs.Prelude.{◌≤◌, IfOk};

use crate::asserts::assert_that;
use sb_outside::{
    Conn, Connected, Door, Given, Listening, Logging, MemConn, MemDoor, MemSink, MemSource,
    asked_words, call_line,
};
use std::alloc::Global;
use std::io;
use std::io::{ErrorKind, Read, Write};
use std::net::{Ipv4Addr, OpenStream, TcpListener, TcpStream};
use std::process::Abort;
use std::test::Fail;
use std::time::Duration;

// The first of the ports that are tried.
const PORT: u16 = 43_300;

// What a stream answers to one call.
#[derive(Clone, Copy)]
enum Step {
    Moves(usize),
    Fails(ErrorKind),
}

// A stream that answers its calls so, one after the other, and ends.
#[derive(Drop)]
struct Scripted<'s> {
    steps: &'s [Step],
    call: usize,
}

impl Scripted<'_> {
    fn step(&mut self, most: usize) -> io::Result<usize>
        ensures { IfOk result (λ count. count ≤ most) }
    {
        let call = self.call;
        self.call = call.saturating_add(1);
        match self.steps.get(call) {
            Some(Step::Moves(count)) => Ok((*count).min(most)),
            Some(Step::Fails(kind)) => Err(io::Error::from(*kind)),
            None => Ok(0),
        }
    }
}

impl Read for Scripted<'_> {
    fn read(&mut self, into: &mut [u8]) -> io::Result<usize> {
        self.step(into.len())
    }
}

impl Write for Scripted<'_> {
    fn write(&mut self, bytes: &[u8]) -> io::Result<usize> {
        self.step(bytes.len())
    }

    fn flush(&mut self) -> io::Result<()> {
        Ok(())
    }
}

fn read_twice<N: Conn>(rt: &impl Abort, conn: &mut N, counts: [Option<usize>; 2]) {
    let mut piece = [0u8; 4];
    for wanted in counts {
        assert!(rt; conn.read(&mut piece).unwrap_or(None) == wanted);
    }
}

fn write_twice<N: Conn>(rt: &impl Abort, conn: &mut N, counts: [Option<usize>; 2]) {
    for wanted in counts {
        assert!(rt; conn.write(&[0u8; 4]).unwrap_or(None) == wanted);
    }
}

// Each row: what the stream answers, and what comes of two reads of up to four bytes, and of two writes of
// four; no number is a fault. A silent caller's time is over with `WouldBlock`.
static STREAMS: [(&[Step], [Option<usize>; 2], [Option<usize>; 2]); 6] = [
    (&[Step::Moves(3)], [Some(3), Some(0)], [Some(3), None]),
    (
        &[Step::Moves(9), Step::Moves(1)],
        [Some(4), Some(1)],
        [Some(4), Some(1)],
    ),
    (
        &[Step::Fails(ErrorKind::Interrupted), Step::Moves(2)],
        [Some(2), Some(0)],
        [Some(2), None],
    ),
    (
        &[Step::Fails(ErrorKind::ConnectionReset), Step::Moves(2)],
        [None, Some(2)],
        [None, Some(2)],
    ),
    (
        &[Step::Moves(1), Step::Fails(ErrorKind::WouldBlock)],
        [Some(1), None],
        [Some(1), None],
    ),
    (
        &[Step::Moves(1), Step::Fails(ErrorKind::TimedOut)],
        [Some(1), None],
        [Some(1), None],
    ),
];

#[test]
fn a_stream_fails(rt: HostRuntime) -> Result<(), Fail> {
    for (steps, reads, writes) in &STREAMS {
        let mut conn = Connected::new(Scripted {
            steps: *steps,
            call: 0,
        });
        read_twice(&rt, &mut conn, *reads);
        drop(conn);
        let mut conn = Connected::new(Scripted {
            steps: *steps,
            call: 0,
        });
        write_twice(&rt, &mut conn, *writes);
        drop(conn);
    }
    Ok(())
}

// A listener at some port.
fn bound(rt: &HostRuntime) -> io::Result<(TcpListener, u16)> {
    for port in PORT..PORT + 100 {
        if let Ok(listener) = TcpListener::bind(rt, (Ipv4Addr::LOCALHOST, port)) {
            return Ok((listener, port));
        }
    }
    Err(io::Error::from(ErrorKind::AddrInUse))
}

// The next connection of a door, which is out from then on.
fn next<D: Door>(door: &mut D) -> Result<D::Conn, Fail>
where
    D::Conn: Drop,
    ensures { IfOk result (λ _. 1 ≤ D.out door.new) }
{
    match door.accept() {
        Ok(Given::One(conn)) => Ok(conn),
        _ => Err(Fail::from("no connection")),
    }
}

// The next connection and the stream of its other side.
fn connected<D: Door>(
    rt: &HostRuntime,
    door: &mut D,
    port: u16,
) -> Result<(D::Conn, TcpStream), Fail>
where
    D::Conn: Drop,
    ensures { IfOk result (λ _. 1 ≤ D.out door.new) }
{
    let other = TcpStream::connect(rt, (Ipv4Addr::LOCALHOST, port))?;
    match next(door) {
        Ok(conn) => Ok((conn, other)),
        Err(fail) => {
            drop(other);
            Err(fail)
        }
    }
}

fn ends_in_the_midst<A: Abort, D: Door>(
    rt: &HostRuntime,
    end: &A,
    door: &mut D,
    port: u16,
) -> Result<(), Fail>
where
    D::Conn: Drop,
{
    let (mut conn, mut other) = connected(rt, door, port)?;
    let mut piece = [0u8; 8];
    assert_that(end, other.write_all(b"GET").is_ok(), "a begin");
    assert_that(end, conn.read(&mut piece) == Ok(Some(3)), "what is sent");
    assert_that(end, conn.write(b"bye") == Ok(Some(3)), "a reply is written");
    let read = other.read(&mut piece);
    assert_that(end, read.is_ok_and(|count| count == 3), "the reply is read");
    drop(other);
    assert_that(end, conn.read(&mut piece) == Ok(Some(0)), "the end");
    door.done(conn);
    Ok(())
}

#[test]
fn a_caller_ends_in_the_midst(rt: HostRuntime) -> Result<(), Fail> {
    let (listener, port) = bound(&rt)?;
    let mut door = Listening::new(listener, &rt);
    let ended = ends_in_the_midst(&rt, &rt, &mut door, port);
    drop(door);
    ended
}

fn is_gone<A: Abort, D: Door>(
    rt: &HostRuntime,
    end: &A,
    door: &mut D,
    port: u16,
) -> Result<(), Fail>
where
    D::Conn: Drop,
{
    let (mut conn, other) = connected(rt, door, port)?;
    assert_that(end, conn.write(b"unread") == Ok(Some(6)), "what is sent");
    drop(other);
    assert_that(end, conn.read(&mut [0u8; 8]).is_err(), "a read behind it");
    let _ = conn.write(b"more");
    assert_that(end, conn.write(b"more").is_err(), "a write behind it");
    door.done(conn);
    Ok(())
}

// What it was given and never read makes its end a reset.
#[test]
fn a_caller_is_gone(rt: HostRuntime) -> Result<(), Fail> {
    let (listener, port) = bound(&rt)?;
    let mut door = Listening::new(listener, &rt);
    let gone = is_gone(&rt, &rt, &mut door, port);
    drop(door);
    gone
}

#[test]
fn a_caller_is_silent(rt: HostRuntime) -> Result<(), Fail> {
    let (listener, port) = bound(&rt)?;
    let Ok(other) = TcpStream::connect(&rt, (Ipv4Addr::LOCALHOST, port)) else {
        panic!(rt; "no connection")
    };
    assert!(rt;
        other
            .set_read_timeout(Some(Duration::from_millis(20)))
            .is_ok()
    );
    let mut conn = Connected::new(other);
    assert!(rt; conn.read(&mut [0u8; 8]).is_err());
    assert!(rt; conn.write(b"still here") == Ok(Some(10)));
    drop(conn);
    drop(listener);
    Ok(())
}

// The line of a call that takes 1,500 microseconds.
fn line_of(
    alloc: Global,
    at_ms: u64,
    asked: (&[u8], &[u8]),
    response: &[u8],
) -> Result<String, Fail> {
    let words = asked_words(alloc, asked.0, asked.1)?;
    let at = Duration::from_millis(at_ms);
    let line = call_line(
        alloc,
        at,
        words.as_str(),
        response,
        Duration::from_micros(1500),
    );
    drop(words);
    Ok(line?)
}

// The moment, method and target of a call, the response, and the line.
static CALLS: [(u64, &[u8], &[u8], &[u8], &str); 4] = [
    (
        0,
        b"GET",
        b"/",
        b"HTTP/1.1 404 Not Found\r\n\r\n",
        "1970-01-01T00:00:00.000Z GET / 404 26 1500",
    ),
    (
        1_795_852_800_123,
        b"POST",
        b"/orders/messages/head?timeout=5",
        b"HTTP/1.1 201 Created\r\n\r\n",
        "2026-11-28T08:00:00.123Z POST /orders/messages/head?timeout=5 201 24 1500",
    ),
    (
        951_782_399_999,
        b"PUT",
        b"/a\nb\x7f\xc3\xa9~",
        b"HTTP",
        "2000-02-28T23:59:59.999Z PUT /a%0Ab%7F%C3%A9~ - 4 1500",
    ),
    (
        253_402_300_800_000,
        b"GET",
        b"/%0A",
        b"HTTP/1.1 200 OK\r\n\r\n",
        "- GET /%0A 200 19 1500",
    ),
];

#[test]
fn a_log_has_a_line(rt: HostRuntime) -> Result<(), Fail> {
    for (at_ms, method, path, response, wanted) in &CALLS {
        let line = line_of(rt.alloc(), *at_ms, (method, path), response)?;
        assert_eq!(rt; line.as_str(), *wanted);
    }
    Ok(())
}

// A door with one connection, whose other side sends two bytes.
fn door_of_one(alloc: Global) -> Result<MemDoor, Fail> {
    let sent = b"hi".to_vec(alloc)?;
    let sink = MemSink::new(alloc, 8, Vec::new(alloc))?;
    let conn = MemConn::new(MemSource::new(sent, 8, Vec::new(alloc)), sink);
    let given = vec![in alloc; conn]?;
    Ok(MemDoor::new(alloc, given, Vec::new(alloc))?)
}

// Whether a door has given its last connection.
fn is_over<D: Door>(door: &mut D) -> bool
where
    D::Conn: Drop,
{
    matches!(door.accept(), Ok(Given::End))
}

// Serves the one connection of a door.
fn serves_one<D: Door>(rt: &impl Abort, door: &mut D) -> Result<(), Fail>
where
    D::Conn: Drop,
{
    let mut conn = next(door)?;
    let mut piece = [0u8; 8];
    assert_that(rt, conn.read(&mut piece) == Ok(Some(2)), "what is sent");
    conn.asked(b"GET", b"/");
    conn.answered(b"HTTP/1.1 200 OK\r\n\r\n");
    conn.answered(b"HTTP/1.1 400 Bad Request\r\n\r\n");
    assert_that(rt, conn.write(b"reply") == Ok(Some(5)), "a reply");
    door.done(conn);
    assert_that(rt, is_over(door), "no other connection");
    Ok(())
}

#[test]
fn a_log_changes_nothing(rt: HostRuntime) -> Result<(), Fail> {
    for is_on in [false, true] {
        let door = door_of_one(rt.alloc())?;
        let mut door = Logging::new(door, rt.alloc(), &rt, is_on);
        let served = serves_one(&rt, &mut door);
        drop(door);
        served?;
    }
    Ok(())
}
