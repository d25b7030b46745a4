// What no clause says of real doors: that a connection comes, is read, written and woken for. Halls, doors and
// connections are lent, and dropped by calls: so the proofs of the tests stay short.
ghost use Rattle.std.specs.Prelude.{◌≤◌, IfOk};

use crate::asserts::{assert_is, assert_that};
use sb_network::{Halls, Place, Queue, files_allowed, limit_in, open_halls, places_within};
use sb_outside::{Clock, Conn, Door, Given, Lobby, SystemClock};
use std::io;
use std::io::{ErrorKind, Read, Write};
use std::net::{Ipv4Addr, Shutdown, TcpStream};
use std::process::Abort;
use std::test::Fail;

// The first of the ports that are tried.
const PORT: u16 = 43_100;

#[test]
fn files_are_counted(rt: HostRuntime) -> Result<(), Fail> {
    assert!(rt; files_allowed(&rt).unwrap_or(1) > 0);
    let limits =
        "Limit   Soft Limit   Hard Limit   Units\nMax open files            1024                 524288               files     \n";
    assert_is(&rt, limit_in(limits), Some(1024));
    let unlimited =
        "Max open files            unlimited            unlimited            files     ";
    assert_is(&rt, limit_in(unlimited), None);
    assert_is(&rt, limit_in("Max processes             7 "), None);
    assert_is(&rt, places_within(1024, 1024, 4), 988);
    assert_is(&rt, places_within(1060, 1024, 4), 1024);
    assert_is(&rt, places_within(3, 1024, 4), 1);
    Ok(())
}

// Two places, each with a thread of its own, at some port.
fn opened(rt: &HostRuntime) -> io::Result<(Vec<Place<&HostRuntime>>, Halls<&HostRuntime>, u16)> {
    for port in PORT..PORT + 100 {
        if let Ok((doors, halls)) = open_halls(rt, rt.alloc(), port, 2, 2) {
            return Ok((doors, halls, port));
        }
    }
    Err(io::Error::from(ErrorKind::AddrInUse))
}

// Waits until this worker, its thread's only one, is called, some seconds at most.
fn woken<C: Clock, L: Lobby + Sync>(halls: &L, clock: &C, worker: usize) -> bool {
    for _ in 0..100 {
        if halls.called(worker) == Some(worker) {
            return true;
        }
        if halls.wait(clock, worker, clock.now().saturating_add(100)) {
            return false;
        }
    }
    false
}

// The next connection of a door, which is out from then on. A thread may take both.
fn next<D: Door + Send>(door: &mut D) -> io::Result<D::Conn>
where
    D::Conn: Send + Drop,
    ensures { IfOk result (λ _. 1 ≤ D.out door.new) }
{
    match door.accept() {
        Ok(Given::One(caller)) => Ok(caller),
        _ => Err(io::Error::from(ErrorKind::NotConnected)),
    }
}

// Whether a read of so many bytes at most finds so many, or nothing yet.
fn finds<N: Conn>(caller: &mut N, room: usize, found: Option<usize>) -> bool
    requires { room ≤ 16 }
{
    let mut piece = [0u8; 16];
    caller
        .read(&mut piece[..room])
        .is_ok_and(|count| count == found)
}

// Whether a read gives so many bytes.
fn has_read(stream: &mut TcpStream, piece: &mut [u8], count: usize) -> bool {
    stream.read(piece).is_ok_and(|read| read == count)
}

// A caller comes, asks, is answered and let go.
fn serves_one<A: Abort, C: Clock, L: Lobby + Sync, D: Door + Send>(
    rt: &HostRuntime,
    end: &A,
    clock: &C,
    halls: &L,
    door: &mut D,
    port: u16,
) -> Result<(), Fail>
where
    D::Conn: Send + Drop,
{
    assert_that(end, next(door).is_err(), "no connection at first");
    assert_is(end, halls.called(0), None);
    let mut other = TcpStream::connect(rt, (Ipv4Addr::LOCALHOST, port))?;
    assert_that(end, woken(halls, clock, 0), "called for a connection");
    assert_is(end, halls.called(0), None);
    let mut caller = next(door)?;
    assert_that(end, finds(&mut caller, 8, None), "nothing at first");
    assert_that(end, other.write_all(b"ask").is_ok(), "a question is sent");
    assert_that(end, woken(halls, clock, 0), "called for a question");
    assert_that(end, finds(&mut caller, 8, Some(3)), "the question");
    assert_that(end, finds(&mut caller, 8, None), "nothing behind it");
    caller.asked(b"GET", b"/");
    caller.answered(b"reply");
    assert_that(end, caller.write(b"reply") == Ok(Some(5)), "a reply");
    let mut piece = [0u8; 8];
    assert_that(end, has_read(&mut other, &mut piece, 5), "the reply");
    door.done(caller);
    assert_that(end, has_read(&mut other, &mut piece, 0), "the end");
    drop(other);
    Ok(())
}

// More comes than a read takes, and an end behind the last of it.
fn reads_on<A: Abort, C: Clock, L: Lobby + Sync, D: Door + Send>(
    rt: &HostRuntime,
    end: &A,
    clock: &C,
    halls: &L,
    door: &mut D,
    port: u16,
) -> Result<(), Fail>
where
    D::Conn: Send + Drop,
{
    let mut other = TcpStream::connect(rt, (Ipv4Addr::LOCALHOST, port))?;
    let mut caller = next(door)?;
    let sent = other.write_all(b"a piece and some");
    assert_that(end, sent.is_ok(), "two pieces are sent");
    assert_that(end, woken(halls, clock, 0), "called for two pieces");
    assert_that(end, finds(&mut caller, 8, Some(8)), "the first piece");
    assert_that(end, finds(&mut caller, 8, Some(8)), "the second piece");
    assert_that(end, finds(&mut caller, 8, None), "nothing behind them");
    assert_that(end, other.write_all(b"the last").is_ok(), "a last piece");
    assert_that(end, other.shutdown(Shutdown::Write).is_ok(), "an end");
    assert_that(end, woken(halls, clock, 0), "called for the last piece");
    assert_that(end, finds(&mut caller, 16, Some(8)), "the last piece");
    assert_that(end, finds(&mut caller, 16, Some(0)), "the end");
    door.done(caller);
    drop(other);
    Ok(())
}

#[test]
fn a_caller_is_served(rt: HostRuntime) -> Result<(), Fail> {
    let clock = SystemClock::new(&rt)?;
    let (mut doors, halls, port) = opened(&rt)?;
    let Some(mut door) = doors.pop() else {
        panic!(rt; "no door")
    };
    let served = serves_one(&rt, &rt, &clock, &halls, &mut door, port);
    drop(door);
    drop(doors);
    drop(halls);
    served
}

#[test]
fn what_is_left_is_read(rt: HostRuntime) -> Result<(), Fail> {
    let clock = SystemClock::new(&rt)?;
    let (mut doors, halls, port) = opened(&rt)?;
    let Some(mut door) = doors.pop() else {
        panic!(rt; "no door")
    };
    let read = reads_on(&rt, &rt, &clock, &halls, &mut door, port);
    drop(door);
    drop(doors);
    drop(halls);
    read
}

fn calls_in_order<L: Lobby>(rt: &impl Abort, halls: &L) {
    assert_that(rt, halls.call(1), "a call of the second");
    assert_that(rt, halls.call(0), "a call of the first");
    assert_is(rt, halls.called(0), Some(0));
    assert_is(rt, halls.called(1), Some(1));
    assert_is(rt, halls.called(1), None);
    assert_that(rt, !halls.call(2), "no call of a third");
}

#[test]
fn who_goes_on_stands_behind_the_others(rt: HostRuntime) -> Result<(), Fail> {
    let (doors, halls, _port) = opened(&rt)?;
    calls_in_order(&rt, &halls);
    drop(doors);
    drop(halls);
    Ok(())
}

fn stands_once(rt: &impl Abort, queue: &Queue) {
    for place in [2, 0, 2, 7] {
        queue.put_last(place);
    }
    queue.put_first(1);
    queue.put_first(0);
    for wanted in [Some(1), Some(2), Some(0), None] {
        assert_is(rt, queue.take(), wanted);
    }
    assert_that(rt, queue.is_empty(), "an empty queue");
    queue.put_first(3);
    queue.put_last(1);
    assert_is(rt, queue.take(), Some(3));
    assert_is(rt, queue.take(), Some(1));
}

#[test]
fn each_stands_once_in_a_queue(rt: HostRuntime) -> Result<(), Fail> {
    let queue = Queue::new(rt.alloc(), 4)?;
    stands_once(&rt, &queue);
    drop(queue);
    Ok(())
}

fn calls_for_arrivals<C: Clock, L: Lobby + Sync>(rt: &impl Abort, clock: &C, halls: &L) {
    halls.listen(0, 0b0111, 1);
    halls.ring(1, 0b1011);
    assert_is(rt, halls.called(0), None);
    halls.ring(1, 0b1111);
    assert_that(rt, woken(halls, clock, 0), "called for an arrival");
    assert_is(rt, halls.called(0), None);
    halls.listen(0, 0, 0);
    halls.ring(0, 0b1111);
    assert_is(rt, halls.called(0), None);
}

#[test]
fn who_waits_for_arrivals_is_called(rt: HostRuntime) -> Result<(), Fail> {
    let clock = SystemClock::new(&rt)?;
    let (doors, halls, _port) = opened(&rt)?;
    calls_for_arrivals(&rt, &clock, &halls);
    drop(doors);
    drop(halls);
    Ok(())
}

fn looks_for_what_came<C: Clock, L: Lobby>(rt: &impl Abort, clock: &C, halls: &L) {
    halls.ring(0, 0b1111);
    halls.listen(1, 0b0110, 1);
    assert_is(rt, halls.called(1), Some(1));
    halls.listen(1, 0b0110, 1);
    assert_is(rt, halls.called(1), None);
    assert_that(rt, !halls.wait(clock, 1, 0), "the lobby says who goes on");
    halls.listen(1, 0b0011, 1);
    assert_is(rt, halls.called(1), None);
}

// A call before an arrival finds nothing, and who listens behind that makes it once more.
#[test]
fn what_came_before_is_looked_for(rt: HostRuntime) -> Result<(), Fail> {
    let clock = SystemClock::new(&rt)?;
    let (doors, halls, _port) = opened(&rt)?;
    looks_for_what_came(&rt, &clock, &halls);
    drop(doors);
    drop(halls);
    Ok(())
}

fn calls_one_of_a_kind<L: Lobby>(rt: &impl Abort, halls: &L) {
    halls.listen(0, 0b11, 1);
    halls.listen(1, 0b11, 1);
    halls.ring(0, 0b11);
    assert_is(rt, halls.called(0), Some(0));
    assert_is(rt, halls.called(1), None);
    halls.listen(0, 0, 0);
    assert_is(rt, halls.called(0), None);
    assert_is(rt, halls.called(1), Some(1));
    halls.listen(0, 0b11, 1);
    halls.listen(1, 0b11, 2);
    let _ = (halls.called(0), halls.called(1));
    halls.ring(0, 0b11);
    assert_is(rt, halls.called(0), Some(0));
    assert_is(rt, halls.called(1), Some(1));
}

// Of those who wait for the same one is called, and once it has what came the next one is.
#[test]
fn one_of_a_kind_is_called(rt: HostRuntime) -> Result<(), Fail> {
    let (doors, halls, _port) = opened(&rt)?;
    calls_one_of_a_kind(&rt, &halls);
    drop(doors);
    drop(halls);
    Ok(())
}
