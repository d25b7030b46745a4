// Disks and streams that are made for a call of the program and lent to it, and the call itself. Each is
// dropped by a call, and where it is made there is little else: so the proofs of the tests stay short.
ghost use Rattle.std.specs.Prelude.{◌≤◌};

use crate::fault::CallFault;
use crate::journals::SALT;
use sb_app::{NoWatcher, Watcher, top, top_alone};
use sb_outside::{
    Clock, Door, Link, Lobby, MemConn, MemDisk, MemDoor, MemSink, MemSource, NoDoor, NoLink,
    PauseLobby, StepClock,
};
use sb_rest::Access;
use std::alloc::{AllocError, Global};
use std::sync::Wait;
use std::thread::Threads;

// A disk with these bytes, which fails at these calls.
fn disk_of(alloc: Global, bytes: &[u8], failing: &[u64]) -> Result<MemDisk, CallFault> {
    let bytes = bytes.to_vec(alloc)?;
    let failing = failing.to_vec(alloc)?;
    Ok(MemDisk::new(alloc, bytes, failing)?)
}

/// A source of these bytes, which gives at most so many of them a read, and fails at these calls.
pub fn source_of(
    alloc: Global,
    bytes: &[u8],
    most: usize,
    failing: &[u64],
) -> Result<MemSource, CallFault>
    requires { 1 ≤ most }
{
    let bytes = bytes.to_vec(alloc)?;
    let failing = failing.to_vec(alloc)?;
    Ok(MemSource::new(bytes, most, failing))
}

/// An empty sink with room for so many bytes, which fails at these calls.
pub fn sink_of(alloc: Global, room: usize, failing: &[u64]) -> Result<MemSink, CallFault> {
    let failing = failing.to_vec(alloc)?;
    Ok(MemSink::new(alloc, room, failing)?)
}

/// A connection that sends these bytes, of which a read gets so many at most.
pub fn connection_of(alloc: Global, bytes: &[u8], most: usize) -> Result<MemConn, CallFault>
    requires { 1 ≤ most }
{
    let source = source_of(alloc, bytes, most, &[])?;
    match sink_of(alloc, 4096, &[]) {
        Ok(sink) => Ok(MemConn::new(source, sink)),
        Err(fault) => {
            drop(source);
            Err(fault)
        }
    }
}

/// A door with these connections, alone.
pub fn doors_of(alloc: Global, connections: Vec<MemConn>) -> Result<Vec<MemDoor>, CallFault> {
    let door = MemDoor::new(alloc, connections, Vec::new(alloc))?;
    match vec![in alloc; door] {
        Ok(doors) => Ok(doors),
        Err(failed) => Err(AllocError::from(failed).into()),
    }
}

/// The bytes of a disk, which is let go.
pub fn bytes_of(alloc: Global, disk: MemDisk) -> Result<Vec<u8>, CallFault> {
    let bytes = disk.bytes().to_vec(alloc);
    drop(disk);
    Ok(bytes?)
}

fn call_top<
    T: Threads + Wait + Sync,
    C: Clock + Sync,
    R: Door + Send,
    L: Lobby + Sync,
    N: Link,
    W: Watcher,
>(
    threads: &T,
    alloc: Global,
    words: &[&str],
    access: &Access,
    disk_a: MemDisk,
    disk_b: MemDisk,
    clock: &C,
    input: &mut MemSource,
    output: &mut MemSink,
    doors: &mut Vec<R>,
    lobby: &L,
    link: &mut N,
    watcher: &W,
) -> (u8, Option<(MemDisk, MemDisk)>)
where
    R::Conn: Send,
{
    top(
        threads,
        alloc,
        words,
        access,
        disk_a,
        disk_b,
        SALT,
        clock,
        input,
        output,
        doors,
        lobby,
        &[],
        link,
        watcher,
    )
}

// Disk a, where disk b is as empty as it was made.
fn first_of(disk_a: MemDisk, disk_b: MemDisk) -> Result<MemDisk, CallFault> {
    let is_written = !disk_b.bytes().is_empty();
    drop(disk_b);
    if is_written {
        drop(disk_a);
        return Err(CallFault::WrittenB);
    }
    Ok(disk_a)
}

/// A disk with these bytes that fails at these calls, and an empty one.
pub fn disks_of(alloc: Global, disk: (&[u8], &[u64])) -> Result<(MemDisk, MemDisk), CallFault> {
    both_of(alloc, disk, (&[], &[]))
}

// Two disks, each with these bytes, which fail at these calls.
fn both_of(
    alloc: Global,
    disk_a: (&[u8], &[u64]),
    disk_b: (&[u8], &[u64]),
) -> Result<(MemDisk, MemDisk), CallFault> {
    let first = disk_of(alloc, disk_a.0, disk_a.1)?;
    match disk_of(alloc, disk_b.0, disk_b.1) {
        Ok(second) => Ok((first, second)),
        Err(fault) => {
            drop(first);
            Err(fault)
        }
    }
}

/// Makes a call over two disks; its status, and the disks as it leaves them. A fault where the call keeps
/// them.
pub fn called_over<
    T: Threads + Wait + Sync,
    C: Clock + Sync,
    R: Door + Send,
    L: Lobby + Sync,
    N: Link,
    W: Watcher,
>(
    threads: &T,
    alloc: Global,
    words: &[&str],
    access: &Access,
    disks: (MemDisk, MemDisk),
    clock: &C,
    input: &mut MemSource,
    output: &mut MemSink,
    doors: &mut Vec<R>,
    lobby: &L,
    link: &mut N,
    watcher: &W,
) -> Result<(u8, MemDisk, MemDisk), CallFault>
where
    R::Conn: Send,
{
    let (disk_a, disk_b) = disks;
    let (status, disks) = call_top(
        threads, alloc, words, access, disk_a, disk_b, clock, input, output, doors, lobby, link,
        watcher,
    );
    match disks {
        Some((disk_a, disk_b)) => Ok((status, disk_a, disk_b)),
        None => Err(CallFault::NoDisks),
    }
}

/// Makes a call over a disk a with these bytes that fails at these calls; its status, and that disk as it
/// leaves it. A fault where the call keeps the disks, or has written on disk b.
pub fn called_in<
    T: Threads + Wait + Sync,
    C: Clock + Sync,
    R: Door + Send,
    L: Lobby + Sync,
    N: Link,
    W: Watcher,
>(
    threads: &T,
    alloc: Global,
    words: &[&str],
    access: &Access,
    disk: (&[u8], &[u64]),
    clock: &C,
    input: &mut MemSource,
    output: &mut MemSink,
    doors: &mut Vec<R>,
    lobby: &L,
    link: &mut N,
    watcher: &W,
) -> Result<(u8, MemDisk), CallFault>
where
    R::Conn: Send,
{
    let disks = disks_of(alloc, disk)?;
    let (status, disk_a, disk_b) = called_over(
        threads, alloc, words, access, disks, clock, input, output, doors, lobby, link, watcher,
    )?;
    Ok((status, first_of(disk_a, disk_b)?))
}

/// The same where all workers are in one thread.
pub fn called<T: Threads + Wait + Sync, C: Clock + Sync, R: Door + Send, N: Link, W: Watcher>(
    threads: &T,
    alloc: Global,
    words: &[&str],
    access: &Access,
    disk: (&[u8], &[u64]),
    clock: &C,
    input: &mut MemSource,
    output: &mut MemSink,
    doors: &mut Vec<R>,
    link: &mut N,
    watcher: &W,
) -> Result<(u8, MemDisk), CallFault>
where
    R::Conn: Send,
{
    called_in(
        threads,
        alloc,
        words,
        access,
        disk,
        clock,
        input,
        output,
        doors,
        &PauseLobby,
        link,
        watcher,
    )
}

/// The same of a call that nobody comes to, at a clock that goes on by a millisecond a reading.
pub fn called_alone<T: Threads + Wait + Sync, N: Link>(
    threads: &T,
    alloc: Global,
    words: &[&str],
    disk: (&[u8], &[u64]),
    input: &mut MemSource,
    output: &mut MemSink,
    link: &mut N,
) -> Result<(u8, MemDisk), CallFault> {
    let clock = StepClock::new(0, 1);
    let access = Access::unlocked(alloc);
    let mut doors: Vec<NoDoor> = Vec::new(alloc);
    let ended = called(
        threads, alloc, words, &access, disk, &clock, input, output, &mut doors, link, &NoWatcher,
    );
    drop(doors);
    drop(access);
    drop(clock);
    ended
}

fn call_top_alone<N: Link>(
    alloc: Global,
    words: &[&str],
    disk_a: MemDisk,
    disk_b: MemDisk,
    input: &mut MemSource,
    output: &mut MemSink,
    link: &mut N,
) -> (u8, MemDisk, MemDisk) {
    let clock = StepClock::new(0, 1);
    let ended = top_alone(
        alloc, words, disk_a, disk_b, SALT, &clock, input, output, link,
    );
    drop(clock);
    ended
}

/// Makes a call without a server over this script and a disk with these bytes that fails at these calls;
/// its status, and that disk as it leaves it.
pub fn ran_over<N: Link>(
    alloc: Global,
    words: &[&str],
    disk: (&[u8], &[u64]),
    script: &str,
    output: &mut MemSink,
    link: &mut N,
) -> Result<(u8, MemDisk), CallFault> {
    let (disk_a, disk_b) = disks_of(alloc, disk)?;
    let (status, disk_a, disk_b) = ran_between(alloc, words, disk_a, disk_b, script, output, link)?;
    Ok((status, first_of(disk_a, disk_b)?))
}

/// The same over two disks, each with these bytes, which fail at these calls, of a call that asks no
/// server: both come back.
pub fn ran_on_both(
    alloc: Global,
    words: &[&str],
    disk_a: (&[u8], &[u64]),
    disk_b: (&[u8], &[u64]),
    script: &str,
    output: &mut MemSink,
) -> Result<(u8, MemDisk, MemDisk), CallFault> {
    let (disk_a, disk_b) = both_of(alloc, disk_a, disk_b)?;
    ran_between(
        alloc,
        words,
        disk_a,
        disk_b,
        script,
        output,
        &mut NoLink::new(),
    )
}

fn ran_between<N: Link>(
    alloc: Global,
    words: &[&str],
    disk_a: MemDisk,
    disk_b: MemDisk,
    script: &str,
    output: &mut MemSink,
    link: &mut N,
) -> Result<(u8, MemDisk, MemDisk), CallFault> {
    match source_of(alloc, script.as_bytes(), 7, &[]) {
        Ok(mut input) => {
            let ended = call_top_alone(alloc, words, disk_a, disk_b, &mut input, output, link);
            drop(input);
            Ok(ended)
        }
        Err(fault) => {
            drop(disk_a);
            drop(disk_b);
            Err(fault)
        }
    }
}

/// The same of a call that asks no server.
pub fn ran(
    alloc: Global,
    words: &[&str],
    disk: (&[u8], &[u64]),
    script: &str,
    output: &mut MemSink,
) -> Result<(u8, MemDisk), CallFault> {
    ran_over(alloc, words, disk, script, output, &mut NoLink::new())
}
