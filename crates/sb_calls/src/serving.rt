// Servers over doors in memory, as most tests make them: nothing is read, nobody watches, and what is told is kept. It
// is proved here once what the tests would each prove.
ghost use Rattle.std.specs.Prelude.{◌≤◌};

use crate::calls::{called_in, connection_of, sink_of, source_of};
use crate::fault::CallFault;
use sb_app::NoWatcher;
use sb_outside::{Clock, Door, Lobby, MemDisk, MemDoor, MemSink, NoLink, PauseLobby, StepClock};
use sb_rest::Access;
use std::alloc::{AllocError, Global};
use std::sync::Wait;
use std::thread::Threads;

/// A server at the port that most tests name.
pub const SERVE: [&str; 5] = ["serve", "--data", "data", "--port", "8080"];

/// What a server leaves: its status, all that it told, and disk a.
#[derive(Drop)]
pub struct Ended {
    pub status: u8,
    pub told: Vec<u8>,
    pub disk: MemDisk,
}

impl Ended {
    /// Whether it ended with this status, and told just this.
    pub fn is(&self, status: u8, told: &str) -> bool {
        self.status == status && self.told.as_slice() == told.as_bytes()
    }
}

/// A door with one connection, which sends these bytes, of which a read gets so many at most.
pub fn door_of(alloc: Global, bytes: &[u8], most: usize) -> Result<MemDoor, CallFault>
    requires { 1 ≤ most }
{
    let conn = connection_of(alloc, bytes, most)?;
    match vec![in alloc; conn] {
        Ok(connections) => Ok(MemDoor::new(alloc, connections, Vec::new(alloc))?),
        Err(failed) => Err(AllocError::from(failed).into()),
    }
}

/// The same door, alone.
pub fn lone_door(alloc: Global, bytes: &[u8], most: usize) -> Result<Vec<MemDoor>, CallFault>
    requires { 1 ≤ most }
{
    let door = door_of(alloc, bytes, most)?;
    match vec![in alloc; door] {
        Ok(doors) => Ok(doors),
        Err(failed) => Err(AllocError::from(failed).into()),
    }
}

/// Whether the first connection that came back to the first door was given just this; nothing where none did.
pub fn is_answered(doors: &[MemDoor], response: &[u8]) -> bool {
    let Some(door) = doors.first() else {
        return false;
    };
    match door.taken().first() {
        Some(conn) => conn.bytes() == response,
        None => response.is_empty(),
    }
}

fn serve_into<T: Threads + Wait + Sync, C: Clock + Sync, R: Door + Send, L: Lobby + Sync>(
    threads: &T,
    alloc: Global,
    words: &[&str],
    access: &Access,
    disk: (&[u8], &[u64]),
    clock: &C,
    output: &mut MemSink,
    doors: &mut Vec<R>,
    lobby: &L,
) -> Result<(u8, MemDisk), CallFault>
where
    R::Conn: Send,
{
    let mut input = source_of(alloc, &[], 1, &[])?;
    let ended = called_in(
        threads,
        alloc,
        words,
        access,
        disk,
        clock,
        &mut input,
        output,
        doors,
        lobby,
        &mut NoLink::new(),
        &NoWatcher,
    );
    drop(input);
    ended
}

fn ended_of(
    ended: Result<(u8, MemDisk), CallFault>,
    told: Result<Vec<u8>, AllocError>,
) -> Result<Ended, CallFault> {
    match ended {
        Ok((status, disk)) => match told {
            Ok(told) => Ok(Ended { status, told, disk }),
            Err(error) => {
                drop(disk);
                Err(error.into())
            }
        },
        Err(fault) => {
            drop(told);
            Err(fault)
        }
    }
}

/// Serves those of these doors whom `access` lets in, over a disk a with these bytes that fails at these calls; the
/// output fails at those.
pub fn served_to<T: Threads + Wait + Sync, C: Clock + Sync, R: Door + Send, L: Lobby + Sync>(
    threads: &T,
    alloc: Global,
    words: &[&str],
    access: &Access,
    disk: (&[u8], &[u64]),
    clock: &C,
    failing_output: &[u64],
    doors: &mut Vec<R>,
    lobby: &L,
) -> Result<Ended, CallFault>
where
    R::Conn: Send,
{
    let mut output = sink_of(alloc, 256, failing_output)?;
    let ended = serve_into(
        threads,
        alloc,
        words,
        access,
        disk,
        clock,
        &mut output,
        doors,
        lobby,
    );
    let told = output.bytes().to_vec(alloc);
    drop(output);
    ended_of(ended, told)
}

/// The same where all are let in, and the output doesn't fail.
pub fn served_in<T: Threads + Wait + Sync, C: Clock + Sync, R: Door + Send, L: Lobby + Sync>(
    threads: &T,
    alloc: Global,
    words: &[&str],
    disk: (&[u8], &[u64]),
    clock: &C,
    doors: &mut Vec<R>,
    lobby: &L,
) -> Result<Ended, CallFault>
where
    R::Conn: Send,
{
    let access = Access::unlocked(alloc);
    let ended = served_to(
        threads,
        alloc,
        words,
        &access,
        disk,
        clock,
        &[],
        doors,
        lobby,
    );
    drop(access);
    ended
}

/// The same of doors in memory, all in one thread, at a clock that stands still at one second.
pub fn served<T: Threads + Wait + Sync>(
    threads: &T,
    alloc: Global,
    disk: (&[u8], &[u64]),
    doors: &mut Vec<MemDoor>,
) -> Result<Ended, CallFault> {
    let clock = StepClock::new(1000, 0);
    let ended = served_in(threads, alloc, &SERVE, disk, &clock, doors, &PauseLobby);
    drop(clock);
    ended
}
