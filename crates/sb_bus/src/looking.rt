// A look at the journal of a folder: its files are read alone, and the folder isn't locked.
use crate::endings::say;
use crate::outside::{Call, over_disks};
use sb_outside::{Disk, NoDoor, NoLink, PauseLobby, ReadOnly, made, read_disk};
use std::fs::File;
use std::io;
use std::io::{Error, ErrorKind, Read};
use std::sync::Wait;
use std::thread::Threads;

// The status where something of the outside can't be had.
const NOT_MADE: u8 = 11;

// The status for want of memory.
const NO_MEMORY: u8 = 7;

// How often both files are read at most.
const MOST_TRIES: usize = 5;

// How many of its first bytes tell a file from the one that stood there before: those before its base.
const FRONT_BYTES: usize = 42;

/// Calls the top over what the files of a folder hold, as they are read. Where the folder has no journal,
/// or a file can't be opened for reading, a line on standard error says so.
pub(crate) fn over_files<T: Threads + Wait + Sync>(call: &Call<T>, folder: &str) -> u8 {
    let rt = call.rt;
    let disks = read_disks(rt, folder);
    if wants_memory(&disks) {
        return say(rt, NO_MEMORY, folder);
    }
    let advice = "name a folder with a journal that may be read";
    let Some((disk_a, disk_b)) = made(rt, folder, advice, disks) else {
        return NOT_MADE;
    };
    let mut doors: Vec<NoDoor> = Vec::new(rt.alloc());
    let (status, disks) = over_disks(
        call,
        disk_a,
        disk_b,
        &mut doors,
        &PauseLobby,
        &mut NoLink::new(),
    );
    drop(disks);
    say(rt, status, folder)
}

// Whether this is an error for want of memory.
fn wants_memory<T>(found: &io::Result<T>) -> bool {
    match found {
        Ok(_) => false,
        Err(error) => error.kind() == ErrorKind::OutOfMemory,
    }
}

// The disks of a folder, as they are read. The second file may be missing. Where the journal went on with the
// other file meanwhile, both may have been read while neither counted; so they are read again, five times at most.
fn read_disks(rt: &HostRuntime, folder: &str) -> io::Result<(ReadOnly, ReadOnly)> {
    for _ in 0..MOST_TRIES {
        let Some(mut disk_a) = read_journal(rt, folder, "a")? else {
            return Err(Error::new(ErrorKind::NotFound, "there is no a.journal"));
        };
        let disk_b = match read_journal(rt, folder, "b")? {
            Some(disk) => disk,
            None => ReadOnly::new(Vec::new(rt.alloc())),
        };
        if begins_so(rt, folder, &mut disk_a)? {
            return Ok((disk_a, disk_b));
        }
    }
    Err(Error::new(
        ErrorKind::Other,
        "the journal went on with its other file each time that it was read",
    ))
}

// Whether the first file still begins as it was read. Each of its generations begins otherwise.
fn begins_so(rt: &HostRuntime, folder: &str, disk: &mut ReadOnly) -> io::Result<bool> {
    let path = format!(in rt.alloc(); "{folder}/a.journal")?;
    let mut file = File::open(rt, path.as_str())?;
    let mut front = [0; FRONT_BYTES];
    let _ = file.read(&mut front)?;
    let mut was = [0; FRONT_BYTES];
    match disk.read(0, &mut was) {
        Ok(_) => Ok(front.starts_with(&was)),
        Err(_) => Ok(true),
    }
}

// The disk of the journal with this name in a folder, if it is there.
fn read_journal(rt: &HostRuntime, folder: &str, name: &str) -> io::Result<Option<ReadOnly>> {
    let path = format!(in rt.alloc(); "{folder}/{name}.journal")?;
    read_disk(rt, rt.alloc(), path.as_str(), rt)
}
