// A disk that is read alone: what a file held as it was read.
ghost use Rattle.std.specs.Prelude.{◌≡◌, ◌≤◌, [], true, length};
ghost use Rattle.sb_outside.specs.Causes.{RoseByOne};
ghost use Rattle.sb_outside.specs.Held.{IsImage, at_rest};

use crate::adapters::read_some;
use crate::memory_streams::read_at;
use crate::{Disk, DiskFault, LONGEST_DISK};
use std::alloc::Global;
use std::fs::{File, Files};
use std::io;
use std::io::{Eprint, ErrorKind, Read, Seek, SeekFrom};

// A file is read in pieces of at most so many bytes.
const PIECE_BYTES: usize = 1 << 20;

// How many of its first bytes tell a file from the one that stood there before.
const FRONT_BYTES: usize = 43;

// How often a file is read at most that is another one each time.
const MOST_TRIES: usize = 5;

/// Bytes that are read alone, as a disk. It is honest; each write, cut and sync is a counted fault, and
/// does nothing.
#[derive(Drop)]
pub struct ReadOnly {
    bytes: Vec<u8>,
    // Whether each call fails.
    fails: bool,
    faults: u64,
    ghost image: { IsImage (at_rest bytes.items) bytes.items },
}

impl ReadOnly {
    /// A disk with these bytes.
    pub fn new(bytes: Vec<u8>) -> Self
        ensures held { ⟦<ReadOnly as Disk>⟧.held result ≡ at_rest bytes.items }
        ensures honest { ⟦<ReadOnly as Disk>⟧.honest result ≡ true }
        ensures count { ⟦<ReadOnly as Disk>⟧.count result ≡ 0 }
    {
        ReadOnly {
            bytes,
            fails: false,
            faults: 0,
        }
    }

    /// A disk whose bytes can't be had: each call is a counted fault.
    pub fn failing(alloc: Global) -> Self
        ensures { ⟦<ReadOnly as Disk>⟧.count result ≡ 0 }
    {
        ReadOnly {
            bytes: Vec::new(alloc),
            fails: true,
            faults: 0,
        }
    }

    // Counts a fault.
    fn fault(&mut self) -> DiskFault
        ensures fault { RoseByOne self.old.faults self.new.faults }
        ensures later { self.old.faults ≤ self.new.faults }
        ensures bytes { self.new.bytes ≡ self.old.bytes }
    {
        self.faults = self.faults.saturating_add(1);
        DiskFault
    }
}

impl Disk for ReadOnly {
    ghost honest = { λ _. true };

    ghost held = { λ d. at_rest d.bytes.items };

    ghost past = { λ _. [] };

    ghost count = { λ d. d.faults };

    ghost seen_is_image = { λ d _. d.image };

    fn faults(&self) -> u64 {
        self.faults
    }

    fn length(&mut self) -> Result<u64, DiskFault> {
        if self.fails || self.bytes.len() as u64 > LONGEST_DISK {
            return Err(self.fault());
        }
        Ok(self.bytes.len() as u64)
    }

    fn read(&mut self, place: u64, into: &mut [u8]) -> Result<usize, DiskFault> {
        if self.fails {
            return Err(self.fault());
        }
        Ok(read_at(&self.bytes, place as usize, usize::MAX, into))
    }

    fn write_at(&mut self, _place: u64, _bytes: &[u8]) -> Result<(), DiskFault> {
        Err(self.fault())
    }

    fn cut(&mut self, _end: u64) -> Result<(), DiskFault> {
        Err(self.fault())
    }

    fn sync(&mut self) -> Result<(), DiskFault> {
        Err(self.fault())
    }
}

/// Reads a file whole, as a disk that is read alone; `None` where it isn't there, and an error where it
/// can't be opened. It is opened for reading, and neither made, locked nor synced. What another writes behind its
/// end meanwhile may be in it or not; where the file is shorter by then, or begins otherwise, it is read
/// again, five times at most. Where a read fails, a line on standard error says so, and each call of
/// the disk fails.
pub fn read_disk<R: Files, E: Eprint>(
    files: &R,
    alloc: Global,
    path: &str,
    stderr: &E,
) -> io::Result<Option<ReadOnly>> {
    for _ in 0..MOST_TRIES {
        let Some(mut file) = opened(files, path)? else {
            return Ok(None);
        };
        let bytes = steady_bytes(alloc, &mut file);
        let disk = disk_of(alloc, path, stderr, bytes);
        drop(file);
        if let Some(disk) = disk? {
            return Ok(Some(disk));
        }
    }
    Err(io::Error::new(
        ErrorKind::Other,
        "another file stood there each time that it was read",
    ))
}

// A file that is read; none where it isn't there.
fn opened<R: Files>(files: &R, path: &str) -> io::Result<Option<R::File>> {
    match File::open(files, path) {
        Ok(file) => Ok(Some(file)),
        Err(error) if error.kind() == ErrorKind::NotFound => Ok(None),
        Err(error) => Err(error),
    }
}

// The disk of what was read of a file, if that stayed the same. Of a read that failed it tells, and each call
// of the disk fails.
fn disk_of<E: Eprint>(
    alloc: Global,
    path: &str,
    stderr: &E,
    bytes: io::Result<Option<Vec<u8>>>,
) -> io::Result<Option<ReadOnly>> {
    match bytes {
        Ok(Some(bytes)) => Ok(Some(ReadOnly::new(bytes))),
        Ok(None) => Ok(None),
        Err(error) if error.kind() == ErrorKind::OutOfMemory => Err(error),
        Err(error) => {
            let _ = eprintln!(stderr; "bus: {path}: {error}; mend the disk, and look again");
            Ok(Some(ReadOnly::failing(alloc)))
        }
    }
}

// The bytes of a file, unless it is another one once they are read.
fn steady_bytes<F: Read + Seek>(alloc: Global, file: &mut F) -> io::Result<Option<Vec<u8>>> {
    let bytes = bytes_of(alloc, file, PIECE_BYTES, u64::MAX)?;
    match may_hold(alloc, file, &bytes) {
        Ok(true) => Ok(Some(bytes)),
        Ok(false) => {
            drop(bytes);
            Ok(None)
        }
        Err(error) => {
            drop(bytes);
            Err(error)
        }
    }
}

// Whether a file may still be the one of which these bytes were read.
fn may_hold<F: Read + Seek>(alloc: Global, file: &mut F, bytes: &[u8]) -> io::Result<bool> {
    let length = file.seek(SeekFrom::End(0))?;
    let front = bytes_of(alloc, file, FRONT_BYTES, FRONT_BYTES as u64)?;
    let is_same = length >= bytes.len() as u64 && is_front(&front, bytes);
    drop(front);
    Ok(is_same)
}

// Whether a file that begins so may be the one with these bytes.
fn is_front(front: &[u8], bytes: &[u8]) -> bool {
    let most = bytes.len().min(FRONT_BYTES);
    front.len().min(FRONT_BYTES) == most && front.starts_with(&bytes[..most])
}

// The bytes of a file, read in pieces of at most so many bytes, up to the first read that gives none or
// the last of so many reads. What is written behind the end meanwhile may be among them.
fn bytes_of<F: Read + Seek>(
    alloc: Global,
    file: &mut F,
    piece_bytes: usize,
    reads: u64,
) -> io::Result<Vec<u8>> {
    file.seek(SeekFrom::Start(0))?;
    let mut piece = vec![in alloc; 0; piece_bytes]?;
    let mut bytes = Vec::new(alloc);
    let added = add_pieces(file, &mut piece, reads, &mut bytes);
    drop(piece);
    match added {
        Ok(()) => Ok(bytes),
        Err(error) => {
            drop(bytes);
            Err(error)
        }
    }
}

// Adds what a file gives piece by piece, up to the first read that gives none or the last of so many.
fn add_pieces<F: Read>(
    file: &mut F,
    piece: &mut [u8],
    reads: u64,
    bytes: &mut Vec<u8>,
) -> io::Result<()> {
    for _ in 0..reads {
        let count = read_some(file, piece)?;
        if count == 0 {
            break;
        }
        bytes.extend_from_slice(&piece[..count])?;
    }
    Ok(())
}
