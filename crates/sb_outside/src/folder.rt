// The folder of a journal, and its two files. They tell no content, and what std's calls do is trusted.
ghost use Rattle.std.specs.Prelude.{◌≡◌, IfOk};

use crate::{Disk, FileDisk, made};
use std::alloc::Global;
use std::fs::{File, Files, OpenFile, OpenOptions, TryLockError};
use std::io;
use std::io::{Eprint, ErrorKind};

/// What to do where a file of a folder can't be had.
const SEE_FILE: &str = "see that it may be read and written";

/// Opens a file as a disk, and makes it, empty, where it isn't there. What stands in it stays. The
/// folder has to be there.
pub fn open_disk<R: Files, E: Eprint + Drop>(
    files: &R,
    alloc: Global,
    name: String,
    stderr: E,
) -> io::Result<FileDisk<R::File, E>>
    ensures { IfOk result (λ d. ⟦<FileDisk<R::File, E> as Disk>⟧.count d ≡ 0) }
{
    let file = OpenOptions::new()
        .read(true)
        .write(true)
        .create(true)
        .open(files, name.as_str())?;
    Ok(FileDisk::new(alloc, file, name, stderr))
}

/// The disks of a folder: its files `a.journal` and `b.journal`, which are found there after a crash too.
/// Of what can't be had a line on standard error tells, and there are none.
pub fn disks_in<R: Files, E: Eprint + Copy + Drop>(
    files: &R,
    alloc: Global,
    folder: &str,
    stderr: E,
) -> Option<(FileDisk<R::File, E>, FileDisk<R::File, E>)> {
    let disk_a = journal_in(files, alloc, folder, "a", stderr)?;
    let Some(disk_b) = journal_in(files, alloc, folder, "b", stderr) else {
        drop(disk_a);
        return None;
    };
    let Some(()) = made(&stderr, folder, SEE_FILE, sync_folder(files, folder)) else {
        drop(disk_b);
        drop(disk_a);
        return None;
    };
    Some((disk_a, disk_b))
}

// The disk of the journal with this name in a folder.
fn journal_in<R: Files, E: Eprint + Copy + Drop>(
    files: &R,
    alloc: Global,
    folder: &str,
    name: &str,
    stderr: E,
) -> Option<FileDisk<R::File, E>> {
    let (path, shown) = journal_paths(alloc, folder, name)?;
    let opened = open_disk(files, alloc, path, stderr);
    let disk = made(&stderr, shown.as_str(), SEE_FILE, opened);
    drop(shown);
    disk
}

// The path of the journal with this name in a folder, twice: for its disk, and to tell of it.
fn journal_paths(alloc: Global, folder: &str, name: &str) -> Option<(String, String)> {
    let path = format!(in alloc; "{folder}/{name}.journal").ok()?;
    let Ok(shown) = String::from_str(alloc, path.as_str()) else {
        drop(path);
        return None;
    };
    Some((path, shown))
}

/// Makes sure that the files of a folder are found there after a crash.
pub fn sync_folder<R: Files>(files: &R, folder: &str) -> io::Result<()> {
    File::open(files, folder)?.sync_all()
}

/// Locks a folder, so that no other run can write its journal. The lock ends where the file is dropped,
/// at the latest with the process, however that ends. An error where another run holds it.
pub fn lock_folder<R: Files<File = File>>(files: &R, folder: &str) -> io::Result<File> {
    let held = File::open(files, folder)?;
    match held.try_lock() {
        Ok(()) => Ok(held),
        Err(TryLockError::WouldBlock) => Err(io::Error::new(
            ErrorKind::WouldBlock,
            "another run holds the folder",
        )),
        Err(TryLockError::Error(error)) => Err(error),
    }
}

/// A folder that is held open three times, so that each standard stream has a file.
#[derive(Drop)]
pub struct HeldStreams<F: Drop> {
    first: F,
    second: F,
    third: F,
}

/// Opens a folder three times. A program may be started with standard streams closed; the next files
/// that it opens then get their numbers, and what is written to standard output would go into a
/// journal. While these are open, a read or a write of a stream that was closed fails. The folder has
/// to be there.
pub fn hold_streams<R: Files>(files: &R, folder: &str) -> io::Result<HeldStreams<R::File>> {
    Ok(HeldStreams {
        first: File::open(files, folder)?,
        second: File::open(files, folder)?,
        third: File::open(files, folder)?,
    })
}
