// What no contract says: that memory is found, and what a real file does. Each object is dropped by a call: so the
// proofs of the tests stay short.
use crate::asserts::{assert_is, assert_that};
use sb_outside::{
    Bytes, Clock, Conn, Connected, Disk, DiskFault, LONGEST_DISK, MemConn, MemDisk, MemSink,
    MemSource, NoConn, Reading, Sink, Source, StepClock, SystemClock, WriteFault, Writing,
    open_disk, sync_folder, write_all,
};
use std::alloc::Global;
use std::fs;
use std::fs::OpenOptions;
use std::process::Abort;
use std::test::Fail;

// Writes twice, cuts, syncs, and reads from the second byte on. A thread may take the disk.
fn change<D: Disk + Send>(disk: &mut D, piece: &mut [u8]) -> Result<usize, DiskFault> {
    disk.write_at(0, b"journal")?;
    disk.cut(4)?;
    disk.write_at(2, b"ined")?;
    disk.sync()?;
    disk.read(1, piece)
}

// A clock that threads may share.
fn reads<C: Clock + Sync>(clock: &C) -> u64 {
    clock.pause();
    clock.now()
}

// Writes back what it reads. A thread may take the connection.
fn echo<N: Conn + Send>(conn: &mut N) -> Result<Option<usize>, WriteFault> {
    let mut piece = [0u8; 8];
    let count = conn.read(&mut piece).unwrap_or(None).unwrap_or(0);
    conn.write(&piece[..count])
}

// What the changes leave of a disk behind its first byte, and how much of it was read.
fn changed<D: Disk + Send>(disk: &mut D) -> (Result<usize, DiskFault>, [u8; 8]) {
    let mut piece = [0u8; 8];
    let count = change(disk, &mut piece);
    (count, piece)
}

fn changed_memory(alloc: Global) -> Result<(Result<usize, DiskFault>, [u8; 8]), Fail> {
    let mut disk = MemDisk::with_room(alloc, Vec::new(alloc), Vec::new(alloc), 11, 4)?;
    let changed = changed(&mut disk);
    drop(disk);
    Ok(changed)
}

// How long the disk over this file is.
fn length_of(rt: HostRuntime, name: &str) -> Result<u64, Fail> {
    let mut file = open_disk(&rt, rt.alloc(), String::from_str(rt.alloc(), name)?, rt)?;
    let length = file.length();
    drop(file);
    length.map_err(|_| Fail::from("no length"))
}

#[test]
fn memory_and_a_file_agree(rt: HostRuntime) -> Result<(), Fail> {
    let name = "sb_outside_test.journal";
    let (count, from_disk) = changed_memory(rt.alloc())?;
    assert_that(&rt, count == Ok(5), "five bytes of memory");
    assert_is(&rt, from_disk, *b"oined\0\0\0");
    let mut file = open_disk(&rt, rt.alloc(), String::from_str(rt.alloc(), name)?, rt)?;
    assert_that(&rt, sync_folder(&rt, ".").is_ok(), "the folder is synced");
    let (count, from_file) = changed(&mut file);
    assert_that(&rt, count == Ok(5), "five bytes of the file");
    assert_is(&rt, from_file, from_disk);
    assert_that(&rt, file.length() == Ok(6), "the length of the file");
    let length = length_of(rt, name);
    assert_is(&rt, file.faults(), 0);
    drop(file);
    assert_is(&rt, length?, 6);
    fs::remove_file(&rt, name)?;
    Ok(())
}

// How long the disk over this file is, or none where that can't be told.
fn length_at(rt: HostRuntime, name: &str) -> Option<u64> {
    let name = String::from_str(rt.alloc(), name).ok()?;
    let mut file = open_disk(&rt, rt.alloc(), name, rt).ok()?;
    let length = file.length();
    drop(file);
    length.ok()
}

// Writes bytes that begin with 01, and gives how long the disk says that it is.
fn run_ahead<D: Disk>(file: &mut D) -> Result<u64, DiskFault> {
    let _ = file.length()?;
    file.write_at(0, &[1; 143])?;
    file.sync()?;
    file.length()
}

// A file that begins with 01 is longer than what is written in it, and is cut to that as it is closed.
#[test]
fn a_file_runs_ahead(rt: HostRuntime) -> Result<(), Fail> {
    let name = "sb_outside_ahead.journal";
    let mut file = open_disk(&rt, rt.alloc(), String::from_str(rt.alloc(), name)?, rt)?;
    let written = run_ahead(&mut file);
    let mut piece = [9; 64];
    let read = file.read(120, &mut piece);
    let ahead = length_at(rt, name);
    file.close();
    let closed = length_at(rt, name);
    fs::remove_file(&rt, name)?;
    assert_that(&rt, written == Ok(143), "how much is written");
    assert_that(&rt, read == Ok(23), "how much is read");
    assert_is(&rt, piece[22], 1);
    assert_is(&rt, piece[23], 9);
    assert_is(&rt, ahead, Some(143 + 65_536));
    assert_is(&rt, closed, Some(143));
    Ok(())
}

// One of which a call has failed keeps its zeros as it is closed.
#[test]
fn a_failed_file_is_left(rt: HostRuntime) -> Result<(), Fail> {
    let name = "sb_outside_failed.journal";
    let mut file = open_disk(&rt, rt.alloc(), String::from_str(rt.alloc(), name)?, rt)?;
    let written = run_ahead(&mut file);
    let past_limit = file.write_at(LONGEST_DISK, b"a");
    file.close();
    let closed = length_at(rt, name);
    fs::remove_file(&rt, name)?;
    assert!(rt; written == Ok(143));
    assert!(rt; past_limit == Err(DiskFault));
    assert!(rt; closed == Some(143 + 65_536));
    Ok(())
}

#[test]
fn makes_a_disk(rt: HostRuntime) -> Result<(), Fail> {
    let failing = vec![in rt.alloc(); 1]?;
    let mut disk = MemDisk::new(rt.alloc(), Vec::new(rt.alloc()), failing)?;
    assert!(rt; disk.length() == Ok(0));
    assert!(rt; disk.length() == Err(DiskFault));
    drop(disk);
    Ok(())
}

// What a sink has in which these bytes were written, with room for four at first.
fn written(alloc: Global, bytes: &[u8]) -> Result<Vec<u8>, Fail> {
    let mut sink = MemSink::new(alloc, 4, Vec::new(alloc))?;
    let written = write_all(&mut sink, bytes);
    let given = sink.bytes().to_vec(alloc);
    drop(sink);
    written.map_err(|_| Fail::from("not written"))?;
    Ok(given?)
}

#[test]
fn makes_each_stream(rt: HostRuntime) -> Result<(), Fail> {
    let text = Bytes::of(rt.alloc(), b"line")?;
    let given = written(rt.alloc(), text.as_slice())?;
    assert_eq!(rt; given.as_slice(), text.as_slice());
    let mut source = MemSource::new(text.into_vec(), 3, Vec::new(rt.alloc()));
    let mut piece = [0u8; 8];
    assert_that(&rt, source.read(&mut piece) == Ok(3), "three bytes");
    assert_that(&rt, source.read(&mut piece) == Ok(1), "the last byte");
    assert_that(&rt, source.read(&mut piece) == Ok(0), "the end");
    drop(source);
    Ok(())
}

#[test]
fn makes_each_real_stream(rt: HostRuntime) -> Result<(), Fail> {
    let mut input = Reading::new(rt.stdin(), rt);
    assert!(rt; input.read(&mut []) == Ok(0));
    drop(input);
    let mut output = Writing::new(rt.stdout(), rt);
    assert!(rt; output.write(&[]) == Ok(0));
    drop(output);
    Ok(())
}

#[test]
fn makes_each_clock(rt: HostRuntime) -> Result<(), Fail> {
    assert_eq!(rt; reads(&StepClock::new(5, 2)), 7);
    let year_2020_ms = 1_577_836_800_000;
    let clock = SystemClock::new(rt)?;
    let first = reads(&clock);
    assert!(rt; first > year_2020_ms);
    assert!(rt; reads(&clock) >= first);
    drop(clock);
    Ok(())
}

// Whether a connection takes back so much of what it gave.
fn echoes<N: Conn + Send>(conn: &mut N, count: usize) -> bool {
    echo(conn) == Ok(Some(count))
}

#[test]
fn makes_each_real_connection(rt: HostRuntime) -> Result<(), Fail> {
    let name = "sb_outside_test.conn";
    let file = OpenOptions::new()
        .read(true)
        .write(true)
        .create(true)
        .open(&rt, name)?;
    let mut conn = Connected::new(file);
    assert!(rt; echoes(&mut conn, 0));
    drop(conn);
    fs::remove_file(&rt, name)?;
    Ok(())
}

// A source of two bytes, and a sink with room for them.
fn streams(alloc: Global) -> Result<(MemSource, MemSink), Fail> {
    let sent = vec![in alloc; b'h', b'i']?;
    let sink = MemSink::new(alloc, 2, Vec::new(alloc))?;
    Ok((MemSource::new(sent, 8, Vec::new(alloc)), sink))
}

#[test]
fn makes_each_connection(rt: HostRuntime) -> Result<(), Fail> {
    let (source, sink) = streams(rt.alloc())?;
    let mut conn = MemConn::new(source, sink);
    assert!(rt; echoes(&mut conn, 2));
    assert_eq!(rt; conn.bytes(), b"hi".as_slice());
    drop(conn);
    assert!(rt; echoes(&mut NoConn::new(), 0));
    Ok(())
}

#[test]
fn hesitates_between_any_two_bytes(rt: HostRuntime) -> Result<(), Fail> {
    let (source, sink) = streams(rt.alloc())?;
    let mut conn = MemConn::hesitant(source, sink);
    hesitates(&rt, &mut conn);
    assert_eq!(rt; conn.bytes(), b"hi".as_slice());
    drop(conn);
    Ok(())
}

fn hesitates<N: Conn>(rt: &impl Abort, conn: &mut N) {
    let mut piece = [0u8; 8];
    assert_that(rt, conn.read(&mut piece) == Ok(None), "no byte yet");
    assert_that(rt, conn.read(&mut piece) == Ok(Some(2)), "two bytes");
    assert_that(rt, conn.write(&piece[..2]) == Ok(None), "not yet");
    assert_that(rt, conn.write(&piece[..2]) == Ok(Some(1)), "first byte");
    assert_that(rt, conn.write(&piece[1..2]) == Ok(None), "not yet again");
    assert_that(rt, conn.write(&piece[1..2]) == Ok(Some(1)), "second byte");
}
