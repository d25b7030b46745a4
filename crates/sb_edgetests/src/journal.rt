// The journal run on a disk in memory that fails where it is told to. Disks, journals and what was found are
// dropped by calls, where little else is held: so the proofs of the tests stay short.
mod bases;

ghost use Rattle.std.specs.Prelude.{◌≡◌, ◌≤◌, length, false, IfOk};
ghost use Rattle.sb_journal.specs.Journals.{has_failed};
ghost use Rattle.sb_journal.specs.Text.{max_payload};

use crate::asserts::{assert_is, assert_that};
use sb_journal::{Found, Journal, OpenFault, OpenWhy, Side};
use sb_outside::{Disk, MemDisk};
use std::alloc::{AllocError, Global};
use std::process::Abort;
use std::test::Fail;

// A disk with these bytes at rest.
fn disk_of(alloc: Global, bytes: &[u8]) -> Result<MemDisk, AllocError> {
    MemDisk::new(alloc, bytes.to_vec(alloc)?, Vec::new(alloc))
}

// A disk without bytes whose call of this number fails.
fn failing_disk(alloc: Global, call: u64) -> Result<MemDisk, Fail> {
    let failing = vec![in alloc; call]?;
    Ok(MemDisk::new(alloc, Vec::new(alloc), failing)?)
}

// This disk, and an empty one.
fn with_empty(alloc: Global, a: MemDisk) -> Result<(MemDisk, MemDisk), Fail> {
    match disk_of(alloc, &[]) {
        Ok(b) => Ok((a, b)),
        Err(error) => {
            drop(a);
            Err(Fail::from(error))
        }
    }
}

// The journal that stands on these disks, and what it was opened with.
fn opened_on(
    alloc: Global,
    a: MemDisk,
    b: MemDisk,
    salt: u64,
) -> Result<(Journal<MemDisk>, Found), Fail>
    ensures { IfOk result (λ x. has_failed x.0 ≡ false) }
{
    match Journal::open(alloc, a, b, salt) {
        Ok(both) => Ok(both),
        Err(fault) => {
            drop(fault);
            Err(Fail::from("not opened"))
        }
    }
}

// The same, where the second disk is empty.
fn opened(alloc: Global, a: MemDisk, salt: u64) -> Result<(Journal<MemDisk>, Found), Fail>
    ensures { IfOk result (λ x. has_failed x.0 ≡ false) }
{
    let (a, b) = with_empty(alloc, a)?;
    opened_on(alloc, a, b, salt)
}

// The journal alone.
fn journal_on(alloc: Global, a: MemDisk, salt: u64) -> Result<Journal<MemDisk>, Fail>
    ensures { IfOk result (λ j. has_failed j ≡ false) }
{
    let (journal, found) = opened(alloc, a, salt)?;
    drop(found);
    Ok(journal)
}

// What was found alone.
fn found_on(alloc: Global, a: MemDisk, salt: u64) -> Result<Found, Fail> {
    let (journal, found) = opened(alloc, a, salt)?;
    drop(journal);
    Ok(found)
}

// Whether these payloads were found, and no others.
fn has_payloads(found: &Found, wanted: &[&[u8]]) -> bool {
    for (i, payload) in found.payloads.iter().enumerate() {
        match wanted.get(i) {
            Some(bytes) if payload.as_slice() == *bytes => {}
            _ => return false,
        }
    }
    found.payloads.len() == wanted.len()
}

// Appends a payload, which gets this number.
fn appends(rt: &impl Abort, journal: &mut Journal<MemDisk>, payload: &[u8], number: u64)
    requires short { length payload.now ≤ max_payload }
    requires running { has_failed journal.old ≡ false }
    ensures { has_failed journal.new ≡ false }
{
    assert!(rt; journal.append(payload) == Ok(number));
}

// Stages a payload.
fn adds(rt: &impl Abort, journal: &mut Journal<MemDisk>, payload: &[u8])
    requires short { length payload.now ≤ max_payload }
    requires running { has_failed journal.old ≡ false }
    ensures { has_failed journal.new ≡ false }
{
    assert!(rt; journal.add(payload) == Ok(()));
}

// Seals what is staged, of which the first gets this number.
fn seals(rt: &impl Abort, journal: &mut Journal<MemDisk>, first: u64)
    requires { has_failed journal.old ≡ false }
    ensures { has_failed journal.new ≡ false }
{
    assert!(rt; journal.seal() == Ok(first));
}

// The first disk of a journal, which is closed.
fn closed(journal: Journal<MemDisk>) -> MemDisk {
    let (a, b) = journal.close();
    drop(b);
    a
}

// Why a journal isn't open, how many bytes its first disk has, and how many of that disk's calls failed.
fn told_of(fault: OpenFault<MemDisk>) -> (OpenWhy, usize, u64) {
    let OpenFault {
        disk_a,
        disk_b,
        why,
    } = fault;
    drop(disk_b);
    let (length, faults) = (disk_a.bytes().len(), disk_a.faults());
    drop(disk_a);
    (why, length, faults)
}

// Why no journal stands on a disk with these bytes, and how many it has then.
fn fault_of(alloc: Global, bytes: Vec<u8>) -> Result<(OpenWhy, usize), Fail> {
    let a = MemDisk::new(alloc, bytes, Vec::new(alloc))?;
    let (a, b) = with_empty(alloc, a)?;
    match Journal::open(alloc, a, b, SALT) {
        Ok(both) => {
            drop(both);
            Err(Fail::from("read on"))
        }
        Err(fault) => {
            let (why, length, _) = told_of(fault);
            Ok((why, length))
        }
    }
}

const SALT: u64 = 0xa1b2_c3d4_e5f6_0718;

static NEW_FILE: [u8; 43] = [
    1, 0x53, 0x42, 0x4e, 0x53, 0x4a, 0x52, 0x4e, 0x4c, 1, 0xa1, 0xb2, 0xc3, 0xd4, 0xe5, 0xf6, 0x07,
    0x18, 0, 0, 0, 0, 0, 0, 0, 1, 0, 0, 0, 0, 0, 0, 0, 1, 0, 0, 0, 0, 0, 0, 0, 0, 0,
];

// The disks of a new journal with two records.
fn two_records(rt: &impl Abort, alloc: Global) -> Result<(MemDisk, MemDisk), Fail> {
    let (mut journal, found) = opened(alloc, disk_of(alloc, &[])?, SALT)?;
    assert_that(rt, has_payloads(&found, &[]), "no payloads yet");
    assert_is(rt, generation_of(found), 1);
    appends(rt, &mut journal, b"one", 1);
    appends(rt, &mut journal, b"", 2);
    assert_is(rt, journal.faults(), 0);
    Ok(journal.close())
}

fn generation_of(found: Found) -> u64 {
    let generation = found.generation;
    drop(found);
    generation
}

fn salt_of(found: Found) -> u64 {
    let salt = found.salt;
    drop(found);
    salt
}

#[test]
fn makes_a_file_and_reads_it_back(rt: HostRuntime) -> Result<(), Fail> {
    let alloc = rt.alloc();
    let (a, b) = two_records(&rt, alloc)?;
    assert_eq!(rt; a.bytes().len(), 72);
    assert!(rt; a.bytes().starts_with(&NEW_FILE[..42]));
    let (journal, found) = opened_on(alloc, a, b, 5)?;
    drop(journal);
    assert!(rt; has_payloads(&found, &[b"one".as_slice(), b"".as_slice()]));
    assert_eq!(rt; salt_of(found), SALT);
    Ok(())
}

// A new file with one record, in which one byte is another.
fn changed_file(alloc: Global, place: usize, byte: u8) -> Result<Vec<u8>, AllocError> {
    let record = [1, 0, 0, 0, 1, 0, 0, 0, 0, 0, 0, 0, 1, b'x', 0];
    let mut bytes = NEW_FILE[..42].to_vec(alloc)?;
    bytes.extend_from_slice(&record)?;
    if place < bytes.len() {
        bytes[place] = byte;
    }
    Ok(bytes)
}

// The place and the byte that stands there, and the place that is told.
static DAMAGES: [(usize, u8, u64); 9] = [
    (0, 0, 0),
    (0, b'X', 0),
    (1, 0, 1),
    (9, 2, 9),
    (18, 255, 18),
    (33, 0, 26),
    (41, 16, 42),
    (46, 3, 42),
    (54, 9, 42),
];

#[test]
fn tells_the_place_of_damage(rt: HostRuntime) -> Result<(), Fail> {
    for (place, byte, damage) in &DAMAGES {
        let bytes = changed_file(rt.alloc(), *place, *byte)?;
        let (why, length) = fault_of(rt.alloc(), bytes)?;
        assert!(rt; why == OpenWhy::Damaged(Side::A, *damage), "at {place}");
        assert_eq!(rt; length, 57);
    }
    Ok(())
}

// So many bytes.
fn sevens(alloc: Global, count: usize) -> Result<Vec<u8>, AllocError>
    ensures { IfOk result (λ v. length v.items ≡ count) }
{
    vec![in alloc; 7; count]
}

// The fourth record's gate, behind the head and three records of 900,000 bytes.
const FOURTH: usize = 42 + 3 * 900_013;

// A disk with a file of three long records and a short one.
fn long_file(rt: &impl Abort, alloc: Global, long: &[u8]) -> Result<MemDisk, Fail>
    requires { length long.now ≡ 900000 }
{
    let mut journal = journal_on(alloc, disk_of(alloc, &[])?, SALT)?;
    appends(rt, &mut journal, long, 1);
    appends(rt, &mut journal, long, 2);
    appends(rt, &mut journal, long, 3);
    appends(rt, &mut journal, b"four", 4);
    Ok(closed(journal))
}

// The bytes of that file with another number in its fourth record.
fn changed_long_file(rt: &impl Abort, alloc: Global, long: &[u8]) -> Result<Vec<u8>, Fail>
    requires { length long.now ≡ 900000 }
{
    let a = long_file(rt, alloc, long)?;
    let copied = a.bytes().to_vec(alloc);
    drop(a);
    let mut bytes = copied?;
    // The last byte of its number.
    if let Some(byte) = bytes.get_mut(FOURTH + 12) {
        *byte = 9;
    }
    Ok(bytes)
}

#[test]
fn reads_a_file_of_several_pieces(rt: HostRuntime) -> Result<(), Fail> {
    let alloc = rt.alloc();
    let long = sevens(alloc, 900_000)?;
    let found = found_on(alloc, long_file(&rt, alloc, &long)?, SALT)?;
    let wanted: [&[u8]; 4] = [&long, &long, &long, b"four"];
    assert!(rt; has_payloads(&found, &wanted));
    drop(found);
    let bytes = changed_long_file(&rt, alloc, &long)?;
    let (why, _) = fault_of(alloc, bytes)?;
    assert!(rt; why == OpenWhy::Damaged(Side::A, FOURTH as u64));
    Ok(())
}

// A new file whose end gate is torn.
fn torn_disk(alloc: Global) -> Result<MemDisk, AllocError> {
    let mut bytes = NEW_FILE[..42].to_vec(alloc)?;
    bytes.extend_from_slice(&[7, 1, 2, 3])?;
    MemDisk::new(alloc, bytes, Vec::new(alloc))
}

fn disk_of_found(found: Found) -> Side {
    let disk = found.disk;
    drop(found);
    disk
}

#[test]
fn closes_a_torn_end(rt: HostRuntime) -> Result<(), Fail> {
    let alloc = rt.alloc();
    let (journal, found) = opened(alloc, torn_disk(alloc)?, 5)?;
    assert!(rt; has_payloads(&found, &[]));
    assert!(rt; disk_of_found(found) == Side::A);
    let a = closed(journal);
    assert_eq!(rt; a.bytes().len(), 46);
    assert!(rt; a.bytes().starts_with(&NEW_FILE));
    assert!(rt; a.bytes().ends_with(&[0, 1, 2, 3]));
    drop(a);
    Ok(())
}

// An empty disk's calls: sync, length, length; sync, read, write 00, sync, cut, write all behind it, sync,
// write 01, sync; and four for a record. How many bytes it has where one of them failed.
static LENGTHS: [usize; 16] = [0, 0, 0, 0, 0, 0, 1, 1, 1, 43, 43, 43, 43, 59, 59, 59];

// How many bytes the disk of a journal has whose first append fails.
fn length_after_append(rt: &impl Abort, journal: Journal<MemDisk>) -> usize
    requires { has_failed journal ≡ false }
{
    let mut journal = journal;
    assert!(rt; journal.append(b"one").is_err());
    assert_eq!(rt; journal.faults(), 1);
    let a = closed(journal);
    let length = a.bytes().len();
    drop(a);
    length
}

// How many bytes the disk has whose call of this number failed, in the opening if it is one of the
// first twelve, else in the first append.
fn length_after(rt: &impl Abort, alloc: Global, call: u64) -> Result<usize, Fail> {
    let (a, b) = with_empty(alloc, failing_disk(alloc, call)?)?;
    match Journal::open(alloc, a, b, SALT) {
        Ok((journal, found)) => {
            drop(found);
            assert!(rt; call >= 12);
            Ok(length_after_append(rt, journal))
        }
        Err(fault) => {
            let (why, length, faults) = told_of(fault);
            assert!(rt; call < 12);
            assert!(rt; why == OpenWhy::DiskFault);
            assert_eq!(rt; faults, 1);
            Ok(length)
        }
    }
}

#[test]
fn answers_each_fault_of_the_disk(rt: HostRuntime) -> Result<(), Fail> {
    for (call, length) in LENGTHS.iter().enumerate() {
        assert_eq!(rt;
            length_after(&rt, rt.alloc(), call as u64)?,
            *length,
            "at {call}"
        );
    }
    Ok(())
}

// The disks of a new journal with six records, of which two and three were sealed together.
fn six_records(rt: &impl Abort, alloc: Global, long: &[u8]) -> Result<(MemDisk, MemDisk), Fail>
    requires { length long.now ≡ 900000 }
{
    let mut journal = journal_on(alloc, disk_of(alloc, &[])?, SALT)?;
    seals(rt, &mut journal, 1);
    adds(rt, &mut journal, b"one");
    adds(rt, &mut journal, b"");
    seals(rt, &mut journal, 1);
    // More than is kept until it is written.
    adds(rt, &mut journal, long);
    adds(rt, &mut journal, long);
    adds(rt, &mut journal, b"five");
    seals(rt, &mut journal, 3);
    appends(rt, &mut journal, b"six", 6);
    Ok(journal.close())
}

#[test]
fn seals_records_together(rt: HostRuntime) -> Result<(), Fail> {
    let alloc = rt.alloc();
    let long = sevens(alloc, 900_000)?;
    let (a, b) = six_records(&rt, alloc, &long)?;
    assert_eq!(rt; a.bytes().len(), 43 + 6 * 13 + 2 * 900_000 + 10);
    let (journal, found) = opened_on(alloc, a, b, SALT)?;
    drop(journal);
    let wanted: [&[u8]; 6] = [b"one", b"", &long, &long, b"five", b"six"];
    assert!(rt; has_payloads(&found, &wanted));
    drop(found);
    Ok(())
}

// The disk on which the call of this number failed while three records were sealed.
fn stopped_group(rt: &impl Abort, alloc: Global, call: u64) -> Result<MemDisk, Fail> {
    let mut journal = journal_on(alloc, failing_disk(alloc, call)?, SALT)?;
    adds(rt, &mut journal, b"one");
    adds(rt, &mut journal, b"two");
    adds(rt, &mut journal, b"three");
    assert!(rt; journal.seal().is_err());
    assert_eq!(rt; journal.faults(), 1);
    Ok(closed(journal))
}

// How many records are found on this disk as a crash leaves it that fills all places with this byte.
fn count_in_image(alloc: Global, disk: MemDisk, fill: u8) -> Result<usize, Fail> {
    let image = disk.image(alloc, fill);
    drop(disk);
    let left = MemDisk::new(alloc, image?, Vec::new(alloc))?;
    let found = found_on(alloc, left, SALT)?;
    let count = found.payloads.len();
    drop(found);
    Ok(count)
}

// None of three records is found, or all where the crash left their gate open.
fn found_of_three(call: u64, fill: u8) -> usize {
    if call >= 14 && fill == 1 { 3 } else { 0 }
}

#[test]
fn a_group_stops(rt: HostRuntime) -> Result<(), Fail> {
    for call in 12..16_u64 {
        for fill in [0xff, 1_u8] {
            let a = stopped_group(&rt, rt.alloc(), call)?;
            let count = count_in_image(rt.alloc(), a, fill)?;
            assert_eq!(rt; count, found_of_three(call, fill));
        }
    }
    Ok(())
}
