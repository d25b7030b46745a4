// Bases of journals on disks in memory, judged as they are read. Disks and what was read are dropped by calls, where
// little else is held: so the proofs of the tests stay short.
use super::{NEW_FILE, SALT, appends, closed, disk_of, fault_of, found_on, journal_on, with_empty};
use crate::asserts::{assert_is, assert_that};
use sb_journal::{Found, Judge, Judged, OpenWhy, Side, Unopened, create};
use sb_outside::MemDisk;
use std::alloc::{AllocError, Global};
use std::process::Abort;
use std::test::Fail;

// A judge that takes all and keeps it, with a letter for each call: a piece of the base, its end, a payload.
#[derive(Drop)]
struct Keeping {
    calls: Vec<u8>,
    base: Vec<u8>,
    // Each with a `;` behind it.
    payloads: Vec<u8>,
}

impl Judge for Keeping {
    ghost given = { λ _ _ _. Unit {0} };

    ghost taken = { λ _ _ _ _. Unit {0} };

    ghost refuses_base = { λ _ _. Unit {0} };

    ghost refuses = { λ _ _ _ _. Unit {0} };

    fn begin(alloc: Global, _salt: u64) -> Self {
        Keeping {
            calls: Vec::new(alloc),
            base: Vec::new(alloc),
            payloads: Vec::new(alloc),
        }
    }

    fn take_base(&mut self, _alloc: Global, piece: &[u8]) -> Result<bool, AllocError> {
        self.calls.push(b'b')?;
        self.base.extend_from_slice(piece)?;
        Ok(true)
    }

    fn end_base(&mut self, _alloc: Global) -> Result<bool, AllocError> {
        self.calls.push(b'e')?;
        Ok(true)
    }

    fn take(&mut self, _alloc: Global, payload: &[u8]) -> Result<bool, AllocError> {
        self.calls.push(b'p')?;
        self.payloads.extend_from_slice(payload)?;
        self.payloads.push(b';')?;
        Ok(true)
    }
}

// The second file of a journal: the base `base`, the record 3 with the payload `x`, and the record 4 with none.
static WITH_BASE: [u8; 74] = [
    1, 0x53, 0x42, 0x4e, 0x53, 0x4a, 0x52, 0x4e, 0x4c, 1, 0xa1, 0xb2, 0xc3, 0xd4, 0xe5, 0xf6, 0x07,
    0x18, 0, 0, 0, 0, 0, 0, 0, 2, 0, 0, 0, 0, 0, 0, 0, 3, 0, 0, 0, 0, 0, 0, 0, 4, b'b', b'a', b's',
    b'e', 1, 0, 0, 0, 1, 0, 0, 0, 0, 0, 0, 0, 3, b'x', 1, 0, 0, 0, 0, 0, 0, 0, 0, 0, 0, 0, 4, 0,
];

// A disk with such a file, which has this base.
fn disk_with(rt: &impl Abort, alloc: Global, base: &[u8]) -> Result<MemDisk, Fail> {
    let mut disk = disk_of(alloc, &[])?;
    assert!(rt; create(&mut disk, SALT, 2, 3, base).is_ok());
    let mut journal = journal_on(alloc, disk, SALT)?;
    appends(rt, &mut journal, b"x", 3);
    appends(rt, &mut journal, b"", 4);
    Ok(closed(journal))
}

// What is read of the journal on this disk.
fn judged_on(alloc: Global, a: MemDisk) -> Result<Judged<Keeping>, Fail> {
    let (a, b) = with_empty(alloc, a)?;
    match Unopened::read_by(alloc, a, b, SALT) {
        Ok((unopened, judged)) => {
            drop(unopened);
            Ok(judged)
        }
        Err(fault) => {
            drop(fault);
            Err(Fail::from("not read"))
        }
    }
}

// Whether such a file was read, which has this base.
fn is_read(judged: &Judged<Keeping>, base: &[u8]) -> bool {
    (judged.generation, judged.first, judged.next) == (2, 3, 5)
        && judged.judge.base.as_slice() == base
        && judged.judge.payloads.as_slice() == b"x;;".as_slice()
        && judged.judge.calls.as_slice().ends_with(b"bepp")
}

// In how many pieces the base of such a file is read, where all of it is.
fn pieces_of(alloc: Global, a: MemDisk, base: &[u8]) -> Result<usize, Fail> {
    let judged = judged_on(alloc, a)?;
    let (read, calls) = (is_read(&judged, base), judged.judge.calls.len());
    drop(judged);
    if !read {
        return Err(Fail::from("another file"));
    }
    Ok(calls.saturating_sub(3))
}

#[test]
fn makes_a_file_with_a_base(rt: HostRuntime) -> Result<(), Fail> {
    let mut disk = disk_of(rt.alloc(), &NEW_FILE)?;
    assert!(rt; create(&mut disk, SALT, 2, 3, b"base").is_ok());
    let bytes = disk.bytes();
    assert_eq!(rt; bytes.len(), 47);
    assert_eq!(rt;
        &bytes[34..],
        [0, 0, 0, 0, 0, 0, 0, 4, b'b', b'a', b's', b'e', 0].as_slice()
    );
    drop(disk);
    Ok(())
}

#[test]
fn reads_a_base_back(rt: HostRuntime) -> Result<(), Fail> {
    let alloc = rt.alloc();
    let a = disk_with(&rt, alloc, b"base")?;
    assert_that(&rt, a.bytes() == WITH_BASE.as_slice(), "its bytes");
    assert_is(&rt, pieces_of(alloc, a, b"base")?, 1);
    Ok(())
}

// The numbers from 0 on, so many, of four bytes each.
fn numbers(alloc: Global, count: u32) -> Result<Vec<u8>, AllocError> {
    let mut bytes = Vec::new(alloc);
    for number in 0..count {
        bytes.extend_from_slice(&number.to_be_bytes())?;
    }
    Ok(bytes)
}

// The place of the first gate behind a base of 5,000,000 bytes.
const BEHIND_LONG: usize = 42 + 5_000_000;

// The bytes of a disk with such a base, and another number in the first record.
fn misnumbered(alloc: Global, a: MemDisk) -> Result<Vec<u8>, Fail> {
    let copied = a.bytes().to_vec(alloc);
    drop(a);
    let mut bytes = copied?;
    // The last byte of its number.
    if let Some(byte) = bytes.get_mut(BEHIND_LONG + 12) {
        *byte = 9;
    }
    Ok(bytes)
}

#[test]
fn reads_a_long_base_in_pieces(rt: HostRuntime) -> Result<(), Fail> {
    let alloc = rt.alloc();
    let base = numbers(alloc, 1_250_000)?;
    let a = disk_with(&rt, alloc, &base)?;
    assert_that(&rt, pieces_of(alloc, a, &base)? > 1, "several pieces");
    let bytes = misnumbered(alloc, disk_with(&rt, alloc, &base)?)?;
    let (why, _) = fault_of(alloc, bytes)?;
    assert!(rt; why == OpenWhy::Damaged(Side::A, BEHIND_LONG as u64));
    Ok(())
}

// The first bytes of the file with a base, as many, with this first byte of the base's length.
fn cut_file(alloc: Global, count: usize, byte: u8) -> Result<Vec<u8>, AllocError> {
    let mut bytes = WITH_BASE.to_vec(alloc)?;
    bytes.truncate(count);
    if let Some(first) = bytes.get_mut(34) {
        *first = byte;
    }
    Ok(bytes)
}

// A file that is cut so is damaged at its base, and stays as it is.
fn try_cut(rt: &impl Abort, alloc: Global, count: usize, byte: u8) -> Result<(), Fail> {
    let (why, length) = fault_of(alloc, cut_file(alloc, count, byte)?)?;
    assert_is(rt, length, count);
    assert!(rt; why == OpenWhy::Damaged(Side::A, 42), "at {count}");
    Ok(())
}

// Whether the base was found with no records behind it.
fn is_base_alone(found: &Found) -> bool {
    found.base.as_slice() == b"base".as_slice() && found.payloads.is_empty()
}

#[test]
fn tells_of_a_cut_base(rt: HostRuntime) -> Result<(), Fail> {
    for (count, byte) in [(43, 0), (45, 0), (74, 1), (74, 255)] {
        try_cut(&rt, rt.alloc(), count, byte)?;
    }
    // All of it, and no gate behind it.
    let whole = disk_of(rt.alloc(), &WITH_BASE[..46])?;
    let found = found_on(rt.alloc(), whole, SALT)?;
    assert!(rt; is_base_alone(&found));
    drop(found);
    Ok(())
}
