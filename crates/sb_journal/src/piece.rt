// A file on a disk, of which a piece at a time is in memory.
ghost use Rattle.std.specs.Prelude.{◌≡◌, ◌≢◌, ◌≤◌, ◌<◌, ◌+◌, ◌^◌, List, ℕ, IsTrue, length, take, drop, IfOk, IfErr, OnOk};
ghost use Rattle.sb_outside.specs.Causes.{HasCause, RoseByOne};

use crate::append::FRAME_BYTES;
use crate::reading::{MAX_PAYLOAD, NEW_FILE_BYTES};
use sb_outside::{Disk, DiskFault};
use std::alloc::Global;

// The bytes of the longest record with its gate.
const LONGEST_RECORD: usize = MAX_PAYLOAD + FRAME_BYTES;

// A piece has at most so many bytes; of no more than half of them the next one is read again.
const PIECE_BYTES: usize = 2 * LONGEST_RECORD;

// The bytes of a new file and one more: by so many it is seen which file counts, and whether more stands there than a
// new one has.
const FRONT_BYTES: usize = NEW_FILE_BYTES + 1;

// Why the bytes of a disk weren't read.
#[derive(Clone, Copy)]
pub(crate) enum BytesFault {
    Disk,
    Memory,
}

// A piece of what is on a disk.
#[derive(Drop)]
pub(crate) struct Piece {
    bytes: Vec<u8>,
    // The place of the first of them.
    from: usize,
    // How many bytes the disk has.
    total: usize,
    ghost inside: { from + length bytes.items ≤ total },
    ghost small: { total ≤ 2 ^ 62 },
}

impl Piece {
    ghost use Rattle.sb_journal.specs.Pieces.{BeginsWith, IsPiece, HasPlace, seen_from};

    // The first piece.
    pub(crate) fn first<D: Disk>(alloc: Global, disk: &mut D) -> Result<Piece, BytesFault>
        ensures honesty { D.honest disk.new ≡ D.honest disk.old }
        ensures place { IfOk result (λ p. HasPlace p 0) }
        ensures piece { IsTrue (D.honest disk.old) → IfOk result (λ p. IsPiece p (D.held disk.old).seen × BeginsWith (seen_from 0 p) (D.held disk.old).seen) }
        ensures small { IsTrue (D.honest disk.old) → OnOk result (length (D.held disk.old).seen ≤ 2 ^ 62) }
        ensures same { IsTrue (D.honest disk.old) → (D.held disk.new ≡ D.held disk.old) × (D.past disk.new ≡ D.past disk.old) }
        ensures later { D.count disk.old ≤ D.count disk.new }
        ensures passed { OnOk result (D.count disk.new ≡ D.count disk.old) }
        ensures cause { IfErr result (λ e. e ≡ BytesFault.Disk → RoseByOne (D.count disk.old) (D.count disk.new)) }
        ensures memory { IfErr result (λ e. e ≢ BytesFault.Disk → D.count disk.new ≡ D.count disk.old) }
    {
        let Ok(length) = disk.length() else {
            return Err(BytesFault::Disk);
        };
        let total = length as usize;
        let Ok(mut bytes) = vec![in alloc; 0; total.min(PIECE_BYTES)] else {
            return Err(BytesFault::Memory);
        };
        let Ok(()) = fill(disk, 0, &mut bytes) else {
            return Err(BytesFault::Disk);
        };
        Ok(Piece {
            bytes,
            from: 0,
            total,
        })
    }

    // How many bytes the disk has.
    pub(crate) fn total(&self) -> usize
        ensures { result ≡ self.now.total }
    {
        self.total
    }

    // Goes on, unless all of a record is seen that is at this place.
    pub(crate) fn look_on<D: Disk>(&mut self, disk: &mut D, place: usize) -> Result<(), DiskFault>
        requires { HasPlace self.old place }
        ensures honesty { D.honest disk.new ≡ D.honest disk.old }
        ensures place { OnOk result (HasPlace self.new place) }
        ensures total { self.new.total ≡ self.old.total }
        ensures piece { IsTrue (D.honest disk.old) → IsPiece self.old (D.held disk.old).seen
            → OnOk result (IsPiece self.new (D.held disk.old).seen × BeginsWith (seen_from place self.new) (drop place (D.held disk.old).seen)) }
        ensures same { IsTrue (D.honest disk.old) → (D.held disk.new ≡ D.held disk.old) × (D.past disk.new ≡ D.past disk.old) }
        ensures cause { HasCause (D.count disk.old) (D.count disk.new) result }
    {
        let end = self.from + self.bytes.len();
        if end - place < LONGEST_RECORD && end < self.total {
            return self.move_to(disk, place);
        }
        Ok(())
    }

    // Reads the piece that begins at this place.
    fn move_to<D: Disk>(&mut self, disk: &mut D, place: usize) -> Result<(), DiskFault>
        requires { HasPlace self.old place }
        ensures honesty { D.honest disk.new ≡ D.honest disk.old }
        ensures place { OnOk result (HasPlace self.new place) }
        ensures total { self.new.total ≡ self.old.total }
        ensures piece { IsTrue (D.honest disk.old) → IsPiece self.old (D.held disk.old).seen → self.old.from + length self.old.bytes.items < self.old.total
            → OnOk result (IsPiece self.new (D.held disk.old).seen × BeginsWith (seen_from place self.new) (drop place (D.held disk.old).seen)) }
        ensures same { IsTrue (D.honest disk.old) → (D.held disk.new ≡ D.held disk.old) × (D.past disk.new ≡ D.past disk.old) }
        ensures cause { HasCause (D.count disk.old) (D.count disk.new) result }
    {
        self.bytes.truncate(self.total - place);
        fill(disk, place, &mut self.bytes)?;
        self.from = place;
        Ok(())
    }

    // What is seen from this place on.
    pub(crate) fn rest(&self, place: usize) -> &[u8]
        requires { HasPlace self.now place }
        ensures { result.now ≡ seen_from place self.now }
    {
        &self.bytes[place - self.from..]
    }
}

// What stands at the begin of a disk: as much as tells which file counts.
pub(crate) fn front_of<D: Disk>(alloc: Global, disk: &mut D) -> Result<Vec<u8>, BytesFault>
    ensures honesty { D.honest disk.new ≡ D.honest disk.old }
    ensures front { IsTrue (D.honest disk.old) → IfOk result (λ v. v.items ≡ take 44 (D.held disk.old).seen) }
    ensures same { IsTrue (D.honest disk.old) → (D.held disk.new ≡ D.held disk.old) × (D.past disk.new ≡ D.past disk.old) }
    ensures later { D.count disk.old ≤ D.count disk.new }
    ensures passed { OnOk result (D.count disk.new ≡ D.count disk.old) }
    ensures cause { IfErr result (λ e. e ≡ BytesFault.Disk → RoseByOne (D.count disk.old) (D.count disk.new)) }
    ensures memory { IfErr result (λ e. e ≢ BytesFault.Disk → D.count disk.new ≡ D.count disk.old) }
{
    let Ok(length) = disk.length() else {
        return Err(BytesFault::Disk);
    };
    let Ok(mut bytes) = vec![in alloc; 0; (length as usize).min(FRONT_BYTES)] else {
        return Err(BytesFault::Memory);
    };
    let Ok(()) = fill(disk, 0, &mut bytes) else {
        return Err(BytesFault::Disk);
    };
    Ok(bytes)
}

// Reads behind the first `at` bytes of what stands from `from` on: one byte at least where there
// is one and room for it.
fn read_on<D: Disk>(
    disk: &mut D,
    from: usize,
    bytes: &mut [u8],
    at: usize,
) -> Result<usize, DiskFault>
    requires inside { at ≤ length bytes.old }
    requires small { from + length bytes.old ≤ 2 ^ 62 }
    ensures honesty { D.honest disk.new ≡ D.honest disk.old }
    ensures within { IfOk result (λ n. at + n ≤ length bytes.old) }
    ensures bytes { IsTrue (D.honest disk.old) → take at bytes.old ≡ take at (drop from (D.held disk.old).seen)
        → IfOk result (λ n. take (at + n) bytes.new ≡ take (at + n) (drop from (D.held disk.old).seen)) }
    ensures some { IsTrue (D.honest disk.old) → from + length bytes.old ≤ length (D.held disk.old).seen → at < length bytes.old → IfOk result (λ n. n ≢ 0) }
    ensures same { IsTrue (D.honest disk.old) → (D.held disk.new ≡ D.held disk.old) × (D.past disk.new ≡ D.past disk.old) }
    ensures cause { HasCause (D.count disk.old) (D.count disk.new) result }
{
    disk.read((from + at) as u64, &mut bytes[at..])
}

// Reads what stands from `from` on into the place of these bytes: as many, or up to the first read
// that gives none.
fn fill<D: Disk>(disk: &mut D, from: usize, bytes: &mut Vec<u8>) -> Result<(), DiskFault>
    requires { from + length bytes.old.items ≤ 2 ^ 62 }
    ensures honesty { D.honest disk.new ≡ D.honest disk.old }
    ensures within { length bytes.new.items ≤ length bytes.old.items }
    ensures bytes { IsTrue (D.honest disk.old) → from + length bytes.old.items ≤ length (D.held disk.old).seen
        → OnOk result (bytes.new.items ≡ take (length bytes.old.items) (drop from (D.held disk.old).seen)) }
    ensures same { IsTrue (D.honest disk.old) → (D.held disk.new ≡ D.held disk.old) × (D.past disk.new ≡ D.past disk.old) }
    ensures cause { HasCause (D.count disk.old) (D.count disk.new) result }
{
    let mut at = 0;
    'reads: while at < bytes.len() {
        let count = read_on(disk, from, bytes, at)?;
        if count == 0 {
            break;
        }
        at += count;
    }
    bytes.truncate(at);
    Ok(())
}
