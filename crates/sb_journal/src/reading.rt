// What the bytes of a disk stand for: they are read a piece at a time, and each record once.
ghost use Rattle.std.specs.Prelude.{◌≡◌, ◌≢◌, ◌≤◌, ◌<◌, ◌+◌, ◌++◌, ◌∷◌, [], ◌^◌, List, ℕ, IsTrue, length, take, drop, slice_index, true, false, Err, IfOk, IfErr, IfSome, IfNone, OnOk};
ghost use Rattle.std.specs.Int.{w32, w64, from_be_bytes};
ghost use Rattle.std.specs.Str.{bytes_eq};
ghost use Rattle.sb_outside.specs.Causes.{RoseByOne};
ghost use Rattle.sb_journal.specs.Text.{max_payload, magic, gate_after, AreBytes};
ghost use Rattle.sb_journal.specs.Framing.{is_count, head_fault, payload_length, is_record, read};
ghost use Rattle.sb_journal.specs.Judges.{IsVerdict};
ghost use Rattle.sb_journal.specs.Opened.{IsReading, IsHead, IsNoHead, AreRecords, HasRefused, is_shut};
ghost use Rattle.sb_journal.specs.Pieces.{HasPlace, IsPiece};
ghost use Rattle.sb_journal.specs.declared.reading.RecordsFault.TheVariants.{Broken, Refused, Unread};

use crate::Judge;
use crate::base::base_of;
use crate::piece::{BytesFault, Piece};
use sb_outside::Disk;
use std::alloc::{AllocError, Global};

// The bytes from a file's gate to its base.
pub(crate) const HEAD_BYTES: usize = 42;

// The bytes of a new file: its gate, its head, and a closed gate.
pub(crate) const NEW_FILE_BYTES: usize = HEAD_BYTES + 1;

// A payload has at most so many bytes.
pub(crate) const MAX_PAYLOAD: usize = 1_048_576;

// A generation and a first number are 1 to this.
pub(crate) const MAX_COUNT: u64 = 1 << 62;

const MAGIC: [u8; 8] = *b"SBNSJRNL";

pub(crate) const VERSION: u8 = 1;

pub(crate) fn number_at(bytes: &[u8], place: usize) -> u64
    requires { place + 8 ≤ length bytes.now }
    ensures { result ≡ from_be_bytes w64 (take 8 (drop place bytes.now)) }
{
    u64::from_be_bytes([
        bytes[place],
        bytes[place + 1],
        bytes[place + 2],
        bytes[place + 3],
        bytes[place + 4],
        bytes[place + 5],
        bytes[place + 6],
        bytes[place + 7],
    ])
}

// The payload's length as it is said behind a gate.
fn length_in(rest: &[u8]) -> u32
    requires { 4 ≤ length rest.now }
    ensures { result ≡ payload_length rest.now }
{
    u32::from_be_bytes([rest[0], rest[1], rest[2], rest[3]])
}

fn is_magic(bytes: &[u8]) -> bool
    requires { 9 ≤ length bytes.now }
    ensures { result ≡ bytes_eq (take 8 (drop 1 bytes.now)) magic }
{
    bytes[1..9] == MAGIC[..]
}

fn is_counted(number: u64) -> bool
    ensures { result ≡ is_count number }
{
    1 <= number && number <= MAX_COUNT
}

// The place of the first damage before the base.
#[tactic(auto, unfolding(crate::specs::Framing::head_fault))]
pub(crate) fn damage_of_head(bytes: &[u8]) -> Option<u64>
    requires { 43 ≤ length bytes.now }
    ensures place { result ≡ head_fault bytes.now }
    ensures first { IfNone result (from_be_bytes w64 (take 8 (drop 26 bytes.now)) ≤ 2 ^ 62) }
{
    if !is_magic(bytes) {
        return Some(1);
    }
    if bytes[9] != VERSION {
        return Some(9);
    }
    if !is_counted(number_at(bytes, 18)) {
        return Some(18);
    }
    if !is_counted(number_at(bytes, 26)) {
        return Some(26);
    }
    None
}

// What is said before the base of a file.
#[derive(Clone, Copy)]
pub(crate) struct Head {
    pub(crate) salt: u64,
    pub(crate) generation: u64,
    pub(crate) first: u64,
    // How many bytes the base has.
    pub(crate) base_length: u64,
}

#[derive(Clone, Copy)]
pub(crate) enum HeadFault {
    // There is no file.
    NoHead,
    // There is none, but more than a new one has.
    OtherHead,
    // The place of the damage.
    BadHead(u64),
}

// The head of the file that begins so.
fn head_of(bytes: &[u8]) -> Result<Head, HeadFault>
    ensures ok { IfOk result (λ h. IsHead h bytes.now) }
    ensures bytes { OnOk result (AreBytes bytes.now) }
    ensures none { IfErr result (λ e. IsNoHead e bytes.now) }
{
    if bytes.len() < NEW_FILE_BYTES || bytes[0] != 1 {
        if bytes.len() > NEW_FILE_BYTES {
            return Err(HeadFault::OtherHead);
        }
        return Err(HeadFault::NoHead);
    }
    if let Some(place) = damage_of_head(bytes) {
        return Err(HeadFault::BadHead(place));
    }
    Ok(Head {
        salt: number_at(bytes, 10),
        generation: number_at(bytes, 18),
        first: number_at(bytes, 26),
        base_length: number_at(bytes, 34),
    })
}

// The place of the first gate in a file of so many bytes, whose base has this length; none where the base is cut off.
fn gate_behind(base_length: u64, total: usize) -> Option<usize>
    requires { 42 ≤ total }
    ensures some { IfSome result (λ g. (g ≡ 42 + base_length) × (g ≤ total)) }
    ensures none { IfNone result (total < 42 + base_length) }
{
    if base_length > (total - HEAD_BYTES) as u64 {
        return None;
    }
    Some(HEAD_BYTES + base_length as usize)
}

// Whether an open gate stands there.
fn is_open(rest: &[u8]) -> bool
    ensures open { result ≡ true → (1 ≤ length rest.now) × (slice_index rest.now 0 ≡ 1) }
    ensures not { result ≡ false → 1 ≤ length rest.now → slice_index rest.now 0 ≢ 1 }
{
    !rest.is_empty() && rest[0] == 1
}

// Whether a closed gate stands there.
fn is_closed(rest: &[u8]) -> bool
    ensures { result ≡ is_shut 0 rest.now }
{
    !rest.is_empty() && rest[0] == 0
}

// What stands behind a gate.
fn behind(rest: &[u8]) -> &[u8]
    requires { 1 ≤ length rest.now }
    ensures value { result.now ≡ drop 1 rest.now }
    ensures bytes { AreBytes rest.now }
{
    &rest[1..]
}

// The payload of the record of this number behind a gate, where there is one.
#[tactic(auto, unfolding(crate::specs::Framing::is_record))]
fn record_behind(rest: &[u8], number: u64) -> Option<&[u8]>
    ensures some { IfSome result (λ p. (is_record number rest.now ≡ true) × (p.now ≡ take (payload_length rest.now) (drop 12 rest.now)) × (length p.now ≡ payload_length rest.now)) }
    ensures none { IfNone result (is_record number rest.now ≡ false) }
    ensures inside { IfSome result (λ p. 12 + length p.now ≤ length rest.now) }
    ensures short { IfSome result (λ p. length p.now ≤ max_payload) }
{
    if rest.len() < 12 {
        return None;
    }
    let len = length_in(rest) as usize;
    if len > MAX_PAYLOAD || rest.len() - 12 < len || number_at(rest, 4) != number {
        return None;
    }
    Some(&rest[12..12 + len])
}

// What is made of the payload whose gate is at this place: the judge is asked, unless it has refused one
// before. The place of the first that it refuses, once there is one.
fn judge_one<J: Judge>(
    alloc: Global,
    judge: &mut J,
    refused: Option<u64>,
    place: u64,
    payload: &[u8],
) -> Result<Option<u64>, AllocError>
    requires { (salt : ℕ) × (base : List ℕ) × (before : List (List ℕ)) × IsVerdict J.Judge judge.old refused salt base before }
    ensures { (salt : ℕ) (base : List ℕ) (before : List (List ℕ)) → place ≡ gate_after (42 + length base) before → IsVerdict J.Judge judge.old refused salt base before
        → IfOk result (λ r. IsVerdict J.Judge judge.new r salt base (before ++ payload.now ∷ [])) }
{
    if let Some(first) = refused {
        return Ok(Some(first));
    }
    match judge.take(alloc, payload) {
        Ok(true) => Ok(None),
        Ok(false) => Ok(Some(place)),
        Err(fault) => Err(fault),
    }
}

// The records of a file, whose base and all of whose payloads a judge has taken: the place of its end gate,
// whether that is closed, and the number that comes next.
#[derive(Drop)]
pub(crate) struct Records<J> {
    pub(crate) judge: J,
    pub(crate) end: usize,
    pub(crate) closed: bool,
    pub(crate) next: u64,
}

#[derive(Clone, Copy)]
pub(crate) enum RecordsFault {
    // The place of the gate of a record that can't be.
    Broken(u64),
    // All can be, and this is the place of the base, or of the gate of the first record, that the judge refuses.
    Refused(u64),
    Unread(BytesFault),
}

// The records from the first gate on, at this place, behind the base. This is the file's first piece; the base
// and each payload go to a judge and are kept by nobody else. A record that can't be is told also behind what is
// refused.
fn records_of<D: Disk, J: Judge>(
    alloc: Global,
    disk: &mut D,
    piece: Piece,
    salt: u64,
    first: u64,
    gate: usize,
) -> Result<Records<J>, RecordsFault>
    requires first { first ≤ 2 ^ 62 }
    requires gate { 42 ≤ gate }
    requires inside { gate ≤ piece.total }
    requires place { HasPlace piece 42 }
    requires piece { IsTrue (D.honest disk.old) → IsPiece piece (D.held disk.old).seen }
    ensures honesty { D.honest disk.new ≡ D.honest disk.old }
    ensures records { IfOk result (λ r. AreRecords J.Judge (IsTrue (D.honest disk.old)) (D.held disk.old).seen salt first gate r) }
    ensures closed { IsTrue (D.honest disk.old) → IfOk result (λ r. r.closed ≡ is_shut r.end (D.held disk.old).seen) }
    ensures broken { IsTrue (D.honest disk.old) → IfErr result (λ e. (place : ℕ) → e ≡ Broken place
        → read (length (D.held disk.old).seen) gate first (drop gate (D.held disk.old).seen) ≡ Err place) }
    ensures refused { IsTrue (D.honest disk.old) → IfErr result (λ e. (place : ℕ) → e ≡ Refused place
        → HasRefused J.Judge (D.held disk.old).seen salt first gate place) }
    ensures same { IsTrue (D.honest disk.old) → (D.held disk.new ≡ D.held disk.old) × (D.past disk.new ≡ D.past disk.old) }
    ensures later { D.count disk.old ≤ D.count disk.new }
    ensures passed { OnOk result (D.count disk.new ≡ D.count disk.old) }
    ensures cause { IfErr result (λ e. e ≡ Unread BytesFault.Disk → RoseByOne (D.count disk.old) (D.count disk.new)) }
    ensures others { IfErr result (λ e. e ≢ Unread BytesFault.Disk → D.count disk.new ≡ D.count disk.old) }
{
    let mut piece = piece;
    let based = match base_of(alloc, disk, &mut piece, salt, gate) {
        Ok(based) => based,
        Err(fault) => return Err(RecordsFault::Unread(fault)),
    };
    let mut judge = based.judge;
    let mut refused = based.refused;
    let mut place = based.gate;
    let mut number = first;
    let Ok(()) = piece.look_on(disk, place) else {
        return Err(RecordsFault::Unread(BytesFault::Disk));
    };
    'records: while is_open(piece.rest(place)) {
        let Some(payload) = record_behind(behind(piece.rest(place)), number) else {
            return Err(RecordsFault::Broken(place as u64));
        };
        match judge_one(alloc, &mut judge, refused, place as u64, payload) {
            Ok(verdict) => refused = verdict,
            Err(_) => return Err(RecordsFault::Unread(BytesFault::Memory)),
        }
        place += 13 + payload.len();
        number += 1;
        let Ok(()) = piece.look_on(disk, place) else {
            return Err(RecordsFault::Unread(BytesFault::Disk));
        };
    }
    if let Some(place) = refused {
        return Err(RecordsFault::Refused(place));
    }
    let closed = is_closed(piece.rest(place));
    Ok(Records {
        judge,
        end: place,
        closed,
        next: number,
    })
}

// A file that can be read, whose base and all of whose payloads a judge has taken.
#[derive(Drop)]
pub(crate) struct Stand<J> {
    pub(crate) salt: u64,
    pub(crate) generation: u64,
    pub(crate) first: u64,
    pub(crate) judge: J,
    // The place of the end gate.
    pub(crate) end: u64,
    // Whether the end gate is closed.
    pub(crate) closed: bool,
    // The number of the next record.
    pub(crate) next: u64,
}

// Where a file ends that counts, made or to be made.
#[derive(Clone, Copy)]
pub(crate) struct Ending {
    pub(crate) made: bool,
    // Whether its end gate is closed.
    pub(crate) closed: bool,
    // The place of the end gate.
    pub(crate) end: u64,
    // The number of the next record.
    pub(crate) next: u64,
}

#[derive(Drop)]
pub(crate) enum Reading<J> {
    NoFile,
    // More stands there than a new file has, and none was made of it.
    OtherFile,
    AFile(Stand<J>),
    // The place of the damage.
    BadFile(u64),
    // It can be read, and this is the place of the base, or of the gate of the first record, that the judge refuses.
    RefusedFile(u64),
}

// The file with this head and these records.
fn stand_of<J>(head: Head, records: Records<J>) -> Stand<J>
    ensures salt { result.salt ≡ head.salt }
    ensures generation { result.generation ≡ head.generation }
    ensures first { result.first ≡ head.first }
    ensures judge { result.judge ≡ records.judge }
    ensures end { result.end ≡ records.end }
    ensures closed { result.closed ≡ records.closed }
    ensures next { result.next ≡ records.next }
{
    Stand {
        salt: head.salt,
        generation: head.generation,
        first: head.first,
        judge: records.judge,
        end: records.end as u64,
        closed: records.closed,
        next: records.next,
    }
}

// What the bytes of a disk stand for.
pub(crate) fn reading_of<D: Disk, J: Judge>(
    alloc: Global,
    disk: &mut D,
) -> Result<Reading<J>, BytesFault>
    ensures honesty { D.honest disk.new ≡ D.honest disk.old }
    ensures reading { IfOk result (λ r. IsReading J.Judge (IsTrue (D.honest disk.old)) (D.held disk.old).seen r) }
    ensures same { IsTrue (D.honest disk.old) → (D.held disk.new ≡ D.held disk.old) × (D.past disk.new ≡ D.past disk.old) }
    ensures later { D.count disk.old ≤ D.count disk.new }
    ensures passed { OnOk result (D.count disk.new ≡ D.count disk.old) }
    ensures cause { IfErr result (λ e. e ≡ BytesFault.Disk → RoseByOne (D.count disk.old) (D.count disk.new)) }
    ensures memory { IfErr result (λ e. e ≢ BytesFault.Disk → D.count disk.new ≡ D.count disk.old) }
{
    let piece = match Piece::first(alloc, disk) {
        Ok(piece) => piece,
        Err(fault) => return Err(fault),
    };
    let head = match head_of(piece.rest(0)) {
        Ok(head) => head,
        Err(HeadFault::NoHead) => return Ok(Reading::NoFile),
        Err(HeadFault::OtherHead) => return Ok(Reading::OtherFile),
        Err(HeadFault::BadHead(place)) => return Ok(Reading::BadFile(place)),
    };
    let Some(gate) = gate_behind(head.base_length, piece.total()) else {
        return Ok(Reading::BadFile(HEAD_BYTES as u64));
    };
    match records_of(alloc, disk, piece, head.salt, head.first, gate) {
        Ok(records) => Ok(Reading::AFile(stand_of(head, records))),
        Err(RecordsFault::Broken(place)) => Ok(Reading::BadFile(place)),
        Err(RecordsFault::Refused(place)) => Ok(Reading::RefusedFile(place)),
        Err(RecordsFault::Unread(fault)) => Err(fault),
    }
}
