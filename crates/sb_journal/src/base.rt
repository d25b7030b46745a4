// The base of a file, which a judge is given a piece at a time.
ghost use Rattle.std.specs.Prelude.{◌≡◌, ◌≢◌, ◌≤◌, ◌++◌, [], List, ℕ, IsTrue, length, take, min, IfOk, IfErr, OnOk};
ghost use Rattle.sb_outside.specs.Causes.{RoseByOne};
ghost use Rattle.sb_journal.specs.Judges.{IsGiven, IsVerdict};
ghost use Rattle.sb_journal.specs.Opened.{IsBased};
ghost use Rattle.sb_journal.specs.Pieces.{HasPlace, IsPiece};

use crate::Judge;
use crate::piece::{BytesFault, Piece};
use crate::reading::HEAD_BYTES;
use sb_outside::Disk;
use std::alloc::{AllocError, Global};

// A judge that was given a base, and what it said: the place of the base, where it refuses it.
#[derive(Drop)]
pub(crate) struct Based<J> {
    pub(crate) judge: J,
    pub(crate) refused: Option<u64>,
    // The place of the first gate.
    pub(crate) gate: usize,
}

// At most so many of these bytes.
pub(crate) fn up_to(bytes: &[u8], most: usize) -> &[u8]
    ensures { result.now ≡ take (min most (length bytes.now)) bytes.now }
{
    &bytes[..most.min(bytes.len())]
}

// The judge is given this piece of a base, unless it has refused what it was given before.
fn judge_piece<J: Judge>(
    alloc: Global,
    judge: &mut J,
    given: bool,
    piece: &[u8],
) -> Result<bool, AllocError>
    requires { (salt : ℕ) × (base : List ℕ) × IsGiven J.Judge judge.old given salt base }
    ensures { (salt : ℕ) (base : List ℕ) → IsGiven J.Judge judge.old given salt base
        → IfOk result (λ b. IsGiven J.Judge judge.new b salt (base ++ piece.now)) }
{
    if !given {
        return Ok(false);
    }
    judge.take_base(alloc, piece)
}

// What the judge says of the base, once it was given all of it: where it refuses it, the place of the base.
fn judge_base<J: Judge>(
    alloc: Global,
    judge: &mut J,
    given: bool,
) -> Result<Option<u64>, AllocError>
    requires { (salt : ℕ) × (base : List ℕ) × IsGiven J.Judge judge.old given salt base }
    ensures { (salt : ℕ) (base : List ℕ) → IsGiven J.Judge judge.old given salt base
        → IfOk result (λ r. IsVerdict J.Judge judge.new r salt base []) }
{
    if !given {
        return Ok(Some(HEAD_BYTES as u64));
    }
    match judge.end_base(alloc) {
        Ok(true) => Ok(None),
        Ok(false) => Ok(Some(HEAD_BYTES as u64)),
        Err(fault) => Err(fault),
    }
}

// Has the base judged that stands behind the head, up to the first gate at this place, or up to the first read
// that gives none. It goes on behind a piece that is refused, since the records have to be read as well.
pub(crate) fn base_of<D: Disk, J: Judge>(
    alloc: Global,
    disk: &mut D,
    piece: &mut Piece,
    salt: u64,
    gate: usize,
) -> Result<Based<J>, BytesFault>
    requires gate { 42 ≤ gate }
    requires inside { gate ≤ piece.old.total }
    requires place { HasPlace piece.old 42 }
    requires piece { IsTrue (D.honest disk.old) → IsPiece piece.old (D.held disk.old).seen }
    ensures honesty { D.honest disk.new ≡ D.honest disk.old }
    ensures based { IfOk result (λ b. IsBased J.Judge (IsTrue (D.honest disk.old)) (D.held disk.old).seen salt gate b) }
    ensures place { IfOk result (λ b. HasPlace piece.new b.gate) }
    ensures piece { IsTrue (D.honest disk.old) → OnOk result (IsPiece piece.new (D.held disk.old).seen) }
    ensures same { IsTrue (D.honest disk.old) → (D.held disk.new ≡ D.held disk.old) × (D.past disk.new ≡ D.past disk.old) }
    ensures later { D.count disk.old ≤ D.count disk.new }
    ensures passed { OnOk result (D.count disk.new ≡ D.count disk.old) }
    ensures cause { IfErr result (λ e. e ≡ BytesFault.Disk → RoseByOne (D.count disk.old) (D.count disk.new)) }
    ensures memory { IfErr result (λ e. e ≢ BytesFault.Disk → D.count disk.new ≡ D.count disk.old) }
{
    let mut judge = J::begin(alloc, salt);
    let mut given = true;
    let mut place = HEAD_BYTES;
    'pieces: while place < gate {
        let Ok(()) = piece.look_on(disk, place) else {
            return Err(BytesFault::Disk);
        };
        let part = up_to(piece.rest(place), gate - place);
        if part.is_empty() {
            break;
        }
        match judge_piece(alloc, &mut judge, given, part) {
            Ok(still) => given = still,
            Err(_) => return Err(BytesFault::Memory),
        }
        place += part.len();
    }
    match judge_base(alloc, &mut judge, given) {
        Ok(refused) => Ok(Based {
            judge,
            refused,
            gate: place,
        }),
        Err(_) => Err(BytesFault::Memory),
    }
}
