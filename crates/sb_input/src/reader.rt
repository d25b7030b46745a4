// Lines out of a source, in whatever pieces it comes. Each byte is looked at once.
ghost use Rattle.std.specs.Prelude.{◌≡◌, ◌≢◌, ◌≤◌, ◌<◌, ◌+◌, ◌-◌, ◌^◌, ◌++◌, [], ◌∷◌, ℕ, List, Option, Some, None, Ok, Err, IsTrue, true, false, length, take, drop, IfOk, IfErr, IfSome, OnOk, OnErr, IfNone, OnSome, position, ◌==◌};
ghost use Rattle.std.specs.Bool.{OnTrue, OnFalse};
ghost use Rattle.sb_outside.specs.Causes.{RoseByOne, HasCause};
ghost use Rattle.sb_input.specs.Limits.{max_input, max_piece};
ghost use Rattle.sb_input.specs.Lines.{NoFeed};
ghost use Rattle.sb_input.specs.PartialLines.{StandsFor};
ghost use Rattle.sb_input.specs.Taking.{Took, HasEnded, IsLong, IsLongPiece};
ghost use Rattle.sb_input.specs.declared.reader.ReadEnd.TheVariants.{Fault, OutOfMemory, TooMuch};

use crate::limits::{MAX_INPUT, MAX_PIECE};
use crate::partial_line::{PartialLine, extended, last_line};
use sb_outside::{ReadFault, Source};
use std::alloc::{AllocError, Global};

/// Why no line was read.
#[derive(Clone, Copy, PartialEq, Eq)]
pub enum ReadEnd {
    Fault,
    OutOfMemory,
    /// 2^40 bytes were taken.
    TooMuch,
}

impl From<AllocError> for ReadEnd {
    ghost use Rattle.sb_input.specs.declared.reader.ReadEnd.TheVariants.{OutOfMemory};

    ghost from_gives = { λ _ e. e ≡ OutOfMemory };

    fn from(_: AllocError) -> Self {
        ReadEnd::OutOfMemory
    }
}

/// Where reading has come to: a piece of the source, and what of it is pending.
#[derive(Drop)]
pub struct Reader {
    pub piece: Vec<u8>,
    // What is pending of the piece.
    pub at: usize,
    pub end: usize,
    pub ended: bool,
    // How many bytes were read.
    pub taken: u64,
    ghost room: { length piece.items ≡ max_piece },
    ghost within: { end ≤ length piece.items },
    ghost in_order: { at ≤ end },
}

impl Reader {
    ghost use Rattle.sb_input.specs.Readers.{pending_of, work_of, TakesPart, IsAt, Reads, ReadsNoLine};

    // What is pending.
    fn pending(&self) -> &[u8]
        ensures { result.now ≡ pending_of self.now }
    {
        &self.piece[self.at..self.end]
    }

    // Adds what is pending to a line, up to its line feed, and says whether that came.
    fn take_part(&mut self, partial: PartialLine) -> Result<(PartialLine, bool), ReadEnd>
        ensures part { IfOk result (λ x. (line : List ℕ) → StandsFor partial line → TakesPart x.1 line (pending_of self.old) (pending_of self.new) x.0) }
        ensures less { IfOk result (λ x. OnTrue x.1 (work_of self.new < work_of self.old)) }
        ensures work { IfOk result (λ x. OnFalse x.1 (work_of self.new + length (pending_of self.old) ≡ work_of self.old)) }
        ensures taken { self.new.taken ≡ self.old.taken }
        ensures ended { self.new.ended ≡ self.old.ended }
        ensures no_fault { IfErr result (λ e. (e ≢ Fault) × (e ≢ TooMuch)) }
    {
        let rest = self.pending();
        match feed_in(rest) {
            Some(place) => {
                let next = extended(partial, front_of(rest, place))?;
                self.at += place + 1;
                Ok((next, true))
            }
            None => {
                let next = extended(partial, rest)?;
                self.at = self.end;
                Ok((next, false))
            }
        }
    }

    /// The next line, up to its line feed or the source's end; none where nothing is left.
    pub fn next_line<S: Source>(
        &mut self,
        alloc: Global,
        source: &mut S,
    ) -> Result<Option<PartialLine>, ReadEnd>
        requires { self.old.taken < max_input }
        ensures reads { (start : Option (List ℕ)) (input : List ℕ) → IsAt start input (S.left source.old) self.old
            → IfOk result (λ o. Reads o start input (pending_of self.old) (S.left source.new) self.new) }
        ensures less { IfOk result (λ o. OnSome o (work_of self.new < work_of self.old)) }
        ensures fits { OnOk result (self.new.taken < max_input) }
        ensures long { (start : Option (List ℕ)) (input : List ℕ) → IsAt start input (S.left source.old) self.old → result ≡ Err TooMuch → IsLong start (S.left source.new) }
        ensures ahead { (start : Option (List ℕ)) (input : List ℕ) → IsAt start input (S.left source.old) self.old
            → IfErr result (λ e. ReadsNoLine e start input (pending_of self.old) (S.left source.new)) }
        ensures passed { OnOk result (S.count source.new ≡ S.count source.old) }
        ensures cause { result ≡ Err Fault → RoseByOne (S.count source.old) (S.count source.new) }
        ensures quiet { IfErr result (λ e. e ≢ Fault → S.count source.new ≡ S.count source.old) }
        ensures later { S.count source.old ≤ S.count source.new }
    {
        let mut partial = PartialLine::Short(Vec::new(alloc));
        'pieces: loop {
            let (next, found) = self.take_part(partial)?;
            partial = next;
            if found {
                return Ok(Some(partial));
            }
            if self.ended {
                return Ok(last_line(partial));
            }
            fill(source, self)?;
            if self.end == 0 {
                self.ended = true;
                return Ok(last_line(partial));
            }
        }
    }

    /// Whether the source has ended and nothing is pending.
    pub fn is_done(&self) -> bool
        ensures yes { result ≡ true → (self.now.ended ≡ true) × (pending_of self.now ≡ []) }
        ensures no { self.now.ended ≡ true → pending_of self.now ≡ [] → result ≡ true }
    {
        self.ended && self.at == self.end
    }

    /// A reader that has read nothing.
    pub fn new(alloc: Global) -> Result<Self, AllocError>
        ensures { IfOk result (λ r. (r.at ≡ 0) × (r.end ≡ 0) × (r.ended ≡ false) × (r.taken ≡ 0)) }
    {
        Ok(Reader {
            piece: vec![in alloc; 0; MAX_PIECE]?,
            at: 0,
            end: 0,
            ended: false,
            taken: 0,
        })
    }
}

fn feed_in(bytes: &[u8]) -> Option<usize>
    ensures { result ≡ position (λ b. b == 10) bytes.now }
{
    bytes.iter().position(|b| *b == b'\n')
}

fn front_of(bytes: &[u8], end: usize) -> &[u8]
    requires { end ≤ length bytes.now }
    ensures { result.now ≡ take end bytes.now }
{
    &bytes[..end]
}

// Reads into the front of a piece; nothing where the source has ended.
fn read_piece<S: Source>(source: &mut S, piece: &mut [u8], room: usize) -> Result<usize, ReadFault>
    requires room { room ≤ length piece.old }
    requires some { 1 ≤ room }
    ensures within { IfOk result (λ n. n ≤ room) }
    ensures took { IfOk result (λ n. Took (S.left source.old) (S.left source.new) (take n piece.new)) }
    ensures ended { IfOk result (λ n. n ≡ 0 → HasEnded (S.left source.old) (S.left source.new)) }
    ensures stays { OnErr result (Took (S.left source.old) (S.left source.new) []) }
    ensures cause { HasCause (S.count source.old) (S.count source.new) result }
{
    let count = source.read(&mut piece[..room])?;
    Ok(count)
}

// Reads the next piece; nothing is pending then where the source has ended.
fn fill<S: Source>(source: &mut S, reader: &mut Reader) -> Result<(), ReadEnd>
    requires { reader.old.taken < max_input }
    ensures took { OnOk result (Took (S.left source.old) (S.left source.new) (take reader.new.end reader.new.piece.items)) }
    ensures start { OnOk result (reader.new.at ≡ 0) }
    ensures taken { OnOk result (reader.new.taken ≡ reader.old.taken + reader.new.end) }
    ensures fits { OnOk result (reader.new.taken < max_input) }
    ensures long { result ≡ Err TooMuch → IsLongPiece (S.left source.old) (S.left source.new) reader.old.taken }
    ensures stays { result ≡ Err Fault → Took (S.left source.old) (S.left source.new) [] }
    ensures known { result ≢ Err OutOfMemory }
    ensures ended { OnOk result (reader.new.end ≡ 0 → HasEnded (S.left source.old) (S.left source.new)) }
    ensures passed { OnOk result (S.count source.new ≡ S.count source.old) }
    ensures cause { result ≡ Err Fault → RoseByOne (S.count source.old) (S.count source.new) }
    ensures quiet { IfErr result (λ e. e ≢ Fault → S.count source.new ≡ S.count source.old) }
    ensures later { S.count source.old ≤ S.count source.new }
    ensures same { reader.new.ended ≡ reader.old.ended }
{
    let room = reader.piece.len().min((MAX_INPUT - reader.taken) as usize);
    let Ok(count) = read_piece(source, &mut reader.piece, room) else {
        return Err(ReadEnd::Fault);
    };
    reader.at = 0;
    reader.end = count;
    reader.taken += count as u64;
    if reader.taken >= MAX_INPUT {
        return Err(ReadEnd::TooMuch);
    }
    Ok(())
}
