// What records: the journal, with what of it isn't written yet.
ghost use Rattle.std.specs.Prelude.{◌≡◌, ◌⊎◌, ◌≤◌, ◌<◌, ◌+◌, ◌++◌, [], List, ℕ, false, true, length, is_some, vec_capacity, IfOk, IfErr, OnOk, OnErr};
ghost use Rattle.std.specs.Option.{ForSome};
ghost use Rattle.sb_journal.specs.Journals.{has_failed, base_left, IsBegun};
ghost use Rattle.sb_journal.specs.Text.{max_payload};

use sb_checkpoint::{Pieces, Unput};
use sb_codec::write_event;
use sb_journal::{Journal, NextFile};
use sb_machine::{EventRef, Refusal};
use sb_outside::{Disk, DiskFault};
use std::alloc::Global;
use std::snapshot::Snapshot;

// The most bytes of a base that are gathered for one write.
const MOST_GATHERED: usize = 65_536;

// The bytes of a record beside its payload: its gate, its length and its number.
const FRAME: u64 = 13;

/// What records: the journal, and what is spelled for it.
pub struct Recorder<D: Disk> {
    journal: Journal<D>,
    // The event that is being journaled, or what of a base isn't written yet. Has room for the longest event, so that no
    // step grows it.
    buffer: Vec<u8>,
    // The file that a base is written to, while one is.
    next: Option<NextFile>,
    // How many bytes of that base aren't put yet.
    left: u64,
    // How many bytes the base has that was begun last.
    base: u64,
    // How many bytes of records it wrote to the file.
    grown: u64,
    // As it was begun, for clauses alone: the journal, the next file's first number, and how many bytes the base has.
    began: Snapshot<Journal<D>>,
    first: Snapshot<u64>,
    total: Snapshot<u64>,
    ghost buffer_fits: { max_payload ≤ vec_capacity buffer },
    ghost running: { is_some next ≡ true → has_failed journal ≡ false },
    ghost begun: { ForSome next (λ n. IsBegun journal n) },
    ghost fits: { ForSome next (λ n. base_left n ≡ left + length buffer.items) },
}

// These bytes behind those that the buffer has. It has room for them.
fn add_bytes(buffer: &mut Vec<u8>, bytes: &[u8])
    requires room { length buffer.old.items + length bytes.now ≤ vec_capacity buffer.old }
    ensures items { buffer.new.items ≡ buffer.old.items ++ bytes.now }
    ensures long { length buffer.new.items ≡ length buffer.old.items + length bytes.now }
    ensures room { vec_capacity buffer.old ≤ vec_capacity buffer.new }
{
    let _ = buffer.extend_from_slice(bytes);
}

impl<D: Disk> Recorder<D> {
    ghost use Rattle.sb_journal.specs.Text.{may_go_on, File};
    ghost use Rattle.sb_journal.specs.Text.{with_payloads};
    ghost use Rattle.sb_journal.specs.Opened.{FindsFile, FindsNoneOrAll};
    ghost use Rattle.sb_journal.specs.Disks.{EachPair, AreQuiet, OneFault, NoneFell, SameHonesty};
    ghost use Rattle.sb_journal.specs.Journals.{fault_count, journal_aside, journal_disk_a, journal_disk_b, journal_disks, HoldsFile, HoldsStaged};
    ghost use Rattle.sb_codec.specs.EventBytes.{event_of, event_bytes, IsSpellable, HasSpelling};
    ghost use Rattle.sb_recorder.specs.Recorders.{recorder_journal, begun_at, begun_of, bytes_left, is_writing, Begun, GoesOn, HasAccount, HasBase, HasEventOrNot, HasStaged, HasTurned, IsLogged, IsUnwritten, LeavesEither};

    /// Over a journal, with room for the longest event.
    pub fn over(journal: Journal<D>, buffer: Vec<u8>) -> Recorder<D>
        requires { max_payload ≤ vec_capacity buffer }
        ensures { recorder_journal result ≡ journal }
    {
        Recorder {
            began: Snapshot::of(&journal),
            first: Snapshot::of(&0),
            total: Snapshot::of(&0),
            journal,
            buffer,
            next: None,
            left: 0,
            base: 0,
            grown: 0,
        }
    }

    /// Journals an event, and says the number of its record. `OutOfMemory` where the buffer lacks the room for it, and nothing is
    /// done then; `DiskFault` where a call of the disk failed.
    pub fn record(&mut self, event: &EventRef<'_>) -> Result<u64, Refusal>
        requires spellable { IsSpellable (event_of event.now) }
        requires short { HasSpelling (event_of event.now) → length (event_bytes (event_of event.now)) ≤ max_payload }
        requires running { has_failed (recorder_journal self.old) ≡ false }
        ensures logged { (file : File) → HoldsFile (recorder_journal self.old) file → IfOk result (λ number. IsLogged (recorder_journal self.new) number file (event_of event.now)) }
        ensures any_moment { (file : File) → HoldsFile (recorder_journal self.old) file
            → EachPair (journal_disks (recorder_journal self.old)) (journal_disks (recorder_journal self.new)) (HasEventOrNot file (event_of event.now)) }
        ensures running { OnOk result (has_failed (recorder_journal self.new) ≡ false) }
        ensures quiet { OnOk result (AreQuiet (journal_disks (recorder_journal self.old)) (journal_disks (recorder_journal self.new))) }
        ensures refused { IfErr result (IsUnwritten (recorder_journal self.old) (recorder_journal self.new)) }
        ensures free { length (event_bytes (event_of event.now)) ≤ max_payload → IfErr result (λ e. e ≡ Refusal.DiskFault) }
        ensures later { NoneFell (journal_disks (recorder_journal self.old)) (journal_disks (recorder_journal self.new)) }
        ensures honesty { SameHonesty (journal_disks (recorder_journal self.old)) (journal_disks (recorder_journal self.new)) }
        ensures aside { journal_aside (recorder_journal self.new) ≡ journal_aside (recorder_journal self.old) }
    {
        match self.stage(event) {
            Ok(()) => match self.seal_events() {
                Ok(number) => Ok(number),
                Err(_) => Err(Refusal::DiskFault),
            },
            Err(refusal) => Err(refusal),
        }
    }

    /// Stages an event behind those that were staged before: it doesn't count until `seal_events`. `OutOfMemory` where the buffer lacks
    /// the room for it, and nothing is done then; `DiskFault` where a call of the disk failed: then none of those staged counts.
    pub fn stage(&mut self, event: &EventRef<'_>) -> Result<(), Refusal>
        requires spellable { IsSpellable (event_of event.now) }
        requires short { HasSpelling (event_of event.now) → length (event_bytes (event_of event.now)) ≤ max_payload }
        requires running { has_failed (recorder_journal self.old) ≡ false }
        ensures staged { (file : File) (staged : List (List ℕ)) → HoldsStaged (recorder_journal self.old) file staged → OnOk result (HasStaged (recorder_journal self.new) file staged (event_of event.now)) }

        // A crash at any moment of the call leaves the file without all that is staged.
        ensures any_moment { (file : File) (staged : List (List ℕ)) → HoldsStaged (recorder_journal self.old) file staged
            → EachPair (journal_disks (recorder_journal self.old)) (journal_disks (recorder_journal self.new)) (FindsFile file) }
        ensures running { OnOk result (has_failed (recorder_journal self.new) ≡ false) }
        ensures quiet { OnOk result (AreQuiet (journal_disks (recorder_journal self.old)) (journal_disks (recorder_journal self.new))) }
        ensures refused { IfErr result (IsUnwritten (recorder_journal self.old) (recorder_journal self.new)) }
        ensures free { length (event_bytes (event_of event.now)) ≤ max_payload → IfErr result (λ e. e ≡ Refusal.DiskFault) }
        ensures later { NoneFell (journal_disks (recorder_journal self.old)) (journal_disks (recorder_journal self.new)) }
        ensures honesty { SameHonesty (journal_disks (recorder_journal self.old)) (journal_disks (recorder_journal self.new)) }
        ensures aside { journal_aside (recorder_journal self.new) ≡ journal_aside (recorder_journal self.old) }
    {
        self.next = None;
        self.buffer.clear();
        let Ok(()) = write_event(event, &mut self.buffer) else {
            return Err(Refusal::OutOfMemory);
        };
        let Ok(()) = self.journal.add(&self.buffer) else {
            return Err(Refusal::DiskFault);
        };
        let bytes = FRAME.saturating_add(self.buffer.len() as u64);
        self.grown = self.grown.saturating_add(bytes);
        Ok(())
    }

    /// Seals the events that are staged, all at once, and says the number of the first one's record. From its Ok on they are safe. Where
    /// none is staged nothing is done to the disks. `DiskFault` where a call of the disk failed: then all of them count or none does.
    pub fn seal_events(&mut self) -> Result<u64, DiskFault>
        requires running { has_failed (recorder_journal self.old) ≡ false }
        ensures sealed { (file : File) (staged : List (List ℕ)) → HoldsStaged (recorder_journal self.old) file staged → OnOk result (HoldsFile (recorder_journal self.new) (with_payloads file staged)) }
        ensures number { (file : File) (staged : List (List ℕ)) → HoldsStaged (recorder_journal self.old) file staged → IfOk result (λ n. n ≡ file.first + length file.payloads) }

        // A crash at any moment of the call leaves the file without them, or the one with all of them.
        ensures any_moment { (file : File) (staged : List (List ℕ)) → HoldsStaged (recorder_journal self.old) file staged
            → EachPair (journal_disks (recorder_journal self.old)) (journal_disks (recorder_journal self.new)) (FindsNoneOrAll file staged) }
        ensures running { OnOk result (has_failed (recorder_journal self.new) ≡ false) }
        ensures failed { OnErr result (has_failed (recorder_journal self.new) ≡ true) }
        ensures quiet { OnOk result (AreQuiet (journal_disks (recorder_journal self.old)) (journal_disks (recorder_journal self.new))) }
        ensures cause { OnErr result (OneFault (journal_disks (recorder_journal self.old)) (journal_disks (recorder_journal self.new)) (fault_count (recorder_journal self.new))) }
        ensures later { NoneFell (journal_disks (recorder_journal self.old)) (journal_disks (recorder_journal self.new)) }
        ensures honesty { SameHonesty (journal_disks (recorder_journal self.old)) (journal_disks (recorder_journal self.new)) }
        ensures aside { journal_aside (recorder_journal self.new) ≡ journal_aside (recorder_journal self.old) }
    {
        self.next = None;
        self.journal.seal()
    }

    /// Begins a base of so many bytes, in the file that the journal is to go on with, which has this first number. `false` where
    /// that file may not be: then nothing is done.
    pub fn start(&mut self, first: u64, total: u64) -> Result<bool, DiskFault>
        requires running { has_failed (recorder_journal self.old) ≡ false }
        ensures nothing { IfOk result (λ b. b ≡ false → recorder_journal self.new ≡ recorder_journal self.old) }
        ensures may { (file : File) → HoldsFile (recorder_journal self.old) file → IfOk result (λ b. b ≡ may_go_on file.generation (file.first + length file.payloads) first total) }
        ensures since { begun_of self.new ≡ begun_at (recorder_journal self.old) first total }
        ensures has { IfOk result (λ b. b ≡ true → GoesOn self.new (begun_at (recorder_journal self.old) first total) × HasBase self.new (begun_at (recorder_journal self.old) first total) []) }
        ensures stays { OnErr result (GoesOn self.new (begun_at (recorder_journal self.old) first total)) }
        ensures running { OnOk result (has_failed (recorder_journal self.new) ≡ false) }
        ensures failed { OnErr result (has_failed (recorder_journal self.new) ≡ true) }
    {
        self.began = Snapshot::of(&self.journal);
        self.first = Snapshot::of(&first);
        self.total = Snapshot::of(&total);
        self.next = None;
        self.buffer.clear();
        self.left = total;
        self.base = total;
        match self.journal.start_base(first, total) {
            Ok(Some(next)) => {
                self.next = Some(next);
                Ok(true)
            }
            Ok(None) => Ok(false),
            Err(_) => Err(DiskFault),
        }
    }

    /// Makes the file safe whose base was written whole: the journal goes on with it.
    pub fn seal(&mut self) -> Result<(), DiskFault>
        requires begun { is_writing self.old ≡ true }
        requires whole { bytes_left self.old ≡ 0 }
        ensures account { (begun : Begun D.Disk) → GoesOn self.old begun → HasAccount begun.journal (recorder_journal self.new) }
        ensures turned { (begun : Begun D.Disk) (text : List ℕ) (file : File) → GoesOn self.old begun → HasBase self.old begun text → length text ≡ begun.total → HoldsFile begun.journal file
            → OnOk result (HasTurned file begun.journal (recorder_journal self.new) begun.first text) }
        ensures any_moment { (begun : Begun D.Disk) (text : List ℕ) (file : File) → GoesOn self.old begun → HasBase self.old begun text → length text ≡ begun.total → HoldsFile begun.journal file
            → LeavesEither file begun.journal (recorder_journal self.new) begun.first text }
        ensures running { OnOk result (has_failed (recorder_journal self.new) ≡ false) }
        ensures failed { OnErr result (has_failed (recorder_journal self.new) ≡ true) }
    {
        let Ok(()) = self.write_gathered() else {
            return Err(DiskFault);
        };
        let Some(next) = self.next.take() else {
            return Err(DiskFault);
        };
        self.grown = 0;
        self.journal.seal_base(next)
    }

    /// Whether a base is written: `false` also once a call of a disk has failed on it.
    pub fn is_writing(&self) -> bool
        ensures value { result ≡ is_writing self.now }
        ensures running { result ≡ true → has_failed (recorder_journal self.now) ≡ false }
    {
        self.next.is_some()
    }

    /// Leaves the base as far as it is written: it never counts.
    pub fn leave(&mut self)
        ensures journal { recorder_journal self.new ≡ recorder_journal self.old }
    {
        self.next = None;
    }

    /// How many bytes of records it wrote to the journal's file, at most `u64::MAX`: since it was made, or since the file was
    /// sealed with which the journal went on. A hint: no clause says anything of it.
    pub fn grown(&self) -> u64 {
        self.grown
    }

    /// How many bytes the base has that was begun last; 0 where none was. A hint too.
    pub fn base(&self) -> u64 {
        self.base
    }

    /// What its memory comes from.
    pub fn alloc(&self) -> Global {
        *self.buffer.allocator()
    }

    /// The count of faults of the disk whose call failed last, 0 where none failed.
    pub fn faults(&self) -> u64
        ensures { result ≡ fault_count (recorder_journal self.now) }
    {
        self.journal.faults()
    }

    /// The two disks back, as they are.
    pub fn close(self) -> (D, D)
        ensures disk_a { result.0 ≡ journal_disk_a (recorder_journal self) }
        ensures disk_b { result.1 ≡ journal_disk_b (recorder_journal self) }
    {
        let Recorder {
            journal,
            buffer: _,
            next: _,
            left: _,
            base: _,
            grown: _,
            began: _,
            first: _,
            total: _,
        } = self;
        journal.close()
    }

    // Writes on what the buffer has of the base. Where the disk fails, no base is written any more.
    fn write_gathered(&mut self) -> Result<(), DiskFault>
        ensures since { begun_of self.new ≡ begun_of self.old }
        ensures stays { (begun : Begun D.Disk) → GoesOn self.old begun → GoesOn self.new begun }
        ensures has { (begun : Begun D.Disk) (text : List ℕ) → HasBase self.old begun text → OnOk result (HasBase self.new begun text) }
        ensures empty { OnOk result (is_some self.new.next ≡ true → self.new.buffer.items ≡ []) }
        ensures next { OnOk result (is_some self.new.next ≡ is_some self.old.next) }
        ensures left { self.new.left ≡ self.old.left }
        ensures failed { OnErr result (has_failed self.new.journal ≡ true) }
    {
        let Some(mut next) = self.next.take() else {
            return Ok(());
        };
        let Ok(()) = self.journal.base_piece(&mut next, &self.buffer) else {
            return Err(DiskFault);
        };
        self.buffer.clear();
        self.next = Some(next);
        Ok(())
    }

    // Writes on what the buffer has of the base, where so many bytes more aren't to be gathered with it.
    fn make_room(&mut self, bytes: usize) -> Result<(), DiskFault>
        ensures since { begun_of self.new ≡ begun_of self.old }
        ensures stays { (begun : Begun D.Disk) → GoesOn self.old begun → GoesOn self.new begun }
        ensures has { (begun : Begun D.Disk) (text : List ℕ) → HasBase self.old begun text → OnOk result (HasBase self.new begun text) }
        ensures room { is_some self.old.next ≡ true → OnOk result ((length self.new.buffer.items + bytes ≤ 65536) ⊎ (self.new.buffer.items ≡ [])) }
        ensures left { self.new.left ≡ self.old.left }
        ensures failed { OnErr result (has_failed self.new.journal ≡ true) }
    {
        if self.buffer.len().saturating_add(bytes) <= MOST_GATHERED {
            return Ok(());
        }
        self.write_gathered()
    }

    // Gathers these bytes of the base. The buffer has room for them.
    fn gather(&mut self, bytes: &[u8])
        requires room { (length self.old.buffer.items + length bytes.now ≤ 65536) ⊎ (self.old.buffer.items ≡ []) }
        requires short { length bytes.now ≤ 65536 }
        requires fits { length bytes.now ≤ self.old.left }
        ensures since { begun_of self.new ≡ begun_of self.old }
        ensures stays { (begun : Begun D.Disk) → GoesOn self.old begun → GoesOn self.new begun }
        ensures has { (begun : Begun D.Disk) (text : List ℕ) → HasBase self.old begun text → HasBase self.new begun (text ++ bytes.now) }
    {
        add_bytes(&mut self.buffer, bytes);
        self.left -= bytes.len() as u64;
    }

    // Takes these bytes of the base, which aren't more than are left.
    fn put_on(&mut self, bytes: &[u8]) -> Result<(), DiskFault>
        requires begun { is_some self.old.next ≡ true }
        requires fits { length bytes.now ≤ self.old.left }
        ensures since { begun_of self.new ≡ begun_of self.old }
        ensures stays { (begun : Begun D.Disk) → GoesOn self.old begun → GoesOn self.new begun }
        ensures has { (begun : Begun D.Disk) (text : List ℕ) → HasBase self.old begun text → OnOk result (HasBase self.new begun (text ++ bytes.now)) }
        ensures failed { OnErr result (has_failed self.new.journal ≡ true) }
    {
        let Ok(()) = self.make_room(bytes.len()) else {
            return Err(DiskFault);
        };
        if bytes.len() > MOST_GATHERED {
            return self.write_long(bytes);
        }
        self.gather(bytes);
        Ok(())
    }

    // Writes these bytes of the base, where none are gathered.
    fn write_long(&mut self, bytes: &[u8]) -> Result<(), DiskFault>
        requires room { (length self.old.buffer.items + length bytes.now ≤ 65536) ⊎ (self.old.buffer.items ≡ []) }
        requires long { 65536 < length bytes.now }
        requires fits { length bytes.now ≤ self.old.left }
        ensures since { begun_of self.new ≡ begun_of self.old }
        ensures stays { (begun : Begun D.Disk) → GoesOn self.old begun → GoesOn self.new begun }
        ensures has { (begun : Begun D.Disk) (text : List ℕ) → HasBase self.old begun text → OnOk result (HasBase self.new begun (text ++ bytes.now)) }
        ensures failed { OnErr result (has_failed self.new.journal ≡ true) }
    {
        let Some(mut next) = self.next.take() else {
            return Ok(());
        };
        let Ok(()) = self.journal.base_piece(&mut next, bytes) else {
            return Err(DiskFault);
        };
        self.left -= bytes.len() as u64;
        self.next = Some(next);
        Ok(())
    }
}

impl<D: Disk> Pieces for Recorder<D> {
    ghost use Rattle.sb_recorder.specs.Recorders.{begun_of, recorder_journal, Begun, GoesOn, HasBase};

    ghost Since = { Begun D.Disk };

    ghost since = { λ r. begun_of r };

    ghost has = { λ r text. HasBase r (begun_of r) text };

    ghost stays = { λ r. GoesOn r (begun_of r) };

    ghost refuses = { λ r. has_failed (recorder_journal r) ≡ true };

    // What is more than the base was to have isn't taken.
    fn put(&mut self, bytes: &[u8]) -> Result<(), Unput> {
        if self.next.is_none() || bytes.len() as u64 > self.left {
            return Ok(());
        }
        match self.put_on(bytes) {
            Ok(()) => Ok(()),
            Err(_) => Err(Unput::Refused),
        }
    }
}
