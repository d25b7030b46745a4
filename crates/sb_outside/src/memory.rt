// A disk in memory, which keeps all its calls and fails at those of a list.
ghost use Rattle.std.specs.Prelude.{◌≡◌, ◌↔◌, ◌⊎◌, ◌≤◌, ◌<◌, ◌+◌, ◌-◌, ◌^◌, [], ◌∷◌, ◌++◌, length, take, drop, true, IfOk, OnOk, OnErr, IsErr, vec_len, vec_capacity};
ghost use Rattle.sb_outside.specs.declared.memory.DiskCall.TheVariants.{Write, FailedWrite, Cut, FailedCut, Sync};
ghost use Rattle.sb_outside.specs.Causes.{HasCause};
ghost use Rattle.sb_outside.specs.Held.{Moves, MayMove, touched, shortened, overwritten, at_rest, IsImage};
ghost use Rattle.sb_outside.specs.Kept.{counts_of, held_after, ArePlaced, are_placed-prop};
ghost use Rattle.sb_outside.specs.Images.{IsFilled};

use crate::faults::CallFaults;
use crate::memory_image::{fill_past, read_past};
use crate::memory_streams::read_at;
use crate::{Disk, DiskFault, LONGEST_DISK};
use std::alloc::{AllocError, Global};

// A call that changed what a crash may leave.
#[derive(Clone, Copy)]
pub(crate) enum DiskCall {
    // A place, and how many bytes.
    Write(u64, u64),
    // The same of a write that failed: none of its bytes is read, and a crash may leave some.
    FailedWrite(u64, u64),
    // The length that is left.
    Cut(u64),
    // The same of a cut that failed: all is read, and a crash may leave less.
    FailedCut(u64),
    Sync,
}

/// A disk in memory. It is honest, and fails at the calls of a list, which are numbered from 0 and
/// count each call but `faults`. A failed write or cut leaves what is read as it was, and counts for
/// what a crash may leave.
///
/// It keeps all its calls, and so tells what a crash could have left at each moment. Where its memory
/// can't grow, that is a counted fault too.
#[derive(Drop)]
pub struct MemDisk {
    first: Vec<u8>,
    bytes: Vec<u8>,
    written: Vec<u8>,
    calls: Vec<DiskCall>,
    faults: CallFaults,
    ghost counted: { counts_of calls.items ≡ length written.items },
    ghost small: { length bytes.items ≤ 2 ^ 62 },
    ghost kept: { bytes.items ≡ (held_after (at_rest first.items) calls.items written.items).seen },
    ghost placed: { ArePlaced (at_rest first.items) calls.items written.items } by { are_placed-prop (at_rest first.items) calls.items written.items },
    ghost image: { IsImage (held_after (at_rest first.items) calls.items written.items) (held_after (at_rest first.items) calls.items written.items).seen },
}

// Writes these at a place that isn't past the end, or leaves all as it was where memory is short.
pub(crate) fn overwrite(bytes: &mut Vec<u8>, place: usize, new: &[u8]) -> Result<(), AllocError>
    requires { place ≤ length bytes.old.items }
    ensures ok { OnOk result (bytes.new.items ≡ overwritten bytes.old.items place new.now) }
    ensures err { OnErr result (bytes.new.items ≡ bytes.old.items) }
    ensures len { OnErr result (vec_len bytes.new ≡ vec_len bytes.old) }
    ensures long { vec_len bytes.new ≤ vec_len bytes.old + length new.now }
    ensures capacity { vec_capacity bytes.old ≤ vec_capacity bytes.new }
    ensures full { OnErr result (vec_capacity bytes.old - vec_len bytes.old < length new.now) }
{
    let over = new.len().min(bytes.len() - place);
    bytes.extend_from_slice(&new[over..])?;
    bytes[place..place + over].copy_from_slice(&new[..over]);
    Ok(())
}

impl MemDisk {
    ghost use Rattle.sb_outside.specs.Memory.{disk_held, disk_calls, disk_room, calls_room, syncs_of, UsesRoom};

    /// A disk with these bytes at rest, which fails at these calls, and has no room of its own.
    ///
    /// Besides want of memory, more than 2^62 bytes are refused.
    pub fn new(alloc: Global, bytes: Vec<u8>, failing: Vec<u64>) -> Result<Self, AllocError>
        ensures held { IfOk result (λ d. ⟦<MemDisk as Disk>⟧.held d ≡ at_rest bytes.items) }
        ensures past { IfOk result (λ d. ⟦<MemDisk as Disk>⟧.past d ≡ []) }
        ensures honest { IfOk result (λ d. ⟦<MemDisk as Disk>⟧.honest d ≡ true) }
        ensures count { IfOk result (λ d. ⟦<MemDisk as Disk>⟧.count d ≡ 0) }
        ensures calls { IfOk result (λ d. disk_calls d ≡ record { failing = failing; next = 0; count = 0 }) }
    {
        MemDisk::with_room(alloc, bytes, failing, 0, 0)
    }

    /// The same with room for so many bytes to be written and for so many writes, cuts and syncs:
    /// within it, the disk fails at these calls alone.
    #[tactic(auto, using(crate::proofs::Calls::pushes))]
    pub fn with_room(
        alloc: Global,
        bytes: Vec<u8>,
        failing: Vec<u64>,
        room: usize,
        calls: usize,
    ) -> Result<Self, AllocError>
        ensures held { IfOk result (λ d. ⟦<MemDisk as Disk>⟧.held d ≡ at_rest bytes.items) }
        ensures past { IfOk result (λ d. ⟦<MemDisk as Disk>⟧.past d ≡ []) }
        ensures honest { IfOk result (λ d. ⟦<MemDisk as Disk>⟧.honest d ≡ true) }
        ensures count { IfOk result (λ d. ⟦<MemDisk as Disk>⟧.count d ≡ 0) }
        ensures calls { IfOk result (λ d. disk_calls d ≡ record { failing = failing; next = 0; count = 0 }) }
        ensures room { IfOk result (λ d. room ≤ disk_room d) }
        ensures calls_room { IfOk result (λ d. calls ≤ calls_room d) }
    {
        if bytes.len() as u64 > LONGEST_DISK {
            return Err(AllocError);
        }
        let first = bytes.as_slice().to_vec(alloc)?;
        let mut bytes = bytes;
        bytes.reserve(room)?;
        Ok(MemDisk {
            first,
            bytes,
            written: Vec::with_capacity(alloc, room)?,
            calls: Vec::with_capacity(alloc, calls)?,
            faults: CallFaults::new(failing),
        })
    }

    /// The bytes as a read returns them.
    pub fn bytes(&self) -> &[u8]
        ensures { result.now ≡ (⟦<MemDisk as Disk>⟧.held self.now).seen }
    {
        self.bytes.as_slice()
    }

    /// What a crash now may leave: the longest of the images, with this byte at each place where a
    /// crash may leave any.
    pub fn image(&self, alloc: Global, fill: u8) -> Result<Vec<u8>, AllocError>
        ensures { IfOk result (λ v. IsFilled fill (⟦<MemDisk as Disk>⟧.held self.now) v.items) }
    {
        let mut seen = self.first.as_slice().to_vec(alloc)?;
        let mut image = self.first.as_slice().to_vec(alloc)?;
        let mut at = 0;
        for call in &self.calls {
            let call = *call;
            fill_past(alloc, call, fill, &seen, &mut image)?;
            at += read_past(call, &self.written[at..], &mut seen)?;
        }
        Ok(image)
    }

    /// How many syncs were made; one that failed doesn't count.
    pub fn syncs(&self) -> usize
        ensures { result ≡ syncs_of self.now }
    {
        self.calls
            .iter()
            .filter(|call: &&DiskCall| matches!(call, DiskCall::Sync))
            .count()
    }

    // Writes in full, or leaves all as it was where memory is short.
    #[tactic(auto, using(crate::proofs::Calls::pushes))]
    fn write(&mut self, place: usize, bytes: &[u8]) -> Result<(), AllocError>
        requires place { place ≤ length self.old.bytes.items }
        requires small { place + length bytes.now ≤ 2 ^ 62 }
        ensures first { self.new.first ≡ self.old.first }
        ensures faults { self.new.faults ≡ self.old.faults }
        ensures ok { OnOk result ((self.new.calls.items ≡ self.old.calls.items ++ Write place (length bytes.now) ∷ []) × (self.new.written.items ≡ self.old.written.items ++ bytes.now)) }
        ensures err { OnErr result ((self.new.calls.items ≡ self.old.calls.items) × (self.new.written.items ≡ self.old.written.items)) }
        ensures room { UsesRoom self.old self.new (length bytes.now) 1 }
        ensures full { OnErr result ((disk_room self.old < length bytes.now) ⊎ (calls_room self.old ≡ 0)) }
    {
        self.calls.reserve(1)?;
        self.written.reserve(bytes.len())?;
        overwrite(&mut self.bytes, place, bytes)?;
        let _ = self.written.extend_from_slice(bytes);
        let call = DiskCall::Write(place as u64, bytes.len() as u64);
        let _ = self.calls.push(call);
        Ok(())
    }

    // Keeps a write that failed, where there is memory.
    #[tactic(auto, using(crate::proofs::Calls::pushes))]
    fn note_failed_write(&mut self, place: usize, count: usize)
        requires { place ≤ length self.old.bytes.items }
        ensures first { self.new.first ≡ self.old.first }
        ensures bytes { self.new.bytes ≡ self.old.bytes }
        ensures written { self.new.written ≡ self.old.written }
        ensures faults { self.new.faults ≡ self.old.faults }
        ensures calls { (self.new.calls.items ≡ self.old.calls.items) ⊎ (self.new.calls.items ≡ self.old.calls.items ++ FailedWrite place count ∷ []) }
        ensures kept { 1 ≤ calls_room self.old → self.new.calls.items ≡ self.old.calls.items ++ FailedWrite place count ∷ [] }
        ensures room { UsesRoom self.old self.new 0 1 }
    {
        let call = DiskCall::FailedWrite(place as u64, count as u64);
        let _ = self.calls.push(call);
    }

    // Cuts, or leaves all as it was where memory is short.
    #[tactic(auto, using(crate::proofs::Calls::pushes))]
    fn cut_to(&mut self, end: usize) -> Result<(), AllocError>
        requires { end ≤ length self.old.bytes.items }
        ensures first { self.new.first ≡ self.old.first }
        ensures written { self.new.written ≡ self.old.written }
        ensures faults { self.new.faults ≡ self.old.faults }
        ensures ok { OnOk result (self.new.calls.items ≡ self.old.calls.items ++ Cut end ∷ []) }
        ensures err { OnErr result (self.new.calls.items ≡ self.old.calls.items) }
        ensures room { UsesRoom self.old self.new 0 1 }
        ensures full { OnErr result (calls_room self.old ≡ 0) }
    {
        self.calls.reserve(1)?;
        self.bytes.truncate(end);
        let _ = self.calls.push(DiskCall::Cut(end as u64));
        Ok(())
    }

    // Keeps a cut that failed, where there is memory.
    #[tactic(auto, using(crate::proofs::Calls::pushes))]
    fn note_failed_cut(&mut self, end: usize)
        requires { end ≤ length self.old.bytes.items }
        ensures first { self.new.first ≡ self.old.first }
        ensures bytes { self.new.bytes ≡ self.old.bytes }
        ensures written { self.new.written ≡ self.old.written }
        ensures faults { self.new.faults ≡ self.old.faults }
        ensures calls { (self.new.calls.items ≡ self.old.calls.items) ⊎ (self.new.calls.items ≡ self.old.calls.items ++ FailedCut end ∷ []) }
        ensures kept { 1 ≤ calls_room self.old → self.new.calls.items ≡ self.old.calls.items ++ FailedCut end ∷ [] }
        ensures room { UsesRoom self.old self.new 0 1 }
    {
        let _ = self.calls.push(DiskCall::FailedCut(end as u64));
    }

    // Makes sure of all, or leaves all as it was where memory is short.
    #[tactic(auto, using(crate::proofs::Calls::pushes))]
    fn settle(&mut self) -> Result<(), AllocError>
        ensures first { self.new.first ≡ self.old.first }
        ensures bytes { self.new.bytes ≡ self.old.bytes }
        ensures written { self.new.written ≡ self.old.written }
        ensures faults { self.new.faults ≡ self.old.faults }
        ensures ok { OnOk result (self.new.calls.items ≡ self.old.calls.items ++ Sync ∷ []) }
        ensures err { OnErr result (self.new.calls.items ≡ self.old.calls.items) }
        ensures room { UsesRoom self.old self.new 0 1 }
        ensures full { OnErr result (calls_room self.old ≡ 0) }
    {
        self.calls.push(DiskCall::Sync)?;
        Ok(())
    }
}

impl Disk for MemDisk {
    ghost use Rattle.sb_outside.specs.Memory.{IsListed, IsNext, HoldsSame, disk_held, disk_past, disk_calls, disk_room, calls_room, UsesRoom};

    ghost honest = { λ _. true };

    ghost held = { disk_held };

    ghost past = { disk_past };

    ghost count = { λ d. (disk_calls d).count };

    ghost seen_is_image = { λ d _. d.image };

    fn faults(&self) -> u64 {
        self.faults.count
    }

    /// Fails at the listed calls alone.
    fn length(&mut self) -> Result<u64, DiskFault>
        ensures small { IfOk result (λ n. n ≤ 2 ^ 62) }
        ensures length { IfOk result (λ n. n ≡ length (disk_held self.old).seen) }
        ensures same { HoldsSame self.old self.new }
        ensures cause { HasCause (disk_calls self.old).count (disk_calls self.new).count result }

        ensures calls { IsNext (disk_calls self.old) (disk_calls self.new) }
        ensures room { UsesRoom self.old self.new 0 0 }
        ensures alone { IsErr result ↔ IsListed (disk_calls self.old) }
    {
        if self.faults.fails() {
            return Err(DiskFault);
        }
        Ok(self.bytes.len() as u64)
    }

    /// Fails at the listed calls alone.
    fn read(&mut self, place: u64, into: &mut [u8]) -> Result<usize, DiskFault>
        ensures within { IfOk result (λ n. n ≤ length into.old) }
        ensures bytes { IfOk result (λ n. take n into.new ≡ take n (drop place (disk_held self.old).seen)) }
        ensures some { IfOk result (λ n. n ≡ 0 → (length into.old ≡ 0) ⊎ (length (disk_held self.old).seen ≤ place)) }
        ensures none { IfOk result (λ n. (place + n ≤ length (disk_held self.old).seen) ⊎ (n ≡ 0)) }
        ensures same { HoldsSame self.old self.new }
        ensures cause { HasCause (disk_calls self.old).count (disk_calls self.new).count result }

        ensures calls { IsNext (disk_calls self.old) (disk_calls self.new) }
        ensures room { UsesRoom self.old self.new 0 0 }
        ensures alone { IsErr result ↔ IsListed (disk_calls self.old) }
    {
        if self.faults.fails() {
            return Err(DiskFault);
        }
        Ok(read_at(&self.bytes, place as usize, usize::MAX, into))
    }

    /// Within its room fails at the listed calls alone, or where the end would pass 2^62.
    #[tactic(auto, using(crate::proofs::Calls::pushes))]
    fn write_at(&mut self, place: u64, bytes: &[u8]) -> Result<(), DiskFault>
        requires { place ≤ length (disk_held self.old).seen }
        ensures small { OnOk result (place + length bytes.now ≤ 2 ^ 62) }
        ensures ok { OnOk result (Moves (disk_past self.old) (disk_held self.old) (disk_past self.new) (disk_held self.new)
            (touched (disk_held self.old) place (length bytes.now) (overwritten (disk_held self.old).seen place bytes.now))) }
        ensures err { OnErr result (MayMove (disk_past self.old) (disk_held self.old) (disk_past self.new) (disk_held self.new)
            (touched (disk_held self.old) place (length bytes.now))) }
        ensures seen { OnErr result ((disk_held self.new).seen ≡ (disk_held self.old).seen) }
        ensures torn { IsListed (disk_calls self.old) → place + length bytes.now ≤ 2 ^ 62 → 1 ≤ calls_room self.old
            → Moves (disk_past self.old) (disk_held self.old) (disk_past self.new) (disk_held self.new)
            (touched (disk_held self.old) place (length bytes.now) (disk_held self.old).seen) }
        ensures cause { HasCause (disk_calls self.old).count (disk_calls self.new).count result }

        ensures calls { IsNext (disk_calls self.old) (disk_calls self.new) }
        ensures room { UsesRoom self.old self.new (length bytes.now) 1 }
        ensures listed { IsListed (disk_calls self.old) → IsErr result }
        ensures alone { OnErr result (IsListed (disk_calls self.old) ⊎ ((2 ^ 62 < place + length bytes.now) ⊎ ((disk_room self.old < length bytes.now) ⊎ (calls_room self.old ≡ 0)))) }
    {
        let place = place as usize;
        let listed = self.faults.fails();
        if bytes.len() > LONGEST_DISK as usize - place {
            if !listed {
                self.faults.rise();
            }
            return Err(DiskFault);
        }
        if listed {
            self.note_failed_write(place, bytes.len());
            return Err(DiskFault);
        }
        let Ok(()) = self.write(place, bytes) else {
            self.faults.rise();
            return Err(DiskFault);
        };
        Ok(())
    }

    /// Within its room fails at the listed calls alone.
    #[tactic(auto, using(crate::proofs::Calls::pushes))]
    fn cut(&mut self, end: u64) -> Result<(), DiskFault>
        requires { end ≤ length (disk_held self.old).seen }
        ensures ok { OnOk result (Moves (disk_past self.old) (disk_held self.old) (disk_past self.new) (disk_held self.new)
            (shortened (disk_held self.old) end (take end (disk_held self.old).seen))) }
        ensures err { OnErr result (MayMove (disk_past self.old) (disk_held self.old) (disk_past self.new) (disk_held self.new)
            (shortened (disk_held self.old) end)) }
        ensures seen { OnErr result ((disk_held self.new).seen ≡ (disk_held self.old).seen) }
        ensures torn { IsListed (disk_calls self.old) → 1 ≤ calls_room self.old
            → Moves (disk_past self.old) (disk_held self.old) (disk_past self.new) (disk_held self.new)
            (shortened (disk_held self.old) end (disk_held self.old).seen) }
        ensures cause { HasCause (disk_calls self.old).count (disk_calls self.new).count result }

        ensures calls { IsNext (disk_calls self.old) (disk_calls self.new) }
        ensures room { UsesRoom self.old self.new 0 1 }
        ensures listed { IsListed (disk_calls self.old) → IsErr result }
        ensures alone { OnErr result (IsListed (disk_calls self.old) ⊎ (calls_room self.old ≡ 0)) }
    {
        let end = end as usize;
        if self.faults.fails() {
            self.note_failed_cut(end);
            return Err(DiskFault);
        }
        let Ok(()) = self.cut_to(end) else {
            self.faults.rise();
            return Err(DiskFault);
        };
        Ok(())
    }

    /// Within its room fails at the listed calls alone.
    #[tactic(auto, using(crate::proofs::Calls::pushes))]
    fn sync(&mut self) -> Result<(), DiskFault>
        ensures ok { OnOk result (Moves (disk_past self.old) (disk_held self.old) (disk_past self.new) (disk_held self.new)
            (at_rest (disk_held self.old).seen)) }
        ensures err { OnErr result (HoldsSame self.old self.new) }
        ensures cause { HasCause (disk_calls self.old).count (disk_calls self.new).count result }

        ensures calls { IsNext (disk_calls self.old) (disk_calls self.new) }
        ensures room { UsesRoom self.old self.new 0 1 }
        ensures listed { IsListed (disk_calls self.old) → IsErr result }
        ensures alone { OnErr result (IsListed (disk_calls self.old) ⊎ (calls_room self.old ≡ 0)) }
    {
        if self.faults.fails() {
            return Err(DiskFault);
        }
        let Ok(()) = self.settle() else {
            self.faults.rise();
            return Err(DiskFault);
        };
        Ok(())
    }
}
