// Streams in memory.
ghost use Rattle.std.specs.Prelude.{◌≡◌, ◌↔◌, ◌⊎◌, ◌≤◌, ◌<◌, ◌+◌, ◌++◌, [], Some, length, take, drop, IfOk, OnOk, OnErr, IsErr};
ghost use Rattle.sb_outside.specs.Causes.{HasCause};
ghost use Rattle.sb_outside.specs.Streams.{Consumes, Ends};

use crate::faults::CallFaults;
use crate::{ReadFault, Sink, Source, WriteFault};
use std::alloc::{AllocError, Global};

// Reads from a place on: as much as there is, as fits, and as the limit lets.
pub(crate) fn read_at(from: &[u8], place: usize, most: usize, into: &mut [u8]) -> usize
    ensures within { result ≤ length into.old }
    ensures bytes { take result into.new ≡ take result (drop place from.now) }
    ensures some { result ≡ 0 → (most ≡ 0) ⊎ ((length into.old ≡ 0) ⊎ (length from.now ≤ place)) }
    ensures none { (place + result ≤ length from.now) ⊎ (result ≡ 0) }
{
    if place >= from.len() {
        return 0;
    }
    let rest = &from[place..];
    let count = rest.len().min(into.len()).min(most);
    into[..count].copy_from_slice(&rest[..count]);
    count
}

/// A source in memory that never fails.
///
/// It gives at most `most` bytes a read, so that a reader meets its input cut anywhere.
#[derive(Drop)]
pub struct SureSource {
    bytes: Vec<u8>,
    at: usize,
    most: usize,
    ghost within: { at ≤ length bytes.items },
    ghost some: { 1 ≤ most },
}

impl SureSource {
    /// A source of these, which gives at most `most` of them a read.
    pub fn new(bytes: Vec<u8>, most: usize) -> Self
        requires { 1 ≤ most }
        ensures { ⟦<SureSource as Source>⟧.left result ≡ Some bytes.items }
    {
        SureSource { bytes, at: 0, most }
    }
}

impl Source for SureSource {
    ghost left = { λ s. Some (drop s.at s.bytes.items) };

    ghost count = { λ _. 0 };

    fn read(&mut self, into: &mut [u8]) -> Result<usize, ReadFault> {
        let count = read_at(&self.bytes, self.at, self.most, into);
        self.at += count;
        Ok(count)
    }
}

/// A source in memory that fails at the calls of a list, which are numbered from 0.
#[derive(Drop)]
pub struct MemSource {
    inner: SureSource,
    faults: CallFaults,
}

impl MemSource {
    ghost use Rattle.sb_outside.specs.Memory.{source_calls};

    /// A source of these, which gives at most `most` of them a read, and fails at these calls.
    pub fn new(bytes: Vec<u8>, most: usize, failing: Vec<u64>) -> Self
        requires { 1 ≤ most }
        ensures left { ⟦<MemSource as Source>⟧.left result ≡ Some bytes.items }
        ensures count { ⟦<MemSource as Source>⟧.count result ≡ 0 }
        ensures calls { source_calls result ≡ record { failing = failing; next = 0; count = 0 } }
    {
        MemSource {
            inner: SureSource::new(bytes, most),
            faults: CallFaults::new(failing),
        }
    }
}

impl Source for MemSource {
    ghost use Rattle.sb_outside.specs.Memory.{IsListed, IsNext, source_left, source_calls};

    ghost left = { λ s. Some (source_left s) };

    ghost count = { λ s. (source_calls s).count };

    /// Fails at the listed calls alone.
    fn read(&mut self, into: &mut [u8]) -> Result<usize, ReadFault>
        ensures within { IfOk result (λ n. n ≤ length into.old) }
        ensures bytes { IfOk result (λ n. Consumes (Some (source_left self.old)) (Some (source_left self.new)) n into.new) }
        ensures ends { IfOk result (λ n. Ends (Some (source_left self.old)) n (length into.old)) }
        ensures stays { OnErr result (source_left self.new ≡ source_left self.old) }
        ensures cause { HasCause (source_calls self.old).count (source_calls self.new).count result }

        ensures calls { IsNext (source_calls self.old) (source_calls self.new) }
        ensures alone { IsErr result ↔ IsListed (source_calls self.old) }
    {
        if self.faults.fails() {
            return Err(ReadFault);
        }
        self.inner.read(into)
    }
}

/// A sink in memory, which keeps all that it is given, and fails at the calls of a list, which are
/// numbered from 0. Where its memory can't grow, that is a counted fault too.
#[derive(Drop)]
pub struct MemSink {
    given: Vec<u8>,
    faults: CallFaults,
}

impl MemSink {
    ghost use Rattle.sb_outside.specs.Memory.{sink_calls, sink_room};

    /// An empty sink with room for so many bytes: within it, it fails at these calls alone.
    pub fn new(alloc: Global, room: usize, failing: Vec<u64>) -> Result<Self, AllocError>
        ensures given { IfOk result (λ s. ⟦<MemSink as Sink>⟧.given s ≡ Some []) }
        ensures count { IfOk result (λ s. ⟦<MemSink as Sink>⟧.count s ≡ 0) }
        ensures calls { IfOk result (λ s. sink_calls s ≡ record { failing = failing; next = 0; count = 0 }) }
        ensures room { IfOk result (λ s. room ≤ sink_room s) }
    {
        Ok(MemSink {
            given: Vec::with_capacity(alloc, room)?,
            faults: CallFaults::new(failing),
        })
    }

    /// What it was given, from the start on.
    pub fn bytes(&self) -> &[u8]
        ensures { ⟦<MemSink as Sink>⟧.given self.now ≡ Some result.now }
    {
        self.given.as_slice()
    }
}

impl Sink for MemSink {
    ghost use Rattle.sb_outside.specs.Memory.{IsListed, IsNext, sink_given, sink_calls, sink_room};

    ghost given = { λ s. Some (sink_given s) };

    ghost count = { λ s. (sink_calls s).count };

    /// Takes all of these, or none. Within its room it fails at the listed calls alone.
    fn write(&mut self, bytes: &[u8]) -> Result<usize, WriteFault>
        ensures within { IfOk result (λ n. n ≡ length bytes.now) }
        ensures some { IfOk result (λ n. 1 ≤ length bytes.now → 1 ≤ n) }
        ensures bytes { OnOk result (sink_given self.new ≡ sink_given self.old ++ bytes.now) }
        ensures stays { OnErr result (sink_given self.new ≡ sink_given self.old) }
        ensures cause { HasCause (sink_calls self.old).count (sink_calls self.new).count result }

        ensures calls { IsNext (sink_calls self.old) (sink_calls self.new) }
        ensures room { sink_room self.old ≤ sink_room self.new + length bytes.now }
        ensures listed { IsListed (sink_calls self.old) → IsErr result }
        ensures alone { OnErr result (IsListed (sink_calls self.old) ⊎ (sink_room self.old < length bytes.now)) }
    {
        if self.faults.fails() {
            return Err(WriteFault);
        }
        let Ok(()) = self.given.extend_from_slice(bytes) else {
            self.faults.rise();
            return Err(WriteFault);
        };
        Ok(bytes.len())
    }
}
