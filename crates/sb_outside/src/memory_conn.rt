// A connection in memory.
ghost use Rattle.std.specs.Prelude.{◌≡◌, ◌≤◌, ℕ, List, Option, Some, length, take};

use crate::pace::Pace;
use crate::{Conn, MemSink, MemSource, ReadFault, Sink, Source, WriteFault};

/// A connection in memory: what the other side sends is a source, and what it is given is a sink.
#[derive(Drop)]
pub struct MemConn {
    source: MemSource,
    sink: MemSink,
    pace: Pace,
}

// The first byte, or all of them.
fn front_of(bytes: &[u8], one: bool) -> &[u8]
    ensures front { result.now ≡ take (length result.now) bytes.now }
    ensures within { length result.now ≤ length bytes.now }
    ensures some { 1 ≤ length bytes.now → 1 ≤ length result.now }
{
    if one && !bytes.is_empty() {
        return &bytes[..1];
    }
    bytes
}

impl MemConn {
    /// A connection of these two.
    pub fn new(source: MemSource, sink: MemSink) -> Self
        ensures left { ⟦<MemConn as Conn>⟧.left result ≡ ⟦<MemSource as Source>⟧.left source }
        ensures given { ⟦<MemConn as Conn>⟧.given result ≡ ⟦<MemSink as Sink>⟧.given sink }
        ensures reads { ⟦<MemConn as Conn>⟧.reads result ≡ ⟦<MemSource as Source>⟧.count source }
        ensures writes { ⟦<MemConn as Conn>⟧.writes result ≡ ⟦<MemSink as Sink>⟧.count sink }
    {
        MemConn {
            source,
            sink,
            pace: Pace::even(),
        }
    }

    /// The same, but each call is answered "nothing yet" every other time, and a write takes one byte.
    pub fn hesitant(source: MemSource, sink: MemSink) -> Self
        ensures left { ⟦<MemConn as Conn>⟧.left result ≡ ⟦<MemSource as Source>⟧.left source }
        ensures given { ⟦<MemConn as Conn>⟧.given result ≡ ⟦<MemSink as Sink>⟧.given sink }
        ensures reads { ⟦<MemConn as Conn>⟧.reads result ≡ ⟦<MemSource as Source>⟧.count source }
        ensures writes { ⟦<MemConn as Conn>⟧.writes result ≡ ⟦<MemSink as Sink>⟧.count sink }
    {
        MemConn {
            source,
            sink,
            pace: Pace::hesitant(),
        }
    }

    /// What it was given, from the start on.
    pub fn bytes(&self) -> &[u8]
        ensures { ⟦<MemConn as Conn>⟧.given self.now ≡ Some result.now }
    {
        self.sink.bytes()
    }
}

impl Conn for MemConn {
    ghost left = { λ c. ⟦<MemSource as Source>⟧.left c.source };

    ghost given = { λ c. ⟦<MemSink as Sink>⟧.given c.sink };

    ghost reads = { λ c. ⟦<MemSource as Source>⟧.count c.source };

    ghost writes = { λ c. ⟦<MemSink as Sink>⟧.count c.sink };

    fn read(&mut self, into: &mut [u8]) -> Result<Option<usize>, ReadFault> {
        if self.pace.holds() {
            return Ok(None);
        }
        let count = self.source.read(into)?;
        Ok(Some(count))
    }

    fn write(&mut self, bytes: &[u8]) -> Result<Option<usize>, WriteFault> {
        if self.pace.holds() {
            return Ok(None);
        }
        let count = self.sink.write(front_of(bytes, self.pace.is_hesitant()))?;
        Ok(Some(count))
    }

    fn asked(&mut self, _method: &[u8], _path: &[u8]) {}

    fn answered(&mut self, _response: &[u8]) {}
}
