// Connections: bytes come from the other side, and bytes go there.
ghost use Rattle.std.specs.Prelude.{◌≡◌, ℕ, List, [], Option, Some, length, IfOk, OnErr};
ghost use Rattle.sb_outside.specs.Causes.{HasCause};
ghost use Rattle.sb_outside.specs.Streams.{ReadsSome, WritesSome, Stays};

use crate::{ReadFault, WriteFault};

/// Both directions of one connection, each in pieces of any length: a source and a sink, whose calls
/// leave the other side alone. Neither waits: `None` says that nothing can be read, or written, yet.
pub trait Conn {
    /// The bytes that are left to be read, where the connection tells.
    ghost left: { Self → Option (List ℕ) };

    /// The bytes that it was given, from the start on, where it tells.
    ghost given: { Self → Option (List ℕ) };

    /// How many reads have failed; it stands still at 2^64 - 1.
    ghost reads: { Self → ℕ };

    /// How many writes have failed; it stands still at 2^64 - 1.
    ghost writes: { Self → ℕ };

    /// Reads at most as much as fits, or nothing yet. No byte into a piece with room means that the
    /// other side has ended.
    fn read(&mut self, into: &mut [u8]) -> Result<Option<usize>, ReadFault>
        ensures bytes { IfOk result (ReadsSome (left self.old) (left self.new) (length into.old) into.new) }
        ensures stays { OnErr result (Stays (left self.old) (left self.new)) }
        ensures cause { HasCause (reads self.old) (reads self.new) result }
        ensures given { given self.new ≡ given self.old }
        ensures writes { writes self.new ≡ writes self.old };

    /// Takes a front of these, at least one byte where there is one, or nothing yet.
    fn write(&mut self, bytes: &[u8]) -> Result<Option<usize>, WriteFault>
        ensures bytes { IfOk result (WritesSome (given self.old) (given self.new) bytes.now) }
        ensures stays { OnErr result (Stays (given self.old) (given self.new)) }
        ensures cause { HasCause (writes self.old) (writes self.new) result }
        ensures left { left self.new ≡ left self.old }
        ensures reads { reads self.new ≡ reads self.old };

    /// Hears that a request of this method and path is about to be answered, for a log.
    fn asked(&mut self, method: &[u8], path: &[u8])
        ensures left { left self.new ≡ left self.old }
        ensures given { given self.new ≡ given self.old }
        ensures reads { reads self.new ≡ reads self.old }
        ensures writes { writes self.new ≡ writes self.old };

    /// Hears that these bytes are the response to the last request, before the first of them is written,
    /// for a log.
    fn answered(&mut self, response: &[u8])
        ensures left { left self.new ≡ left self.old }
        ensures given { given self.new ≡ given self.old }
        ensures reads { reads self.new ≡ reads self.old }
        ensures writes { writes self.new ≡ writes self.old };
}

/// A connection to nobody: there is nothing to read, and each write of a piece that isn't empty is a
/// fault.
#[derive(Clone, Copy, Default)]
pub struct NoConn {
    faults: u64,
}

impl NoConn {
    /// A connection that has failed no write yet.
    pub fn new() -> Self
        ensures { ⟦<NoConn as Conn>⟧.writes result ≡ 0 }
    {
        NoConn { faults: 0 }
    }
}

impl Conn for NoConn {
    ghost left = { λ _. Some [] };

    ghost given = { λ _. Some [] };

    ghost reads = { λ _. 0 };

    ghost writes = { λ c. c.faults };

    fn read(&mut self, _into: &mut [u8]) -> Result<Option<usize>, ReadFault> {
        Ok(Some(0))
    }

    fn write(&mut self, bytes: &[u8]) -> Result<Option<usize>, WriteFault> {
        if bytes.is_empty() {
            return Ok(Some(0));
        }
        self.faults = self.faults.saturating_add(1);
        Err(WriteFault)
    }

    fn asked(&mut self, _method: &[u8], _path: &[u8]) {}

    fn answered(&mut self, _response: &[u8]) {}
}
