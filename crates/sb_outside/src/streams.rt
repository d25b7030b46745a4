// Where bytes come from and where they go, in pieces.
ghost use Rattle.std.specs.Prelude.{◌≡◌, ◌≤◌, ℕ, List, Option, length, take, IfOk, OnOk, OnErr};
ghost use Rattle.sb_outside.specs.Causes.{HasCause};
ghost use Rattle.sb_outside.specs.Streams.{Consumes, Ends, Stays, Gains, GainsPart};

/// A read failed.
#[derive(Clone, Copy, PartialEq, Eq)]
pub struct ReadFault;

/// A write failed, or nothing was taken of a piece that isn't empty.
#[derive(Clone, Copy, PartialEq, Eq)]
pub struct WriteFault;

/// Where bytes come from. It gives them in pieces of any length.
pub trait Source {
    /// The bytes that are left, where the source tells.
    ghost left: { Self → Option (List ℕ) };

    /// How many reads have failed; it stands still at 2^64 - 1.
    ghost count: { Self → ℕ };

    /// Reads at most as much as fits. Nothing into a piece with room means that the source has ended.
    fn read(&mut self, into: &mut [u8]) -> Result<usize, ReadFault>
        ensures within { IfOk result (λ n. n ≤ length into.old) }
        ensures bytes { IfOk result (λ n. Consumes (left self.old) (left self.new) n into.new) }
        ensures ends { IfOk result (λ n. Ends (left self.old) n (length into.old)) }
        ensures stays { OnErr result (Stays (left self.old) (left self.new)) }
        ensures cause { HasCause (count self.old) (count self.new) result };
}

/// Where bytes go. It takes them in pieces of any length.
pub trait Sink {
    /// The bytes that it was given, from the start on, where the sink tells.
    ghost given: { Self → Option (List ℕ) };

    /// How many writes have failed; it stands still at 2^64 - 1.
    ghost count: { Self → ℕ };

    /// Takes a front of these, at least one byte where there is one.
    fn write(&mut self, bytes: &[u8]) -> Result<usize, WriteFault>
        ensures within { IfOk result (λ n. n ≤ length bytes.now) }
        ensures some { IfOk result (λ n. 1 ≤ length bytes.now → 1 ≤ n) }
        ensures bytes { IfOk result (λ n. Gains (given self.old) (given self.new) (take n bytes.now)) }
        ensures stays { OnErr result (Stays (given self.old) (given self.new)) }
        ensures cause { HasCause (count self.old) (count self.new) result };
}

/// Writes all of these, or a front of them where a write fails.
pub fn write_all<K: Sink>(sink: &mut K, bytes: &[u8]) -> Result<(), WriteFault>
    ensures ok { OnOk result (Gains (K.given sink.old) (K.given sink.new) bytes.now) }
    ensures err { OnErr result (GainsPart (K.given sink.old) (K.given sink.new) bytes.now) }
    ensures cause { HasCause (K.count sink.old) (K.count sink.new) result }
{
    let mut at = 0;
    while at < bytes.len() {
        at += sink.write(&bytes[at..])?;
    }
    Ok(())
}
