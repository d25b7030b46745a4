// A disk: what a read returns, what a crash may leave now and what it might have left at each moment before.
ghost use Rattle.std.specs.Prelude.{◌≡◌, ◌⊎◌, ◌≤◌, ◌+◌, ◌^◌, List, ℕ, Bool, IsTrue, length, take, drop, IfOk, OnOk, OnErr};
ghost use Rattle.sb_outside.specs.Causes.{HasCause};
ghost use Rattle.sb_outside.specs.Held.{Held, IsImage, Moves, MayMove, touched, shortened, at_rest, overwritten};

/// A disk call failed.
#[derive(Clone, Copy, PartialEq, Eq)]
pub struct DiskFault;

/// The most bytes that a disk holds.
pub const LONGEST_DISK: u64 = 1 << 62;

/// One file of bytes that survives a crash. Places and lengths are in bytes.
///
/// Between two syncs a crash may leave any bytes in each written range and past the last synced
/// end, and any length between the least and the greatest since. What is said of content holds of
/// an honest disk; safety and the causes of faults hold of each.
pub trait Disk {
    /// Whether what is said of the content holds.
    ghost honest: { Self → Bool };

    /// What it holds now.
    ghost held: { Self → Held };

    /// What it held at each moment before, the oldest first: its clock is the length of this list.
    ghost past: { Self → List Held };

    /// How many calls have failed; it stands still at 2^64 - 1.
    ghost count: { Self → ℕ };

    /// How many calls have failed.
    fn faults(&self) -> u64
        ensures { result ≡ count self.now };

    /// How many bytes there are, at most 2^62.
    fn length(&mut self) -> Result<u64, DiskFault>
        ensures honesty { honest self.new ≡ honest self.old }
        ensures small { IfOk result (λ n. n ≤ 2 ^ 62) }
        ensures length { IsTrue (honest self.old) → IfOk result (λ n. n ≡ length (held self.old).seen) }
        ensures same { IsTrue (honest self.old) → (held self.new ≡ held self.old) × (past self.new ≡ past self.old) }
        ensures cause { HasCause (count self.old) (count self.new) result };

    /// Reads from a place on, one byte at least where there is one and room for it.
    fn read(&mut self, place: u64, into: &mut [u8]) -> Result<usize, DiskFault>
        ensures honesty { honest self.new ≡ honest self.old }
        ensures within { IfOk result (λ n. n ≤ length into.old) }
        ensures bytes { IsTrue (honest self.old) → IfOk result (λ n. take n into.new ≡ take n (drop place (held self.old).seen)) }
        ensures some { IsTrue (honest self.old) → IfOk result (λ n. n ≡ 0 → (length into.old ≡ 0) ⊎ (length (held self.old).seen ≤ place)) }
        ensures none { IsTrue (honest self.old) → IfOk result (λ n. (place + n ≤ length (held self.old).seen) ⊎ (n ≡ 0)) }
        ensures same { IsTrue (honest self.old) → (held self.new ≡ held self.old) × (past self.new ≡ past self.old) }
        ensures cause { HasCause (count self.old) (count self.new) result };

    /// Writes over what is there, and past the end. Until a sync, a crash may leave any bytes in the range.
    /// A write whose end would pass 2^62 is a fault.
    fn write_at(&mut self, place: u64, bytes: &[u8]) -> Result<(), DiskFault>
        requires { IsTrue (honest self.old) → place ≤ length (held self.old).seen }
        ensures honesty { honest self.new ≡ honest self.old }
        ensures small { OnOk result (place + length bytes.now ≤ 2 ^ 62) }
        ensures ok { IsTrue (honest self.old) → OnOk result (Moves (past self.old) (held self.old) (past self.new) (held self.new)
            (touched (held self.old) place (length bytes.now) (overwritten (held self.old).seen place bytes.now))) }
        ensures err { IsTrue (honest self.old) → OnErr result (MayMove (past self.old) (held self.old) (past self.new) (held self.new)
            (touched (held self.old) place (length bytes.now))) }
        ensures cause { HasCause (count self.old) (count self.new) result };

    /// Cuts what stands behind this length off. Until a sync, a crash may leave some of it.
    fn cut(&mut self, end: u64) -> Result<(), DiskFault>
        requires { IsTrue (honest self.old) → end ≤ length (held self.old).seen }
        ensures honesty { honest self.new ≡ honest self.old }
        ensures ok { IsTrue (honest self.old) → OnOk result (Moves (past self.old) (held self.old) (past self.new) (held self.new)
            (shortened (held self.old) end (take end (held self.old).seen))) }
        ensures err { IsTrue (honest self.old) → OnErr result (MayMove (past self.old) (held self.old) (past self.new) (held self.new)
            (shortened (held self.old) end)) }
        ensures cause { HasCause (count self.old) (count self.new) result };

    /// Makes sure of all that was done: from its Ok on a crash leaves what is read.
    fn sync(&mut self) -> Result<(), DiskFault>
        ensures honesty { honest self.new ≡ honest self.old }
        ensures ok { IsTrue (honest self.old) → OnOk result (Moves (past self.old) (held self.old) (past self.new) (held self.new)
            (at_rest (held self.old).seen)) }
        ensures err { IsTrue (honest self.old) → OnErr result ((past self.new ≡ past self.old) × (held self.new ≡ held self.old)) }
        ensures cause { HasCause (count self.old) (count self.new) result };

    /// What is read is one of the images.
    ghost seen_is_image: { (disk : Self) → IsTrue (honest disk) → IsImage (held disk) (held disk).seen };
}
