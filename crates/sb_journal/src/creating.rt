// Making a new file: what stands on the disk counts no more, then all of the new file behind a
// closed gate, and once that is safe, the gate.
ghost use Rattle.std.specs.Prelude.{◌≡◌, ◌≢◌, ◌≤◌, ◌+◌, ◌++◌, [], ◌∷◌, ◌^◌, List, ℕ, IsTrue, length, max, take, slice_index, true, false, IfOk, OnOk};
ghost use Rattle.sb_outside.specs.Causes.{HasCause};
ghost use Rattle.sb_outside.specs.Held.{at_rest};
ghost use Rattle.sb_journal.specs.Text.{head, new_file, new_bytes};
ghost use Rattle.sb_journal.specs.Framing.{Whole, framing, new_length};
ghost use Rattle.sb_journal.specs.Crashes.{IsShut, IsOldNoneOrNew};
ghost use Rattle.sb_journal.specs.Moments.{EachMoment, FromSync};

use crate::reading::VERSION;
use sb_outside::{Disk, DiskFault};

// The bytes from behind the file's gate to the base, and a closed gate.
pub(crate) fn head_bytes(salt: u64, generation: u64, first: u64, base_length: u64) -> [u8; 42]
    ensures { result ≡ head salt generation first base_length ++ 0 ∷ [] }
{
    let s = salt.to_be_bytes();
    let g = generation.to_be_bytes();
    let f = first.to_be_bytes();
    let b = base_length.to_be_bytes();
    [
        b'S', b'B', b'N', b'S', b'J', b'R', b'N', b'L', VERSION, s[0], s[1], s[2], s[3], s[4],
        s[5], s[6], s[7], g[0], g[1], g[2], g[3], g[4], g[5], g[6], g[7], f[0], f[1], f[2], f[3],
        f[4], f[5], f[6], f[7], b[0], b[1], b[2], b[3], b[4], b[5], b[6], b[7], 0,
    ]
}

// Whether the disk has a first byte and it is 00.
fn has_closed_gate<D: Disk>(disk: &mut D) -> Result<bool, DiskFault>
    ensures honesty { D.honest disk.new ≡ D.honest disk.old }
    ensures closed { IsTrue (D.honest disk.old) → IfOk result (λ b. b ≡ true → take 1 (D.held disk.old).seen ≡ 0 ∷ []) }
    ensures not { IsTrue (D.honest disk.old) → IfOk result (λ b. b ≡ false → 1 ≤ length (D.held disk.old).seen → slice_index (D.held disk.old).seen 0 ≢ 0) }
    ensures same { IsTrue (D.honest disk.old) → (D.held disk.new ≡ D.held disk.old) × (D.past disk.new ≡ D.past disk.old) }
    ensures cause { HasCause (D.count disk.old) (D.count disk.new) result }
{
    let mut byte = [1];
    let count = disk.read(0, &mut byte)?;
    Ok(count == 1 && byte[0] == 0)
}

// Makes sure that the file's gate is closed, unless it is.
pub(crate) fn close_file<D: Disk>(disk: &mut D) -> Result<(), DiskFault>
    ensures honesty { D.honest disk.new ≡ D.honest disk.old }
    ensures ok { IsTrue (D.honest disk.old) → OnOk result (take 1 (D.held disk.new).seen ≡ 0 ∷ []) }
    ensures rest { IsTrue (D.honest disk.old) → D.held disk.old ≡ at_rest (D.held disk.old).seen → OnOk result (D.held disk.new ≡ at_rest (D.held disk.new).seen) }
    ensures short { IsTrue (D.honest disk.old) → OnOk result (length (D.held disk.new).seen ≤ max (length (D.held disk.old).seen) 1) }

    // Where the gate was open or closed, or the bytes were too few for a file, nothing else counts at any moment.
    ensures any_moment { (new : List ℕ) → IsTrue (D.honest disk.old) → D.held disk.old ≡ at_rest (D.held disk.old).seen
        → (new_length ≤ length (D.held disk.old).seen → slice_index (D.held disk.old).seen 0 ≤ 1) → 1 ≤ length new
        → EachMoment (D.past disk.old) (D.past disk.new) (D.held disk.new) (IsOldNoneOrNew (D.held disk.old).seen new) }
    ensures cause { HasCause (D.count disk.old) (D.count disk.new) result }
{
    if has_closed_gate(disk)? {
        return Ok(());
    }
    disk.write_at(0, &[0])?;
    disk.sync()?;
    Ok(())
}

// Writes what stands behind the file's gate, and a closed gate.
fn fill<D: Disk>(disk: &mut D, head: &[u8], base: &[u8]) -> Result<(), DiskFault>
    requires gate { IsTrue (D.honest disk.old) → (D.held disk.old).seen ≡ 0 ∷ [] }
    requires head { length head.now ≡ 42 }
    ensures honesty { D.honest disk.new ≡ D.honest disk.old }
    ensures any_moment { (old new : List ℕ) → IsTrue (D.honest disk.old) → IsShut (max (length old) (length new)) (D.held disk.old) → 43 + length base.now ≤ length new
        → EachMoment (D.past disk.old) (D.past disk.new) (D.held disk.new) (IsOldNoneOrNew old new) }
    ensures ok { (bytes : List ℕ) → IsTrue (D.honest disk.old) → head.now ≡ bytes ++ 0 ∷ [] → OnOk result ((D.held disk.new).seen ≡ 0 ∷ (bytes ++ (base.now ++ 0 ∷ []))) }
    ensures cause { HasCause (D.count disk.old) (D.count disk.new) result }
{
    disk.write_at(1, head)?;
    if base.len() > 0 {
        disk.write_at(42, base)?;
        disk.write_at(42 + base.len() as u64, &[0])?;
    }
    Ok(())
}

// Makes a new file on a disk where all is safe.
fn make_file<D: Disk>(
    disk: &mut D,
    salt: u64,
    generation: u64,
    first: u64,
    base: &[u8],
) -> Result<(), DiskFault>
    ensures honesty { D.honest disk.new ≡ D.honest disk.old }
    ensures ok { IsTrue (D.honest disk.old) → OnOk result (D.held disk.new ≡ at_rest (new_bytes salt generation first base.now)) }

    // Where the file's gate was open or closed, or the bytes were too few for a file, nothing but the old bytes and the
    // whole new file counts at any moment.
    ensures any_moment { IsTrue (D.honest disk.old) → D.held disk.old ≡ at_rest (D.held disk.old).seen
        → (new_length ≤ length (D.held disk.old).seen → slice_index (D.held disk.old).seen 0 ≤ 1)
        → EachMoment (D.past disk.old) (D.past disk.new) (D.held disk.new) (IsOldNoneOrNew (D.held disk.old).seen (new_bytes salt generation first base.now)) }
    ensures cause { HasCause (D.count disk.old) (D.count disk.new) result }
{
    let head = head_bytes(salt, generation, first, base.len() as u64);
    close_file(disk)?;
    disk.cut(1)?;
    fill(disk, &head, base)?;
    disk.sync()?;
    disk.write_at(0, &[1])?;
    disk.sync()?;
    Ok(())
}

/// Makes a new file with no payloads on the disk, in the place of what is there: at each moment
/// before the last its gate is closed. `Err` only where a call of the disk failed.
pub fn create<D: Disk>(
    disk: &mut D,
    salt: u64,
    generation: u64,
    first: u64,
    base: &[u8],
) -> Result<(), DiskFault>
    requires generation_least { 1 ≤ generation }
    requires generation_greatest { generation ≤ 2 ^ 62 }
    requires first_least { 1 ≤ first }
    requires first_greatest { first ≤ 2 ^ 62 }
    ensures honesty { D.honest disk.new ≡ D.honest disk.old }
    ensures ok { IsTrue (D.honest disk.old) → OnOk result (D.held disk.new ≡ at_rest (new_bytes salt generation first base.now)) }
    ensures reads { IsTrue (D.honest disk.old) → OnOk result (framing (D.held disk.new).seen ≡ Whole (new_file salt generation first base.now)) }

    // From the first sync on a crash leaves the old bytes, no file, or the whole new one, where the file's gate was open or closed or
    // the bytes were too few for a file.
    ensures any_moment { IsTrue (D.honest disk.old) → (new_length ≤ length (D.held disk.old).seen → slice_index (D.held disk.old).seen 0 ≤ 1)
        → FromSync (D.past disk.old) (D.held disk.old) (D.past disk.new) (D.held disk.new) (IsOldNoneOrNew (D.held disk.old).seen (new_bytes salt generation first base.now)) }
    ensures cause { HasCause (D.count disk.old) (D.count disk.new) result }
{
    disk.sync()?;
    make_file(disk, salt, generation, first, base)?;
    Ok(())
}
