// The disk beside the one whose file counts.
ghost use Rattle.std.specs.Prelude.{◌≡◌, IsTrue, OnOk};
ghost use Rattle.sb_outside.specs.Causes.{HasCause};
ghost use Rattle.sb_outside.specs.Held.{at_rest};
ghost use Rattle.sb_journal.specs.Choosing.{is_unshut};
ghost use Rattle.sb_journal.specs.Crashes.{IsAside, MayShut};
ghost use Rattle.sb_journal.specs.Moments.{EachMoment};

use sb_outside::{Disk, DiskFault};

// Shuts what stands on a disk beside the file that counts, unless it is shut.
pub(crate) fn shut_aside<D: Disk>(disk: &mut D, unshut: bool) -> Result<(), DiskFault>
    ensures honesty { D.honest disk.new ≡ D.honest disk.old }
    ensures ok { IsTrue (D.honest disk.old) → D.held disk.old ≡ at_rest (D.held disk.old).seen → unshut ≡ is_unshut (D.held disk.old).seen → OnOk result (IsAside (D.held disk.new)) }

    // Its first byte alone may be another.
    ensures any_moment { IsTrue (D.honest disk.old) → D.held disk.old ≡ at_rest (D.held disk.old).seen → unshut ≡ is_unshut (D.held disk.old).seen
        → EachMoment (D.past disk.old) (D.past disk.new) (D.held disk.new) (MayShut (D.held disk.old).seen) }
    ensures cause { HasCause (D.count disk.old) (D.count disk.new) result }
{
    if !unshut {
        return Ok(());
    }
    disk.write_at(0, &[0])?;
    disk.sync()?;
    Ok(())
}
