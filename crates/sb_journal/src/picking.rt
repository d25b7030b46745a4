// Whose file counts of what stands on two disks. Nothing is written.
ghost use Rattle.std.specs.Prelude.{◌≡◌, ◌≢◌, ◌≤◌, ℕ, IsTrue, IfOk, IfErr, OnOk};
ghost use Rattle.sb_outside.specs.Held.{at_rest, Moves};
ghost use Rattle.sb_journal.specs.Choosing.{chosen};
ghost use Rattle.sb_journal.specs.Disks.{disks_of, AreQuiet, HaveFailed};
ghost use Rattle.sb_journal.specs.Moments.{IsUnwritten};
ghost use Rattle.sb_journal.specs.Opened.{IsPicked};
ghost use Rattle.sb_journal.specs.declared.choosing.Choice.TheVariants.{Hurt};
ghost use Rattle.sb_journal.specs.declared.found.Side.{Side};

use crate::OpenWhy;
use crate::choosing::{Picked, picked_of};
use crate::piece::{BytesFault, front_of};
use sb_outside::Disk;
use std::alloc::Global;

// Whose file counts. Nothing is done to the disks.
pub(crate) fn pick<D: Disk>(
    alloc: Global,
    disk_a: &mut D,
    disk_b: &mut D,
) -> Result<Picked, OpenWhy>
    ensures honesty_a { D.honest disk_a.new ≡ D.honest disk_a.old }
    ensures honesty_b { D.honest disk_b.new ≡ D.honest disk_b.old }
    ensures ok { IsTrue (D.honest disk_a.old) → IsTrue (D.honest disk_b.old) → IfOk result (λ p. IsPicked p (D.held disk_a.old).seen (D.held disk_b.old).seen) }
    ensures damaged { IsTrue (D.honest disk_a.old) → IsTrue (D.honest disk_b.old) → IfErr result (λ e. (side : Side) (place : ℕ) → e ≡ OpenWhy.Damaged side place
        → chosen (D.held disk_a.old).seen (D.held disk_b.old).seen ≡ Hurt side place) }
    ensures same_a { IsTrue (D.honest disk_a.old) → (D.held disk_a.new ≡ D.held disk_a.old) × (D.past disk_a.new ≡ D.past disk_a.old) }
    ensures same_b { IsTrue (D.honest disk_b.old) → (D.held disk_b.new ≡ D.held disk_b.old) × (D.past disk_b.new ≡ D.past disk_b.old) }
    ensures later_a { D.count disk_a.old ≤ D.count disk_a.new }
    ensures later_b { D.count disk_b.old ≤ D.count disk_b.new }
    ensures passed { OnOk result (AreQuiet (disks_of D.Disk disk_a.old disk_b.old) (disks_of D.Disk disk_a.new disk_b.new)) }
    ensures cause { IfErr result (λ e. e ≡ OpenWhy.DiskFault → HaveFailed (disks_of D.Disk disk_a.old disk_b.old) (disks_of D.Disk disk_a.new disk_b.new)) }
    ensures memory { IfErr result (λ e. e ≢ OpenWhy.DiskFault → AreQuiet (disks_of D.Disk disk_a.old disk_b.old) (disks_of D.Disk disk_a.new disk_b.new)) }
{
    let front_a = match front_of(alloc, disk_a) {
        Ok(front) => front,
        Err(BytesFault::Disk) => return Err(OpenWhy::DiskFault),
        Err(BytesFault::Memory) => return Err(OpenWhy::OutOfMemory),
    };
    let front_b = match front_of(alloc, disk_b) {
        Ok(front) => front,
        Err(BytesFault::Disk) => return Err(OpenWhy::DiskFault),
        Err(BytesFault::Memory) => return Err(OpenWhy::OutOfMemory),
    };
    picked_of(&front_a, &front_b)
}

// Makes sure of what is on both disks, and whose file counts.
pub(crate) fn pick_synced<D: Disk>(
    alloc: Global,
    disk_a: &mut D,
    disk_b: &mut D,
) -> Result<Picked, OpenWhy>
    ensures honesty_a { D.honest disk_a.new ≡ D.honest disk_a.old }
    ensures honesty_b { D.honest disk_b.new ≡ D.honest disk_b.old }
    ensures ok { IsTrue (D.honest disk_a.old) → IsTrue (D.honest disk_b.old) → IfOk result (λ p. IsPicked p (D.held disk_a.old).seen (D.held disk_b.old).seen) }
    ensures damaged { IsTrue (D.honest disk_a.old) → IsTrue (D.honest disk_b.old) → IfErr result (λ e. (side : Side) (place : ℕ) → e ≡ OpenWhy.Damaged side place
        → (chosen (D.held disk_a.old).seen (D.held disk_b.old).seen ≡ Hurt side place) × (D.held disk_a.new ≡ at_rest (D.held disk_a.old).seen) × (D.held disk_b.new ≡ at_rest (D.held disk_b.old).seen)) }
    ensures synced_a { IsTrue (D.honest disk_a.old) → OnOk result (Moves (D.past disk_a.old) (D.held disk_a.old) (D.past disk_a.new) (D.held disk_a.new) (at_rest (D.held disk_a.old).seen)) }
    ensures synced_b { IsTrue (D.honest disk_b.old) → OnOk result (Moves (D.past disk_b.old) (D.held disk_b.old) (D.past disk_b.new) (D.held disk_b.new) (at_rest (D.held disk_b.old).seen)) }
    ensures untouched_a { IsTrue (D.honest disk_a.old) → IsUnwritten (D.past disk_a.old) (D.held disk_a.old) (D.past disk_a.new) (D.held disk_a.new) }
    ensures untouched_b { IsTrue (D.honest disk_b.old) → IsUnwritten (D.past disk_b.old) (D.held disk_b.old) (D.past disk_b.new) (D.held disk_b.new) }
    ensures later_a { D.count disk_a.old ≤ D.count disk_a.new }
    ensures later_b { D.count disk_b.old ≤ D.count disk_b.new }
    ensures passed { OnOk result (AreQuiet (disks_of D.Disk disk_a.old disk_b.old) (disks_of D.Disk disk_a.new disk_b.new)) }
    ensures cause { IfErr result (λ e. e ≡ OpenWhy.DiskFault → HaveFailed (disks_of D.Disk disk_a.old disk_b.old) (disks_of D.Disk disk_a.new disk_b.new)) }
    ensures memory { IfErr result (λ e. e ≢ OpenWhy.DiskFault → AreQuiet (disks_of D.Disk disk_a.old disk_b.old) (disks_of D.Disk disk_a.new disk_b.new)) }
{
    let Ok(()) = disk_a.sync() else {
        return Err(OpenWhy::DiskFault);
    };
    let Ok(()) = disk_b.sync() else {
        return Err(OpenWhy::DiskFault);
    };
    pick(alloc, disk_a, disk_b)
}
