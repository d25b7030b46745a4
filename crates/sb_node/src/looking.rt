// What an opening would find of a namespace, with nothing done to its disks.
ghost use Rattle.std.specs.Prelude.{◌≡◌, ◌≢◌, ℕ, IfOk, IfErr, OnOk};
ghost use Rattle.sb_journal.specs.Disks.{disks_of, AreHonest, AreStill, AreQuiet, HaveFailed, NoneFell, SameHonesty};
ghost use Rattle.sb_journal.specs.declared.found.Side.{Side};
ghost use Rattle.sb_node.specs.Looks.{IsSeen};
ghost use Rattle.sb_node.specs.Recovery.{recovered_on, damaged};

use crate::recovering::{numbers_of, reached_by};
use sb_engine::Summary;
use sb_journal::{OpenWhy, look_by};
use sb_outside::Disk;
use std::alloc::Global;

/// The numbers of the namespace that an opening of these disks would find; where disk a has no
/// journal, those of the empty one that would be made. `Damaged` where the journal can't be trusted,
/// with the disk and the byte; `DiskFault` only where a call of a disk failed. The disks are read
/// alone: nothing is written and nothing made, and what isn't safe yet stays so.
pub fn look<D: Disk>(
    alloc: Global,
    disk_a: &mut D,
    disk_b: &mut D,
    salt: u64,
) -> Result<Summary, OpenWhy>
    ensures seen { IfOk result (λ s. IsSeen salt (disks_of D.Disk disk_a.old disk_b.old) s) }
    ensures broken { IfErr result (λ e. AreHonest (disks_of D.Disk disk_a.old disk_b.old) → (side : Side) (place : ℕ) → e ≡ OpenWhy.Damaged side place
        → recovered_on (disks_of D.Disk disk_a.old disk_b.old) salt ≡ damaged side place) }
    ensures still { AreHonest (disks_of D.Disk disk_a.old disk_b.old) → AreStill (disks_of D.Disk disk_a.old disk_b.old) (disks_of D.Disk disk_a.new disk_b.new) }
    ensures cause { IfErr result (λ e. e ≡ OpenWhy.DiskFault → HaveFailed (disks_of D.Disk disk_a.old disk_b.old) (disks_of D.Disk disk_a.new disk_b.new)) }
    ensures quiet { OnOk result (AreQuiet (disks_of D.Disk disk_a.old disk_b.old) (disks_of D.Disk disk_a.new disk_b.new)) }
    ensures memory { IfErr result (λ e. e ≢ OpenWhy.DiskFault → AreQuiet (disks_of D.Disk disk_a.old disk_b.old) (disks_of D.Disk disk_a.new disk_b.new)) }
    ensures later { NoneFell (disks_of D.Disk disk_a.old disk_b.old) (disks_of D.Disk disk_a.new disk_b.new) }
    ensures honesty { SameHonesty (disks_of D.Disk disk_a.old disk_b.old) (disks_of D.Disk disk_a.new disk_b.new) }
{
    let judged = match look_by(alloc, disk_a, disk_b, salt) {
        Ok(judged) => judged,
        Err(why) => return Err(why),
    };
    let reached = reached_by(judged);
    let numbers = numbers_of(&reached.engine, reached.last);
    drop(reached);
    Ok(numbers)
}
