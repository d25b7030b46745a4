// What an opening would find, with nothing done to the disks.
ghost use Rattle.std.specs.Prelude.{◌≡◌, ◌≢◌, ◌≤◌, ◌^◌, ℕ, IfOk, IfErr, OnOk};
ghost use Rattle.sb_journal.specs.Text.{IsWithin, first_gate, gate_after};
ghost use Rattle.sb_journal.specs.Opened.{Stands, Damage, found_file, IsJudged, IsDamagedFor};
ghost use Rattle.sb_journal.specs.Disks.{disks_of, opened_on, AreHonest, AreStill, AreQuiet, HaveFailed, NoneFell, SameHonesty};
ghost use Rattle.sb_journal.specs.declared.found.Side.{Side};

use crate::opening::look_at;
use crate::picking::pick;
use crate::unopened::found_in;
use crate::{Found, Judge, Judged, OpenWhy, Side};
use sb_outside::Disk;
use std::alloc::Global;

/// What an opening of these disks would find, with the base and then all payloads of the file that counts
/// judged one after another: one piece of the file is in memory, and else what the judge keeps. Where there is none,
/// that is the new file of this salt that an opening makes on disk a. `Damaged` where an opening says so, with
/// that judge; `DiskFault` only where a call of a disk failed. The disks are read alone: nothing is
/// written and nothing made, and what isn't safe yet stays so.
pub fn look_by<D: Disk, J: Judge>(
    alloc: Global,
    disk_a: &mut D,
    disk_b: &mut D,
    salt: u64,
) -> Result<Judged<J>, OpenWhy>
    ensures ok { IfOk result (λ j. IsJudged J.Judge (AreHonest (disks_of D.Disk disk_a.old disk_b.old)) (opened_on (disks_of D.Disk disk_a.old disk_b.old) salt) j) }
    ensures damaged { IfErr result (λ e. AreHonest (disks_of D.Disk disk_a.old disk_b.old) → (side : Side) (place : ℕ) → e ≡ OpenWhy.Damaged side place
        → IsDamagedFor J.Judge (opened_on (disks_of D.Disk disk_a.old disk_b.old) salt) side place) }
    ensures still { AreHonest (disks_of D.Disk disk_a.old disk_b.old) → AreStill (disks_of D.Disk disk_a.old disk_b.old) (disks_of D.Disk disk_a.new disk_b.new) }
    ensures cause { IfErr result (λ e. e ≡ OpenWhy.DiskFault → HaveFailed (disks_of D.Disk disk_a.old disk_b.old) (disks_of D.Disk disk_a.new disk_b.new)) }
    ensures quiet { OnOk result (AreQuiet (disks_of D.Disk disk_a.old disk_b.old) (disks_of D.Disk disk_a.new disk_b.new)) }
    ensures memory { IfErr result (λ e. e ≢ OpenWhy.DiskFault → AreQuiet (disks_of D.Disk disk_a.old disk_b.old) (disks_of D.Disk disk_a.new disk_b.new)) }
    ensures later { NoneFell (disks_of D.Disk disk_a.old disk_b.old) (disks_of D.Disk disk_a.new disk_b.new) }
    ensures honesty { SameHonesty (disks_of D.Disk disk_a.old disk_b.old) (disks_of D.Disk disk_a.new disk_b.new) }
{
    let picked = match pick(alloc, disk_a, disk_b) {
        Ok(picked) => picked,
        Err(why) => return Err(why),
    };
    match picked.side {
        Side::A => match look_at(alloc, disk_a, Side::A, salt) {
            Ok(looked) => Ok(looked.judged),
            Err(why) => Err(why),
        },
        Side::B => match look_at(alloc, disk_b, Side::B, salt) {
            Ok(looked) => Ok(looked.judged),
            Err(why) => Err(why),
        },
    }
}

/// What an opening of these disks would find: the file that counts, its base and the payloads in it, all
/// in memory; where there is none, the new file of this salt that an opening makes. `Damaged` where an opening says so,
/// `DiskFault` only where a call of a disk failed. The disks are read alone: nothing is written and
/// nothing made, and what isn't safe yet stays so.
pub fn look<D: Disk>(
    alloc: Global,
    disk_a: &mut D,
    disk_b: &mut D,
    salt: u64,
) -> Result<Found, OpenWhy>
    ensures ok { IfOk result (λ f. AreHonest (disks_of D.Disk disk_a.old disk_b.old) → opened_on (disks_of D.Disk disk_a.old disk_b.old) salt ≡ Stands f.disk (found_file f)) }
    ensures within { IfOk result (λ f. AreHonest (disks_of D.Disk disk_a.old disk_b.old) → IsWithin (found_file f)) }

    // The gates of all records lie within the longest file.
    ensures gates { IfOk result (λ f. gate_after (first_gate (found_file f)) (found_file f).payloads ≤ 2 ^ 62) }
    ensures damaged { IfErr result (λ e. AreHonest (disks_of D.Disk disk_a.old disk_b.old) → (side : Side) (place : ℕ) → e ≡ OpenWhy.Damaged side place
        → opened_on (disks_of D.Disk disk_a.old disk_b.old) salt ≡ Damage side place) }
    ensures still { AreHonest (disks_of D.Disk disk_a.old disk_b.old) → AreStill (disks_of D.Disk disk_a.old disk_b.old) (disks_of D.Disk disk_a.new disk_b.new) }
    ensures cause { IfErr result (λ e. e ≡ OpenWhy.DiskFault → HaveFailed (disks_of D.Disk disk_a.old disk_b.old) (disks_of D.Disk disk_a.new disk_b.new)) }
    ensures quiet { OnOk result (AreQuiet (disks_of D.Disk disk_a.old disk_b.old) (disks_of D.Disk disk_a.new disk_b.new)) }
    ensures memory { IfErr result (λ e. e ≢ OpenWhy.DiskFault → AreQuiet (disks_of D.Disk disk_a.old disk_b.old) (disks_of D.Disk disk_a.new disk_b.new)) }
    ensures later { NoneFell (disks_of D.Disk disk_a.old disk_b.old) (disks_of D.Disk disk_a.new disk_b.new) }
    ensures honesty { SameHonesty (disks_of D.Disk disk_a.old disk_b.old) (disks_of D.Disk disk_a.new disk_b.new) }
{
    match look_by(alloc, disk_a, disk_b, salt) {
        Ok(judged) => Ok(found_in(judged)),
        Err(why) => Err(why),
    }
}
