// A look at the namespace of two disks.
ghost use Rattle.std.specs.Prelude.{◌≡◌, ◌≢◌};
ghost use Rattle.sb_app.specs.Looks.{IsLooked};
ghost use Rattle.sb_app.specs.Outside.{outside_of};

use crate::checking::tell_numbers;
use crate::opening::failed_status;
use sb_node::look;
use sb_outside::{Disk, Sink, Source};
use std::alloc::Global;

/// Tells what a check of these disks would, from what is read of them, and does nothing to them; of disks
/// without a journal, the numbers of the empty namespace. The status is 0, 4 for a fault of the output,
/// 5 for a disk that failed, 6 for a journal that can't be trusted, with the line that says where, or 7
/// for want of memory; nothing is read of the input. The disks come back.
pub fn look_over<D: Disk, S: Source, K: Sink>(
    alloc: Global,
    disk_a: D,
    disk_b: D,
    salt: u64,
    input: &S,
    output: &mut K,
) -> (u8, D, D)
    ensures done { IsLooked salt (outside_of D.Disk S.Source K.Sink disk_a disk_b input.now output.old) (outside_of D.Disk S.Source K.Sink result.1 result.2 input.now output.new) result.0 }
    ensures usage { result.0 ≢ 2 }
{
    let mut disk_a = disk_a;
    let mut disk_b = disk_b;
    let numbers = match look(alloc, &mut disk_a, &mut disk_b, salt) {
        Ok(numbers) => numbers,
        Err(why) => {
            let status = failed_status(alloc, output, why);
            return (status, disk_a, disk_b);
        }
    };
    let status = tell_numbers(alloc, numbers, output);
    (status, disk_a, disk_b)
}
