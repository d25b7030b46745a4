// A disk in memory call by call: what is read, and what a crash leaves where all that isn't synced
// becomes one byte.
ghost use Rattle.std.specs.Prelude.{◌≡◌, ◌≤◌, length, replicate, OnOk, IfOk};
ghost use Rattle.sb_outside.specs.Held.{overwritten, at_rest};
ghost use Rattle.sb_outside.specs.Kept.{count_of, after_call, IsPlaced, filled_past};

use crate::memory::{DiskCall, overwrite};
use std::alloc::{AllocError, Global};

// Brings what is read past a call whose bytes come first in these, and says how many they are.
pub(crate) fn read_past(
    call: DiskCall,
    written: &[u8],
    seen: &mut Vec<u8>,
) -> Result<usize, AllocError>
    requires placed { IsPlaced (length seen.old.items) call }
    requires written { count_of call ≤ length written.now }
    ensures seen { OnOk result (seen.new.items ≡ (after_call (at_rest seen.old.items) call written.now).seen) }
    ensures count { IfOk result (λ n. n ≡ count_of call) }
{
    match call {
        DiskCall::Write(place, count) => {
            let count = count as usize;
            overwrite(seen, place as usize, &written[..count])?;
            Ok(count)
        }
        DiskCall::Cut(end) => {
            seen.truncate(end as usize);
            Ok(0)
        }
        DiskCall::FailedWrite(_, _) => Ok(0),
        DiskCall::FailedCut(_) => Ok(0),
        DiskCall::Sync => Ok(0),
    }
}

// Writes one byte so many times.
fn fill_range(
    alloc: Global,
    image: &mut Vec<u8>,
    place: usize,
    count: usize,
    fill: u8,
) -> Result<(), AllocError>
    requires { place ≤ length image.old.items }
    ensures { OnOk result (image.new.items ≡ overwritten image.old.items place (replicate count fill)) }
{
    let filled = vec![in alloc; fill; count]?;
    overwrite(image, place, &filled)
}

// Brings an image past a call before which these bytes are read.
pub(crate) fn fill_past(
    alloc: Global,
    call: DiskCall,
    fill: u8,
    seen: &[u8],
    image: &mut Vec<u8>,
) -> Result<(), AllocError>
    requires { IsPlaced (length image.old.items) call }
    ensures { OnOk result (image.new.items ≡ filled_past fill seen.now call image.old.items) }
{
    match call {
        DiskCall::Write(place, count) => {
            fill_range(alloc, image, place as usize, count as usize, fill)
        }
        DiskCall::FailedWrite(place, count) => {
            fill_range(alloc, image, place as usize, count as usize, fill)
        }
        DiskCall::Cut(_) => Ok(()),
        DiskCall::FailedCut(_) => Ok(()),
        DiskCall::Sync => {
            image.clear();
            image.extend_from_slice(seen)
        }
    }
}
