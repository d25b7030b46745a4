// Drafts of parts of acts.
ghost use Rattle.std.specs.Result.{IsOk};
ghost use Rattle.sb_machine.specs.Rows.{Row};
ghost use Rattle.sb_engine.specs.Drafts.{DraftsRow};
ghost use Rattle.sb_engine.specs.Plans.{PlansRow};

use crate::Draft;
use sb_machine::Refusal;
use std::alloc::AllocError;

/// A draft, where memory was there.
pub fn planned(draft: Result<Draft, AllocError>) -> Result<Draft, Refusal>
    ensures row { (row : Row) → DraftsRow draft row → PlansRow result row }
    ensures ok { IsOk draft → IsOk result }
{
    match draft {
        Ok(draft) => Ok(draft),
        Err(_) => Err(Refusal::OutOfMemory),
    }
}
