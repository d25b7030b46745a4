// Which settlements go with which parts.
ghost use Rattle.std.specs.Prelude.{◌≡◌};
ghost use Rattle.sb_machine.specs.Settlement as spec;

use crate::address::is_main;
use sb_machine::{How, Part};

/// Only what stands in a main part may be dead-lettered.
pub fn goes_with(how: &How, part: Part) -> bool
    ensures { result ≡ spec.goes_with how.now part }
{
    match how {
        How::Complete | How::Abandon | How::Defer => true,
        How::DeadLetter { .. } => is_main(part),
    }
}
