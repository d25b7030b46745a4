// When one thing comes due by itself, in ms since 1970.
ghost use Rattle.std.specs.Prelude.{◌≡◌};
ghost use Rattle.sb_engine.specs.Deadlines as spec;

use sb_copies::{expiry, standing_due};
use sb_machine::{Part, Session, StoredCopy};
use sb_names::is_main;

pub fn copy_deadline(part: Part, copy: &StoredCopy) -> Option<u64>
    ensures { result ≡ spec.standing_deadline part (spec.in_range (spec.copy_expiry copy.now)) copy.now.standing }
{
    let end = expiry(copy.enqueued, copy.message.ttl);
    standing_due(is_main(part), end, copy.standing)
}

pub fn session_deadline(session: &Session) -> Option<u64>
    ensures { result ≡ spec.session_deadline session.now }
{
    match session.holder {
        Some(holder) => Some(holder.until),
        None => None,
    }
}

pub fn has_passed(deadline: Option<u64>, moment: u64) -> bool
    ensures { result ≡ spec.has_passed moment deadline }
{
    match deadline {
        Some(deadline) => deadline <= moment,
        None => false,
    }
}
