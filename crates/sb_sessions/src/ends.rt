// When the locks of sessions end, in ms since 1970.
ghost use Rattle.std.specs.Prelude.{◌≡◌, min, find, if◌then◌else◌, Some, None};
ghost use Rattle.std.specs.Option.{option_map};
ghost use Rattle.sb_machine.specs.Leaves.{is_held_under};
ghost use Rattle.sb_sessions.specs.Ends as spec;
ghost use Rattle.sb_sessions.specs.Moved.{IsMoved};

use crate::rows::held_by;
use sb_machine::{Holder, Session};

/// The last moment that there is.
pub const NEVER: u64 = u64::MAX;

fn end_held(holder: Option<Holder>) -> u64
    ensures { result ≡ elim holder [ Some h ↦ min h.until spec.never | None ↦ spec.never ] }
{
    match holder {
        Some(holder) => holder.until,
        None => NEVER,
    }
}

fn end_of(session: &Session) -> u64
    ensures { result ≡ spec.end_of session.now }
{
    end_held(session.holder)
}

/// When the lock of this number ends, of the session that is held under it.
pub fn end_under(rows: &[Session], lock: u64) -> Option<u64>
    ensures { result ≡ option_map spec.end_of (find (is_held_under lock) rows.now) }
{
    match held_by(rows, lock) {
        Some(session) => Some(end_of(session)),
        None => None,
    }
}

/// When the first of their locks ends.
pub fn least_of(rows: &[Session]) -> u64
    ensures { result ≡ spec.least_end rows.now }
{
    let mut least = NEVER;
    for session in rows {
        least = least.min(end_of(session));
    }
    least
}

/// The least moment once a session is held until then, where another doesn't hold it already.
pub fn least_opened(least: u64, held: bool, until: u64) -> u64
    ensures { result ≡ (if held then least else min until least) }
{
    if held { least } else { until.min(least) }
}

/// The least moment of these, where one that ended at `was` now ends at `end`. They are looked at
/// only where that one was the first to end.
pub fn least_moved(least: u64, was: Option<u64>, end: u64, rows: &[Session]) -> u64
    requires { IsMoved least was end rows.now }
    ensures { result ≡ spec.least_end rows.now }
{
    match was {
        None => least,
        Some(was) => {
            if least < was {
                least.min(end)
            } else {
                least_of(rows)
            }
        }
    }
}
