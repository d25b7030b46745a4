// What a copy's standing says at a moment, beside the sessions of its part.
ghost use Rattle.std.specs.Prelude.{◌≡◌, ◌==◌, ◌&&◌, nat_le};
ghost use Rattle.std.specs.List.{list_any};
ghost use Rattle.sb_machine.specs.Leases as spec;
ghost use Rattle.sb_machine.specs.Leaves as leaf;
ghost use Rattle.sb_machine.specs.Settlement as settlement;

use sb_machine::{Hold, Session, Standing, is_living_holder};

/// Whether it may be received.
pub fn is_ready(standing: Standing) -> bool
    ensures { result ≡ spec.is_ready standing }
{
    matches!(standing, Standing::Ready)
}

/// Whether it may be received by its number.
pub fn is_deferred(standing: Standing) -> bool
    ensures { result ≡ leaf.is_deferred standing }
{
    matches!(standing, Standing::Deferred)
}

/// Whether it enters later.
pub fn is_scheduled(standing: Standing) -> bool
    ensures { result ≡ spec.is_scheduled standing }
{
    matches!(standing, Standing::Scheduled(_))
}

/// Whether it is under a lock that was put on it while it was deferred.
pub fn was_deferred(standing: Standing) -> bool
    ensures { result ≡ spec.was_deferred standing }
{
    match standing {
        Standing::Held { deferred, .. } => deferred,
        _ => false,
    }
}

/// Whether its entry at a later moment has come by `moment`, in ms since 1970.
pub fn has_come(standing: Standing, moment: u64) -> bool
    ensures { result ≡ spec.has_come moment standing }
{
    match standing {
        Standing::Scheduled(at) => at <= moment,
        _ => false,
    }
}

/// Whether it is held as long as the session's lock of this number.
pub fn is_under_session(standing: Standing, lock: u64) -> bool
    ensures { result ≡ spec.is_under_session lock standing }
{
    match standing {
        Standing::Held {
            hold: Hold::Session(holder),
            ..
        } => holder == lock,
        _ => false,
    }
}

/// Whether its own lock lives up to this moment exactly, in ms since 1970.
pub fn is_until(standing: Standing, end: u64) -> bool
    ensures { result ≡ settlement.is_until end standing }
{
    match standing {
        Standing::Held {
            hold: Hold::Until(until),
            ..
        } => until == end,
        _ => false,
    }
}

/// Whether a hold lives at `moment`, in ms since 1970, beside these sessions.
pub fn lasts(hold: Hold, moment: u64, sessions: &[Session]) -> bool
    ensures { result ≡ spec.lasts moment sessions.now hold }
{
    match hold {
        Hold::Until(until) => moment < until,
        Hold::Session(lock) => is_any_living(sessions, moment, lock),
    }
}

/// Whether a hold has ended by `moment`, in ms since 1970, beside these sessions.
pub fn is_over(hold: Hold, moment: u64, sessions: &[Session]) -> bool
    ensures { result ≡ spec.is_over moment sessions.now hold }
{
    match hold {
        Hold::Until(until) => until <= moment,
        Hold::Session(lock) => is_any_ended(sessions, moment, lock),
    }
}

/// Whether it is under the lock of this number, which lives at `moment`, in ms since 1970.
pub fn is_living(standing: Standing, lock: u64, moment: u64, sessions: &[Session]) -> bool
    ensures { result ≡ spec.is_living moment sessions.now lock standing }
{
    match standing {
        Standing::Held {
            lock: own,
            hold,
            ..
        } => own == lock && lasts(hold, moment, sessions),
        _ => false,
    }
}

/// Whether it is under a lock that has ended by `moment`, in ms since 1970.
pub fn has_ended(standing: Standing, moment: u64, sessions: &[Session]) -> bool
    ensures { result ≡ spec.has_ended moment sessions.now standing }
{
    match standing {
        Standing::Held { hold, .. } => is_over(hold, moment, sessions),
        _ => false,
    }
}

/// How it stands once its own lock lives up to this moment, in ms since 1970.
pub fn prolonged(standing: Standing, until: u64) -> Standing
    ensures { result ≡ leaf.prolonged_standing until standing }
{
    match standing {
        Standing::Held { lock, deferred, .. } => Standing::Held {
            lock,
            hold: Hold::Until(until),
            deferred,
        },
        other => other,
    }
}

fn is_any_living(sessions: &[Session], moment: u64, lock: u64) -> bool
    ensures { result ≡ list_any (spec.is_living_holder moment lock) sessions.now }
{
    sessions.iter().any(|x| is_living_holder(x, moment, lock))
}

fn is_ended_holder(session: &Session, moment: u64, lock: u64) -> bool
    ensures { result ≡ spec.is_ended_holder moment lock session.now }
{
    match session.holder {
        Some(holder) => holder.lock == lock && holder.until <= moment,
        None => false,
    }
}

fn is_any_ended(sessions: &[Session], moment: u64, lock: u64) -> bool
    ensures { result ≡ list_any (spec.is_ended_holder moment lock) sessions.now }
{
    sessions.iter().any(|x| is_ended_holder(x, moment, lock))
}
