// How many copies stand how, as counts that are kept.
ghost use Rattle.std.specs.Prelude.{◌≡◌, ◌+◌, ◌-◌, ◌<◌, ◌^◌, [], IfSome};
ghost use Rattle.sb_copies.specs.Tally as spec;

use sb_machine::{PartShown, Standing};

/// Counts of copies by how they stand.
#[derive(Clone, Copy)]
pub struct Tally {
    pub ready: u64,
    pub held: u64,
    pub deferred: u64,
    pub scheduled: u64,
}

/// Of none.
pub fn of_none() -> Tally
    ensures { result ≡ spec.tally_of [] }
{
    Tally {
        ready: 0,
        held: 0,
        deferred: 0,
        scheduled: 0,
    }
}

/// With one more that stands so.
pub fn with_one(tally: Tally, standing: Standing) -> Tally
    requires { spec.total tally + 1 < 2 ^ 64 }
    ensures { result ≡ spec.with_one standing tally }
{
    match standing {
        Standing::Ready => Tally {
            ready: tally.ready + 1,
            ..tally
        },
        Standing::Deferred => Tally {
            deferred: tally.deferred + 1,
            ..tally
        },
        Standing::Held { .. } => Tally {
            held: tally.held + 1,
            ..tally
        },
        Standing::Scheduled(_) => Tally {
            scheduled: tally.scheduled + 1,
            ..tally
        },
    }
}

fn without_one(tally: Tally, standing: Standing) -> Tally
    ensures { result ≡ spec.without_one standing tally }
{
    match standing {
        Standing::Ready => Tally {
            ready: tally.ready.saturating_sub(1),
            ..tally
        },
        Standing::Deferred => Tally {
            deferred: tally.deferred.saturating_sub(1),
            ..tally
        },
        Standing::Held { .. } => Tally {
            held: tally.held.saturating_sub(1),
            ..tally
        },
        Standing::Scheduled(_) => Tally {
            scheduled: tally.scheduled.saturating_sub(1),
            ..tally
        },
    }
}

/// Once one that stood so is gone, if it was there.
pub fn gone(tally: Tally, was: Option<Standing>) -> Tally
    ensures { result ≡ spec.gone was tally }
{
    match was {
        Some(was) => without_one(tally, was),
        None => tally,
    }
}

/// Once one that stood so stands otherwise, if it was there.
pub fn moved(tally: Tally, was: Option<Standing>, now: Standing) -> Tally
    requires { IfSome was (λ w. spec.total (spec.without_one w tally) + 1 < 2 ^ 64) }
    ensures { result ≡ spec.moved was now tally }
{
    match was {
        Some(was) => with_one(without_one(tally, was), now),
        None => tally,
    }
}

/// As a look shows them, with when the first that may be received was enqueued.
pub fn shown(tally: Tally, oldest: Option<u64>) -> PartShown
    ensures { result ≡ record { ready = tally.ready; held = tally.held; deferred = tally.deferred; scheduled = tally.scheduled; oldest = oldest } }
{
    PartShown {
        ready: tally.ready,
        held: tally.held,
        deferred: tally.deferred,
        scheduled: tally.scheduled,
        oldest,
    }
}
