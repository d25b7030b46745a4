// Limits of time, for whoever keeps a connection and says too little.
ghost use Rattle.std.specs.Prelude.{◌≡◌, ◌⊎◌, ◌+◌, ◌≤◌, ◌<◌};
ghost use Rattle.std.specs.Bool.{OnTrue};
ghost use Rattle.sb_server.specs.declared.doing.Doing.{Doing};
ghost use Rattle.sb_server.specs.declared.doing.Doing.TheVariants.{Reads};
ghost use Rattle.sb_server.specs.declared.doing.Went.TheVariants.{Blocked};
ghost use Rattle.sb_server.specs.declared.limits.Since.TheVariants.{Never};
ghost use Rattle.sb_server.specs.Doings.{IsNext};
ghost use Rattle.sb_server.specs.Talks.{Start, Here, ReadsOut};
ghost use Rattle.sb_server.specs.Times.{IsSince, IsLooked};
ghost use Rattle.sb_server.specs.Times as times;

use crate::doing::{Doing, Went};
use crate::ending::Ending;
use crate::inbox::Inbox;
use sb_outside::Clock;

/// How long a connection may keep its server waiting, in ms. A limit of 2^64 - 1 is never met.
#[derive(Clone, Copy, PartialEq, Eq)]
pub struct Limits {
    /// A request has to be whole so long behind its first byte, and a response taken so long behind the
    /// first time that it wasn't: each whole KiB of it that has come, or was taken, allows a second more.
    pub request_ms: u64,
    /// A request has to begin so long behind the one before, or behind the connection's begin.
    pub idle_ms: u64,
}

/// What a connection waits for that its other side is to do, and since which reading of the clock.
#[derive(Clone, Copy)]
pub(crate) enum Since {
    /// It doesn't wait for it.
    Never,
    /// For the first byte of a request.
    Idle(u64),
    /// For the rest of a request.
    Asking(u64),
    /// That it takes a response.
    Taking(u64),
}

/// Looks behind a step whether the limits were kept where the other side is waited for, and ends the
/// connection where they weren't. It says also since when it is waited for, and at which reading it
/// is to be looked again, if nothing else happens. The clock is read where it is waited for alone.
pub(crate) fn look<C: Clock>(
    clock: &C,
    limits: Limits,
    inbox: &Inbox,
    since: Since,
    went: Went,
    doing: &Doing,
) -> (Went, Since, u64)
    ensures next { (s : Start) (h : Here) → s.limits ≡ limits → h.stand.left ≡ inbox.now.incoming.left → IsSince (C.reads clock.now) since → IsNext (C.reads clock.now) s h went doing.now → IsNext (C.reads clock.now) s h result.0 doing.now }
    ensures since { IsSince (C.reads clock.now) since → IsSince (C.reads clock.now) result.1 }
{
    match went {
        Went::On => (Went::On, since_on(since, doing), 0),
        Went::NothingYet => look_at_request(clock, limits, inbox, since),
        Went::Blocked => look_at_response(clock, limits, since, doing),
        Went::Over(ending) => (Went::Over(ending), Since::Never, u64::MAX),
    }
}

// Nothing could be read yet: whether the request has begun in time, or may still be whole in time.
fn look_at_request<C: Clock>(
    clock: &C,
    limits: Limits,
    inbox: &Inbox,
    since: Since,
) -> (Went, Since, u64)
    ensures next { (s : Start) (h : Here) (d : Doing) → s.limits ≡ limits → h.stand.left ≡ inbox.now.incoming.left → IsSince (C.reads clock.now) since → ReadsOut (C.reads clock.now) s h → d ≡ Reads → IsNext (C.reads clock.now) s h result.0 d }
    ensures since { IsSince (C.reads clock.now) since → IsSince (C.reads clock.now) result.1 }
{
    let held = inbox.incoming.left();
    let now = clock.now();
    if held == 0 {
        let from = idle_from(since, now);
        let limit = limits.idle_ms;
        return (
            looked(limit, from, now),
            Since::Idle(from),
            end_of(from, limit),
        );
    }
    let from = asking_from(since, now);
    let limit = with_bytes(limits.request_ms, held);
    (
        looked(limit, from, now),
        Since::Asking(from),
        end_of(from, limit),
    )
}

// It is blocked: where it writes a response, whether that may still be taken in time.
fn look_at_response<C: Clock>(
    clock: &C,
    limits: Limits,
    since: Since,
    doing: &Doing,
) -> (Went, Since, u64)
    ensures next { (s : Start) (h : Here) → s.limits ≡ limits → IsSince (C.reads clock.now) since → IsNext (C.reads clock.now) s h Blocked doing.now → IsNext (C.reads clock.now) s h result.0 doing.now }
    ensures since { IsSince (C.reads clock.now) since → IsSince (C.reads clock.now) result.1 }
{
    let Some(taken) = taken_of(doing) else {
        return (Went::Blocked, Since::Never, u64::MAX);
    };
    let now = clock.now();
    let from = taking_from(since, now);
    let limit = with_bytes(limits.request_ms, taken);
    if is_over(limit, from, now) {
        return (Went::Over(Ending::Slow), Since::Never, u64::MAX);
    }
    (Went::Blocked, Since::Taking(from), end_of(from, limit))
}

// How it goes on where nothing could be read.
fn looked(limit: u64, from: u64, now: u64) -> Went
    ensures { IsLooked limit from now result }
{
    if is_over(limit, from, now) {
        return Went::Over(Ending::Slow);
    }
    Went::NothingYet
}

// Whether more than the limit has passed.
fn is_over(limit: u64, from: u64, now: u64) -> bool
    ensures { OnTrue result (from + limit < now) }
{
    now.saturating_sub(from) > limit
}

// The first reading at which it has.
fn end_of(from: u64, limit: u64) -> u64 {
    from.saturating_add(limit).saturating_add(1)
}

// So many ms, and a second more for each whole KiB.
fn with_bytes(ms: u64, bytes: usize) -> u64
    ensures value { result ≡ times.with_bytes ms bytes }
    ensures more { ms ≤ result }
{
    let more = ((bytes / 1024) as u64).saturating_mul(1000);
    ms.saturating_add(more)
}

// Since when a response that goes on is to be taken: since before, once some of it was taken.
fn since_on(since: Since, doing: &Doing) -> Since
    ensures { (result ≡ since) ⊎ (result ≡ Never) }
{
    let Some(taken) = taken_of(doing) else {
        return Since::Never;
    };
    if taken > 0 { since } else { Since::Never }
}

// How many bytes of a response were taken, where one is being written.
fn taken_of(doing: &Doing) -> Option<usize>
    ensures { result ≡ times.taken_of doing.now }
{
    match doing {
        Doing::Writes(outgoing) => Some(outgoing.at),
        Doing::Reads | Doing::Asks(_) | Doing::Calls(_) | Doing::Says(_, _, _) | Doing::Tells(_) =>
            None,
    }
}

fn idle_from(since: Since, now: u64) -> u64
    ensures { result ≡ times.idle_from since now }
{
    match since {
        Since::Idle(ms) => ms,
        Since::Never | Since::Asking(_) | Since::Taking(_) => now,
    }
}

fn asking_from(since: Since, now: u64) -> u64
    ensures { result ≡ times.asking_from since now }
{
    match since {
        Since::Asking(ms) => ms,
        Since::Never | Since::Idle(_) | Since::Taking(_) => now,
    }
}

fn taking_from(since: Since, now: u64) -> u64
    ensures { result ≡ times.taking_from since now }
{
    match since {
        Since::Taking(ms) => ms,
        Since::Never | Since::Idle(_) | Since::Asking(_) => now,
    }
}
