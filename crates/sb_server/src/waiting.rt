// Calls at a pass, and calls that wait.
ghost use Rattle.std.specs.Prelude.{◌≡◌, ◌+◌, ◌≤◌, ◌<◌, List, true};
ghost use Rattle.std.specs.Bool.{OnTrue, OnFalse};
ghost use Rattle.sb_machine.specs.Ordered.{IsActInOrder};
ghost use Rattle.sb_machine.specs.declared.history.Entry.{Entry};
ghost use Rattle.sb_desk.specs.Desks.{IsOf, HasLegal};
ghost use Rattle.sb_desk.specs.Spared.{Spares};
ghost use Rattle.sb_server.specs.Waiting.{GoesBy, GoesByCall, Waits, is_empty};

use crate::counting::{kind_of, outcome_of};
use sb_desk::{Desk, Pass, Served};
use sb_machine::{Answer, Answered, Call, Reply};
use sb_outside::Clock;
use std::sync::Wait;

/// Makes a call, and makes it again, behind a pause of the clock, while it finds nothing to receive
/// and the limit, in ms, hasn't passed since the clock's first reading. The call comes back with its
/// answer. No lock is held but in the desk's turn of each call. Where that reading and the limit are above
/// 2^64 - 1 together, no time ends it.
pub fn receive_waiting<V: Served, R: Wait, C: Clock>(
    rt: &R,
    desk: &Desk<V>,
    pass: Pass,
    clock: &C,
    limit: u64,
    call: Call,
) -> (Pass, Call, Answer)
    requires desk { IsOf desk.now pass }
    requires order { IsActInOrder call.act }
    ensures waits { (made : List Entry) × GoesBy pass made result.0 × Waits (C.reads clock.now) pass.seat call limit made result.2 }
    ensures same { result.1 ≡ call }
    ensures legal { HasLegal result.0 }
    ensures spares { Spares V.spared result.0.start result.0.seen }
    ensures desk { IsOf desk.now result.0 }
{
    let first = clock.now();
    let mut now = first;
    let (mut current, mut asked, mut answer) = call_once(rt, desk, pass, clock, first, call);
    for _ in rt.forever() {
        if is_done(&answer, first, limit, now) {
            break;
        }
        clock.pause();
        now = clock.now();
        let (next, same, found) = call_once(rt, desk, current, clock, now, asked);
        current = next;
        asked = same;
        drop(answer);
        answer = found;
    }
    (current, asked, answer)
}

/// Makes a call at this pass, at a reading of the clock in ms since 1970, and hands it back. The desk's board counts
/// it, with how long it took.
pub(crate) fn call_once<V: Served, R: Wait, C: Clock>(
    rt: &R,
    desk: &Desk<V>,
    pass: Pass,
    clock: &C,
    reading: u64,
    call: Call,
) -> (Pass, Call, Answer)
    requires desk { IsOf desk.now pass }
    requires order { IsActInOrder call.act }
    ensures goes { GoesByCall pass reading call result.2 result.0 }
    ensures same { result.1 ≡ call }
    ensures legal { HasLegal result.0 }
    ensures spares { Spares V.spared result.0.start result.0.seen }
    ensures desk { IsOf desk.now result.0 }
{
    let began = clock.micros();
    let (pass, call, answer) = desk.call(rt, pass, reading, call);
    let took = clock.micros().saturating_sub(began);
    desk.board()
        .called(kind_of(&call.act), outcome_of(&answer), took);
    (pass, call, answer)
}

// Whether there was nothing to receive, or no session to accept.
fn is_empty(answer: &Answer) -> bool
    ensures { result ≡ is_empty answer.now }
{
    matches!(answer, Ok(Answered::New(Reply::Empty)))
}

// Whether the limit has passed since the first reading.
fn is_over(first: u64, limit: u64, now: u64) -> bool
    ensures over { OnTrue result (first + limit ≤ now) }
    ensures under { OnFalse result (now < first + limit) }
{
    match first.checked_add(limit) {
        Some(end) => end <= now,
        None => false,
    }
}

/// Whether a call waits no longer.
pub(crate) fn is_done(answer: &Answer, first: u64, limit: u64, now: u64) -> bool
    ensures done { OnTrue result (is_empty answer.now ≡ true → first + limit ≤ now) }
    ensures waits { OnFalse result ((is_empty answer.now ≡ true) × (now < first + limit)) }
{
    if is_empty(answer) {
        return is_over(first, limit, now);
    }
    true
}
