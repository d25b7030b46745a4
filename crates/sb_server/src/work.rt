// A worker: the connections of one door, one after the other.
ghost use Rattle.std.specs.Prelude.{◌≡◌, ◌-◌, ◌≤◌, ◌∷◌, [], ℕ, List, Option, IfSome};
ghost use Rattle.sb_desk.specs.Desks.{Sitting, IsOf};
ghost use Rattle.sb_outside.specs.Streams.{Gains, Stays};
ghost use Rattle.sb_server.specs.declared.seat.Seat.TheVariants.{Free};
ghost use Rattle.sb_server.specs.declared.stage.Guest.{Guest};
ghost use Rattle.sb_server.specs.declared.stage.Stage.TheVariants.{Wants, Serves};
ghost use Rattle.sb_server.specs.Doings.{GoesTo, GoesToAt, IsDoingAt, IsDoingInOrder, IsFree, IsInOrderAt, IsNext, sitting_of};
ghost use Rattle.sb_server.specs.Reads.{stand_of};
ghost use Rattle.sb_server.specs.Stages.{IsAt, IsSound, here_of, stage_behind};
ghost use Rattle.sb_server.specs.Talks.{Start};
ghost use Rattle.sb_server.specs.Times.{IsSince};
ghost use Rattle.sb_server.specs.Works.{ServedConnection, DoorServed, ConnectionServed, StopsBy, stop_of};

use crate::doing::{Doing, Went};
use crate::ending::Ending;
use crate::inbox::Inbox;
use crate::limits::{Limits, Since, look};
use crate::seat::{Seat, pass_of};
use crate::stage::{Guest, Stage, is_over, let_go, stage_behind, stand_at, stop_at};
use crate::step::step;
use sb_desk::{Desk, Pass, Served};
use sb_outside::{Clock, Conn, Door, Given};
use sb_rest::Access;
use sb_routes::Routes;
use std::alloc::Global;
use std::mem;
use std::sync::Wait;

// A call that waits is asked again behind so many ms, if nothing wakes it before.
const ASKS_EACH_MS: u64 = 1000;

// It is asked again where something comes due in the namespace, at the next multiple of so many ms.
const DUE_EACH_MS: u64 = 100;

// What there was no memory for, a response or what has come, is tried again behind so many ms.
const TELLS_EACH_MS: u64 = 10;

// A connection gives its reader's memory back once it has rested so many ms, between two requests or in a
// call that waits.
const RESTS_MS: u64 = 1000;

// Between two requests it does so at the next multiple of so many ms, at which others of its thread may as well.
const RESTS_EACH_MS: u64 = 250;

/// Why a worker ended.
#[derive(Clone, Copy, PartialEq, Eq)]
pub enum Stop {
    /// It served as many connections as were asked for.
    Enough,
    /// Its door ended.
    Ended,
    /// Its door failed.
    Fault,
    /// The namespace acts no more.
    Stopped,
    OutOfMemory,
}

/// Serves the connections of a door with one pass, at most so many, each until it ends, within these limits
/// of time. A fault of a connection ends that connection alone.
pub fn serve_door<V: Served, R: Wait, C: Clock, D: Door>(
    rt: &R,
    alloc: Global,
    routes: &Routes,
    access: &Access,
    limits: Limits,
    desk: &Desk<V>,
    pass: Pass,
    clock: &C,
    door: &mut D,
    most: u64,
) -> (Pass, Stop)
    requires { IsOf desk.now pass }
    ensures works { (vs : List (ServedConnection D.Conn)) × DoorServed D.Door (ConnectionServed D.Conn.Conn (C.reads clock.now) access.now limits) pass door.old result.0 door.new vs
        × StopsBy result.1 most vs (D.ended door.new) (D.count door.old) (D.count door.new) }
    ensures out { D.out door.new ≡ D.out door.old }
    ensures desk { IsOf desk.now result.0 }
{
    let mut current = Seat::Free(pass);
    let mut stage = Stage::Wants(most);
    for _ in rt.forever() {
        let (next, again) = go_on(
            rt, alloc, routes, access, limits, desk, current, clock, door, &mut stage,
        );
        current = next;
        if is_over(&stage) {
            let stop = stop_at(&stage, Stop::Enough);
            let_go(stage);
            return (pass_of(current), stop);
        }
        pause_if(clock, again > 0);
    }
    unreachable!()
}

fn pause_if<C: Clock>(clock: &C, waits: bool) {
    if waits {
        clock.pause();
    }
}

/// Goes on with the work at a door, one step, and says at which reading the next one is to be made, if
/// nothing else happens: 0 where it may be made at once. A call is posted, and collected at the next step.
pub(crate) fn go_on<V: Served, R: Wait, C: Clock, D: Door>(
    rt: &R,
    alloc: Global,
    routes: &Routes,
    access: &Access,
    limits: Limits,
    desk: &Desk<V>,
    seat: Seat,
    clock: &C,
    door: &mut D,
    stage: &mut Stage<D::Conn>,
) -> (Seat, u64)
    requires desk { IsOf desk.now (sitting_of seat) }
    requires sound { IsSound seat stage.old (D.out door.old) }
    ensures goes { (most : ℕ) (p : Sitting) (d : D) → IsAt D.Door D.Conn.Conn (C.reads clock.now) access.now limits most p d seat door.old stage.old
        → IsAt D.Door D.Conn.Conn (C.reads clock.now) access.now limits most p d result.0 door.new stage.new }
    ensures desk { IsOf desk.now (sitting_of result.0) }
    ensures sound { IsSound result.0 stage.new (D.out door.new) }
{
    match stage {
        Stage::Wants(left) => {
            let next = want(alloc, access, limits, desk, clock, door, *left);
            let again = again_at(&next);
            stand_at(stage, next);
            (seat, again)
        }
        Stage::Serves(left, guest) => {
            let left = *left;
            let (seat, over, again) = attend(
                rt, alloc, routes, access, limits, desk, seat, clock, guest,
            );
            if let Some(ending) = over {
                desk.board().ended();
                give_back(door, stage, left, ending);
                return (seat, 0);
            }
            (seat, again)
        }
        Stage::Over(_) => (seat, u64::MAX),
    }
}

// When a worker without a connection is to be looked at again: at once where it is over or has one.
fn again_at<N>(stage: &Stage<N>) -> u64 {
    if matches!(stage, Stage::Wants(_)) {
        return u64::MAX;
    }
    0
}

// When a call that waits is asked again, and what there was no memory to tell, or to read, is tried again;
// what writes goes on once it can.
fn asks_at<V: Served, C: Clock>(clock: &C, desk: &Desk<V>, doing: &Doing) -> u64 {
    match doing {
        Doing::Asks(patience) => {
            let end = patience.first_ms.saturating_add(patience.limit_ms);
            let next = patience.asked_ms.saturating_add(ASKS_EACH_MS);
            let due = due_at(desk.soonest(), patience.asked_ms);
            next.min(due).min(end)
        }
        Doing::Reads | Doing::Says(_, _, _) | Doing::Tells(_) => clock
            .now()
            .saturating_add(TELLS_EACH_MS),
        Doing::Calls(_) => 0,
        Doing::Writes(_) => u64::MAX,
    }
}

// When it is looked for what comes due then. It is never where that was so at this reading already: a call
// at it has seen what was due.
fn due_at(soonest_ms: u64, asked_ms: u64) -> u64 {
    if soonest_ms <= asked_ms {
        return u64::MAX;
    }
    soonest_ms.div_ceil(DUE_EACH_MS).saturating_mul(DUE_EACH_MS)
}

// Takes the next connection of a door, if another one may be served.
fn want<V: Served, C: Clock, D: Door>(
    alloc: Global,
    access: &Access,
    limits: Limits,
    desk: &Desk<V>,
    clock: &C,
    door: &mut D,
    left: u64,
) -> Stage<D::Conn>
    ensures goes { (most : ℕ) (p q : Sitting) (d : D) → IsAt D.Door D.Conn.Conn (C.reads clock.now) access.now limits most p d (Free q) door.old (Wants left)
        → IsAt D.Door D.Conn.Conn (C.reads clock.now) access.now limits most p d (Free q) door.new result }
    ensures sound { (q : Sitting) → IsSound (Free q) result (D.out door.new) }
{
    let _ = access;
    let _ = limits;
    let _ = clock;
    if left == 0 {
        return Stage::Over(Stop::Enough);
    }
    let Ok(given) = door.accept() else {
        return Stage::Over(Stop::Fault);
    };
    match given {
        Given::One(conn) => {
            let Ok(inbox) = Inbox::new(alloc) else {
                door.done(conn);
                return Stage::Over(Stop::OutOfMemory);
            };
            desk.board().opened();
            let guest = Guest {
                conn,
                inbox,
                doing: Doing::Reads,
                since: Since::Never,
            };
            Stage::Serves(left - 1, guest)
        }
        Given::NoneYet => Stage::Wants(left),
        Given::End => Stage::Over(Stop::Ended),
    }
}

// Goes on with a connection. Whether it ended, and how, and at which reading the next step is to be made.
fn attend<V: Served, R: Wait, C: Clock, N: Conn>(
    rt: &R,
    alloc: Global,
    routes: &Routes,
    access: &Access,
    limits: Limits,
    desk: &Desk<V>,
    seat: Seat,
    clock: &C,
    guest: &mut Guest<N>,
) -> (Seat, Option<Ending>, u64)
    requires desk { IsOf desk.now (sitting_of seat) }
    requires order { IsInOrderAt seat guest.old.doing }
    ensures goes { (s : Start) → s.access ≡ access.now → s.limits ≡ limits → IsSince (C.reads clock.now) guest.old.since → IsDoingAt (C.reads clock.now) s (here_of N.Conn (sitting_of seat) guest.old) seat guest.old.doing
        → GoesToAt (C.reads clock.now) s (here_of N.Conn (sitting_of result.0) guest.new) result.0 result.1 guest.new.doing }
    ensures since { IsSince (C.reads clock.now) guest.old.since → IsSince (C.reads clock.now) guest.new.since }
    ensures desk { IsOf desk.now (sitting_of result.0) }
    ensures order { IsInOrderAt result.0 guest.new.doing }
    ensures free { IfSome result.1 (λ _. IsFree result.0) }
{
    let (seat, went) = step(
        rt,
        alloc,
        routes,
        access,
        desk,
        seat,
        clock,
        &mut guest.conn,
        &mut guest.inbox,
        &mut guest.doing,
    );
    match seat {
        Seat::Free(pass) => {
            let (over, again) = behind_step(limits, desk, clock, guest, went);
            (Seat::Free(pass), over, again)
        }
        Seat::Posts(sent) => {
            guest.since = Since::Never;
            (Seat::Posts(sent), None, 0)
        }
    }
}

// Looks at a connection behind a step.
fn behind_step<V: Served, C: Clock, N: Conn>(
    limits: Limits,
    desk: &Desk<V>,
    clock: &C,
    guest: &mut Guest<N>,
    went: Went,
) -> (Option<Ending>, u64)
    requires order { IsDoingInOrder guest.old.doing }
    ensures goes { (s : Start) (q : Sitting) → s.limits ≡ limits → IsSince (C.reads clock.now) guest.old.since → IsNext (C.reads clock.now) s (here_of N.Conn q guest.old) went guest.old.doing
        → GoesTo (C.reads clock.now) s (here_of N.Conn q guest.new) result.0 guest.new.doing }
    ensures since { IsSince (C.reads clock.now) guest.old.since → IsSince (C.reads clock.now) guest.new.since }
    ensures order { IsDoingInOrder guest.new.doing }
{
    let (went, since, until) = look(clock, limits, &guest.inbox, guest.since, went, &guest.doing);
    guest.since = since;
    match went {
        Went::On => (None, 0),
        Went::NothingYet => (None, rest(clock, &mut guest.inbox, since, until)),
        Went::Blocked => {
            rest_blocked(&mut guest.inbox, &guest.doing);
            let again = asks_at(clock, desk, &guest.doing).min(until);
            (None, again)
        }
        Went::Over(ending) => (Some(ending), 0),
    }
}

// A connection that waits for a request gives its reader's memory back once it has rested. It says at which
// reading it is to be looked at again, if nothing else happens.
fn rest<C: Clock>(clock: &C, inbox: &mut Inbox, since: Since, until: u64) -> u64
    ensures { (left : Option (List ℕ)) → stand_of inbox.new left ≡ stand_of inbox.old left }
{
    let Since::Idle(from) = since else {
        return until;
    };
    if !inbox.has_reader() {
        return until;
    }
    let due = rested_at(from);
    if clock.now() < due {
        return due.min(until);
    }
    inbox.give_back();
    until
}

// When a connection has rested that waits for a request since this reading.
fn rested_at(from: u64) -> u64 {
    from.saturating_add(RESTS_MS)
        .div_ceil(RESTS_EACH_MS)
        .saturating_mul(RESTS_EACH_MS)
}

// A connection whose call waits gives its reader's memory back once the call has waited so long, and one that
// has no memory to tell an answer at once: that memory is enough for most answers.
fn rest_blocked(inbox: &mut Inbox, doing: &Doing)
    ensures { (left : Option (List ℕ)) → stand_of inbox.new left ≡ stand_of inbox.old left }
{
    let rests = match doing {
        Doing::Asks(patience) => patience.asked_ms.saturating_sub(patience.first_ms) >= RESTS_MS,
        Doing::Says(_, _, _) | Doing::Tells(_) => true,
        Doing::Reads | Doing::Calls(_) | Doing::Writes(_) => false,
    };
    if rests {
        inbox.give_back();
    }
}

// Gives a connection back that ended so; the worker may serve so many more.
fn give_back<D: Door>(door: &mut D, stage: &mut Stage<D::Conn>, left: u64, ending: Ending)
    requires serves { (guest : Guest D.Conn) × (stage.old ≡ Serves left guest) }
    requires out { 1 ≤ D.out door.old }
    ensures stage { stage.new ≡ stage_behind (stop_of ending) left }
    ensures taken { (guest : Guest D.Conn) → stage.old ≡ Serves left guest → Gains (D.taken door.old) (D.taken door.new) (guest.conn ∷ []) }
    ensures left { Stays (D.left door.old) (D.left door.new) }
    ensures count { D.count door.new ≡ D.count door.old }
    ensures out { D.out door.new ≡ D.out door.old - 1 }
{
    let old = mem::replace(stage, stage_behind(ending, left));
    let Stage::Serves(_, guest) = old else {
        unreachable!()
    };
    let Guest {
        conn,
        inbox,
        doing,
        since: _,
    } = guest;
    drop(inbox);
    drop(doing);
    door.done(conn);
}
