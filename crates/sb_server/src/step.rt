// One step of a connection.
ghost use Rattle.std.specs.Prelude.{◌≡◌, ◌<◌, ℕ, IfOk, length, true};
ghost use Rattle.sb_desk.specs.Desks.{Sitting, IsOf};
ghost use Rattle.sb_server.specs.declared.doing.Doing.TheVariants.{Reads, Tells, Writes};
ghost use Rattle.sb_server.specs.Doings as doings;
ghost use Rattle.sb_server.specs.Doings.{IsDoingAt, IsDoingInOrder, IsInOrderAt, IsNext, IsNextAt, IsPendingInOrder, IsPosted, Steps, StepsTo, sitting_of};
ghost use Rattle.sb_server.specs.Reads.{Stand};
ghost use Rattle.sb_server.specs.Talks.{Here, Start, here_with};
ghost use Rattle.sb_server.specs.Talks as talks;

use crate::answer::{Asked, answer, post_again};
use crate::came::Came;
use crate::doing::{Doing, Outgoing, Went, begin, behind, turn};
use crate::ending::Ending;
use crate::inbox::Inbox;
use crate::lines::{call_on, say_on, take_script};
use crate::pending::{Sent, collect};
use crate::seat::Seat;
use crate::telling::{Said, Telling, farewell, response_to};
use sb_desk::{Desk, Pass, Served};
use sb_http::{HttpFault, Response, Status, write_response};
use sb_numbers::Numbers;
use sb_outside::{Clock, Conn};
use sb_rest::{Access, shows_numbers};
use sb_routes::Routes;
use std::alloc::{AllocError, Global};
use std::mem;
use std::sync::Wait;

/// Goes on with what a connection does, as far as the next place where it may have to wait. A call is posted, and
/// collected at the next step.
pub(crate) fn step<V: Served, R: Wait, C: Clock, N: Conn>(
    rt: &R,
    alloc: Global,
    routes: &Routes,
    access: &Access,
    desk: &Desk<V>,
    seat: Seat,
    clock: &C,
    conn: &mut N,
    inbox: &mut Inbox,
    doing: &mut Doing,
) -> (Seat, Went)
    requires desk { IsOf desk.now (sitting_of seat) }
    requires order { IsInOrderAt seat doing.old }
    ensures steps { (s : Start) → s.access ≡ access.now → IsDoingAt (C.reads clock.now) s (here_with N.Conn (sitting_of seat) inbox.old conn.old) seat doing.old
        → IsNextAt (C.reads clock.now) s (here_with N.Conn (sitting_of result.0) inbox.new conn.new) result.0 result.1 doing.new }
    ensures desk { IsOf desk.now (sitting_of result.0) }
    ensures order { IsInOrderAt result.0 doing.new }
{
    match seat {
        Seat::Free(pass) => go(
            rt, alloc, routes, access, desk, pass, clock, conn, inbox, doing,
        ),
        Seat::Posts(sent) => {
            let (pass, went) = go_behind(rt, desk, clock, sent, doing);
            (Seat::Free(pass), went)
        }
    }
}

/// The same, but a call is collected at once.
pub(crate) fn step_through<V: Served, R: Wait, C: Clock, N: Conn>(
    rt: &R,
    alloc: Global,
    routes: &Routes,
    access: &Access,
    desk: &Desk<V>,
    pass: Pass,
    clock: &C,
    conn: &mut N,
    inbox: &mut Inbox,
    doing: &mut Doing,
) -> (Pass, Went)
    requires desk { IsOf desk.now pass }
    requires order { IsDoingInOrder doing.old }
    ensures steps { Steps (C.reads clock.now) access.now (here_with N.Conn pass inbox.old conn.old) doing.old
        (here_with N.Conn result.0 inbox.new conn.new) result.1 doing.new }
    ensures desk { IsOf desk.now result.0 }
    ensures order { IsDoingInOrder doing.new }
{
    let (seat, went) = go(
        rt, alloc, routes, access, desk, pass, clock, conn, inbox, doing,
    );
    match seat {
        Seat::Free(pass) => (pass, went),
        Seat::Posts(sent) => go_behind(rt, desk, clock, sent, doing),
    }
}

// Collects a call, and goes on with what came of it.
fn go_behind<V: Served, R: Wait, C: Clock>(
    rt: &R,
    desk: &Desk<V>,
    clock: &C,
    sent: Sent,
    doing: &mut Doing,
) -> (Pass, Went)
    requires desk { IsOf desk.now sent.posted.pass }
    requires order { IsPendingInOrder sent.pending sent.posted.call }
    ensures steps { (s : Start) (h : Here) → IsPosted (C.reads clock.now) s h sent.posted sent.pending → IsNext (C.reads clock.now) s (record h { pass = result.0 }) result.1 doing.new }
    ensures desk { IsOf desk.now result.0 }
    ensures order { IsDoingInOrder doing.new }
{
    let (pass, begun) = collect(rt, desk, clock, sent);
    (pass, begin(doing, begun))
}

// A step with a pass.
fn go<V: Served, R: Wait, C: Clock, N: Conn>(
    rt: &R,
    alloc: Global,
    routes: &Routes,
    access: &Access,
    desk: &Desk<V>,
    pass: Pass,
    clock: &C,
    conn: &mut N,
    inbox: &mut Inbox,
    doing: &mut Doing,
) -> (Seat, Went)
    requires desk { IsOf desk.now pass }
    requires order { IsDoingInOrder doing.old }
    ensures steps { StepsTo (C.reads clock.now) access.now (here_with N.Conn pass inbox.old conn.old) doing.old
        (here_with N.Conn (sitting_of result.0) inbox.new conn.new) result.0 result.1 doing.new }
    ensures desk { IsOf desk.now (sitting_of result.0) }
    ensures order { IsInOrderAt result.0 doing.new }
{
    match doing {
        Doing::Reads => read_on(
            rt, alloc, routes, access, desk, pass, clock, conn, inbox, doing,
        ),
        Doing::Asks(_) => wait_on(rt, alloc, access, desk, pass, clock, conn, inbox, doing),
        Doing::Calls(script) => {
            let script = take_script(alloc, script);
            let seat = call_on(rt, access, desk, pass, clock, script, doing);
            (seat, Went::On)
        }
        Doing::Says(script, form, answer) => {
            if !say_on(alloc, access, clock, script, *form, answer) {
                return (Seat::Free(pass), Went::Blocked);
            }
            let script = take_script(alloc, script);
            turn(doing, Doing::Calls(script));
            (Seat::Free(pass), Went::On)
        }
        Doing::Tells(telling) => match tell_on(alloc, access, desk, clock, conn, telling) {
            Some(outgoing) => {
                turn(doing, Doing::Writes(outgoing));
                (Seat::Free(pass), Went::On)
            }
            None => (Seat::Free(pass), Went::Blocked),
        },
        Doing::Writes(outgoing) => {
            if outgoing.at < outgoing.bytes.len() {
                let went = write_on(access, clock, conn, outgoing);
                return (Seat::Free(pass), went);
            }
            let after = outgoing.after;
            turn(doing, Doing::Reads);
            (Seat::Free(pass), behind(after))
        }
    }
}

// Takes the next request, where it is whole, and posts its call, or refuses it. Where there is no memory
// for what has come, that is tried again.
fn read_on<V: Served, R: Wait, C: Clock, N: Conn>(
    rt: &R,
    alloc: Global,
    routes: &Routes,
    access: &Access,
    desk: &Desk<V>,
    pass: Pass,
    clock: &C,
    conn: &mut N,
    inbox: &mut Inbox,
    doing: &mut Doing,
) -> (Seat, Went)
    requires desk { IsOf desk.now pass }
    requires reads { doing.old ≡ Reads }
    ensures steps { StepsTo (C.reads clock.now) access.now (here_with N.Conn pass inbox.old conn.old) Reads
        (here_with N.Conn (sitting_of result.0) inbox.new conn.new) result.0 result.1 doing.new }
    ensures desk { IsOf desk.now (sitting_of result.0) }
    ensures order { IsInOrderAt result.0 doing.new }
{
    match inbox.next(rt, alloc, routes, access, conn) {
        Came::Asked(ask, closes) => match answer(rt, alloc, desk, pass, clock, ask, closes) {
            Asked::Posts(sent) => (Seat::Posts(sent), Went::On),
            Asked::Begins(pass, begun) => (Seat::Free(pass), begin(doing, begun)),
        },
        Came::NothingYet => (Seat::Free(pass), Went::NothingYet),
        Came::Refused(fault) => {
            let bytes = refusal_bytes(alloc, fault);
            let went = refusing(doing, bytes, refusal_ending(fault));
            (Seat::Free(pass), went)
        }
        Came::Over(ending) => (Seat::Free(pass), Went::Over(ending)),
        Came::NoMemory => (Seat::Free(pass), Went::Blocked),
    }
}

// Posts the next call of what waits, or gives it up where its caller has gone.
fn wait_on<V: Served, R: Wait, C: Clock, N: Conn>(
    rt: &R,
    alloc: Global,
    access: &Access,
    desk: &Desk<V>,
    pass: Pass,
    clock: &C,
    conn: &mut N,
    inbox: &mut Inbox,
    doing: &mut Doing,
) -> (Seat, Went)
    requires desk { IsOf desk.now pass }
    requires order { IsDoingInOrder doing.old }
    requires asks { doings.asks doing.old ≡ true }
    ensures steps { StepsTo (C.reads clock.now) access.now (here_with N.Conn pass inbox.old conn.old) doing.old
        (here_with N.Conn (sitting_of result.0) inbox.new conn.new) result.0 result.1 doing.new }
    ensures desk { IsOf desk.now (sitting_of result.0) }
    ensures order { IsInOrderAt result.0 doing.new }
{
    let _ = access;
    let old = mem::replace(doing, Doing::Reads);
    let Doing::Asks(patience) = old else {
        unreachable!()
    };
    if inbox.watch(alloc, conn) {
        desk.board().goes_on();
        turn(doing, Doing::Tells(farewell(patience)));
        return (Seat::Free(pass), Went::On);
    }
    let sent = post_again(rt, desk, pass, clock, patience);
    (Seat::Posts(sent), Went::On)
}

// Begins to write a response, if there is memory for it.
fn tell_on<V: Served, C: Clock, N: Conn>(
    alloc: Global,
    access: &Access,
    desk: &Desk<V>,
    clock: &C,
    conn: &mut N,
    telling: &Telling,
) -> Option<Outgoing>
    ensures steps { (pass : Sitting) (stand : Stand) (reads : ℕ) → Steps (C.reads clock.now) access.now (record { pass = pass; stand = stand; written = N.given conn.old; reads = reads; writes = N.writes conn.old }) (Tells telling.now)
        (record { pass = pass; stand = stand; written = N.given conn.new; reads = reads; writes = N.writes conn.new }) (doings.told_by result) (doings.telling result telling.now) }
    ensures left { N.left conn.new ≡ N.left conn.old }
    ensures reads { N.reads conn.new ≡ N.reads conn.old }
{
    let _ = access;
    let Ok(bytes) = bytes_for(alloc, desk, clock, telling) else {
        return None;
    };
    conn.answered(&bytes);
    Some(Outgoing {
        bytes,
        at: 0,
        after: telling.after,
    })
}

// The bytes of the response.
fn bytes_for<V: Served, C: Clock>(
    alloc: Global,
    desk: &Desk<V>,
    clock: &C,
    telling: &Telling,
) -> Result<Vec<u8>, AllocError>
    ensures { IfOk result (λ v. doings.Says telling.now.said telling.now.closes v.items) }
{
    let numbers = numbers_for(alloc, desk, clock, telling)?;
    response_to(alloc, telling, &numbers)
}

// The numbers of the server, where the response shows some.
fn numbers_for<V: Served, C: Clock>(
    alloc: Global,
    desk: &Desk<V>,
    clock: &C,
    telling: &Telling,
) -> Result<Numbers, AllocError> {
    if let Said::Call { wanted, .. } = &telling.said {
        if shows_numbers(wanted.sight) {
            return desk.board().numbers(alloc, clock.now());
        }
    }
    Ok(Numbers::none(alloc))
}

// Writes some more of a response.
fn write_on<C: Clock, N: Conn>(
    access: &Access,
    clock: &C,
    conn: &mut N,
    outgoing: &mut Outgoing,
) -> Went
    requires { outgoing.old.at < length outgoing.old.bytes.items }
    ensures steps { (pass : Sitting) (stand : Stand) (reads : ℕ) → Steps (C.reads clock.now) access.now (record { pass = pass; stand = stand; written = N.given conn.old; reads = reads; writes = N.writes conn.old }) (Writes outgoing.old)
        (record { pass = pass; stand = stand; written = N.given conn.new; reads = reads; writes = N.writes conn.new }) result (Writes outgoing.new) }
    ensures left { N.left conn.new ≡ N.left conn.old }
    ensures reads { N.reads conn.new ≡ N.reads conn.old }
{
    let _ = access;
    let _ = clock;
    let Ok(wrote) = conn.write(&outgoing.bytes[outgoing.at..]) else {
        return Went::Over(Ending::WriteFault);
    };
    let Some(count) = wrote else {
        return Went::Blocked;
    };
    outgoing.at += count;
    Went::On
}

// A refusal is written, if there is memory for it: no request was taken.
fn refusing(doing: &mut Doing, bytes: Result<Vec<u8>, AllocError>, ending: Ending) -> Went
    ensures went { result ≡ doings.refused_by bytes }
    ensures doing { doing.new ≡ doings.refusing bytes ending doing.old }
{
    let Ok(bytes) = bytes else {
        return Went::Over(Ending::OutOfMemory);
    };
    let outgoing = Outgoing {
        bytes,
        at: 0,
        after: Some(ending),
    };
    turn(doing, Doing::Writes(outgoing));
    Went::On
}

fn refusal_status(fault: HttpFault) -> Status
    ensures { result ≡ talks.refusal_status fault }
{
    match fault {
        HttpFault::BadHead => Status::BadRequest,
        HttpFault::HeadTooLarge => Status::HeaderFieldsTooLarge,
        HttpFault::BodyTooLarge => Status::PayloadTooLarge,
    }
}

fn refusal_ending(fault: HttpFault) -> Ending
    ensures { result ≡ talks.refusal_ending fault }
{
    match fault {
        HttpFault::BadHead => Ending::BadHead,
        HttpFault::HeadTooLarge => Ending::HeadTooLarge,
        HttpFault::BodyTooLarge => Ending::BodyTooLarge,
    }
}

// The response where the bytes are refused.
fn refusal_bytes(alloc: Global, fault: HttpFault) -> Result<Vec<u8>, AllocError>
    ensures { IfOk result (λ v. v.items ≡ talks.refusal_bytes fault) }
{
    let response = Response {
        status: refusal_status(fault),
        headers: Vec::new(alloc),
        body: Vec::new(alloc),
        closes: true,
    };
    write_response(alloc, &response)
}
