// Several doors at once, each with a worker, and the workers shared among threads.
ghost use Rattle.std.specs.Prelude.{◌≡◌, ◌≤◌, ◌<◌, ℕ, true, All, length, slice_index_or};
ghost use Rattle.sb_desk.specs.Desks.{IsOf};
ghost use Rattle.sb_desk.specs.Lists.{Each};
ghost use Rattle.sb_server.specs.declared.doors.Round.TheVariants.{AllOver};
ghost use Rattle.sb_server.specs.Works.{ConnectionServed};
ghost use Rattle.sb_server.specs.Serves.{HasPass, Did, IsAtWork, HasCome, WorkerDid, AllServedOrNone, are_over};
ghost use Rattle.sb_server.specs.Stages.{is_over};

use crate::arrivals::tell;
use crate::ending::ServeEnding;
use crate::job::{Job, ending_of, pair_up, put_back};
use crate::limits::Limits;
use crate::seat::{Seat, sit};
use crate::stage::{is_over, stop_at};
use crate::work::go_on;
use sb_desk::{Desk, Pass, Served};
use sb_outside::{Clock, Door, Lobby};
use sb_rest::Access;
use sb_routes::Routes;
use std::alloc::Global;
use std::sync::Wait;
use std::thread::{Threads, for_each_chunk_mut};

// A worker makes so many steps at most before the others have their turn.
const STEPS_EACH: usize = 8;

// So many called workers go on before the calls that they posted are collected, and the clock is looked at.
const CALLS_EACH: usize = 256;

/// Serves each door by a worker of its own with one of the last passes, at most so many connections
/// each, within these limits of time. Each thread has as many workers as the lobby says, and goes on with
/// those that it calls, each until it is blocked or has posted a call; then it collects all that were posted, which
/// are carried out together. Where none may go on it waits in the lobby. Where no further thread can be made, the
/// shares are served one after the other. Passes and doors stand in their lists as before.
pub fn serve<
    V: Served + Send,
    R: Threads + Wait + Sync,
    C: Clock + Sync,
    L: Lobby + Sync,
    D: Door + Send,
>(
    rt: &R,
    alloc: Global,
    routes: &Routes,
    access: &Access,
    limits: Limits,
    desk: &Desk<V>,
    passes: &mut Vec<Pass>,
    doors: &mut Vec<D>,
    clock: &C,
    lobby: &L,
    most: u64,
) -> ServeEnding
where
    D::Conn: Send,
    requires enough { length doors.old.items ≤ length passes.old.items }
    requires desk { Each (IsOf desk.now) passes.old.items }
    ensures serves { AllServedOrNone (WorkerDid D.Door (ConnectionServed D.Conn.Conn (C.reads clock.now) access.now limits) desk.now most) passes.old.items passes.new.items doors.old.items doors.new.items result }
    ensures desk { (length passes.new.items ≡ length passes.old.items) × Each (IsOf desk.now) passes.new.items }
{
    begins(desk, clock, lobby, doors.len());
    let Ok(room) = Vec::with_capacity(alloc, doors.len()) else {
        return ServeEnding::OutOfMemory;
    };
    let mut jobs = pair_up(room, passes, doors, most);
    serve_doors(
        rt,
        alloc,
        routes,
        access,
        limits,
        desk,
        clock,
        lobby,
        most,
        jobs.as_mut_slice(),
    );
    let ending = ending_of(jobs.as_slice());
    put_back(jobs, passes, doors);
    ending
}

// Notes on the desk's board when the server begins, and with how many threads and workers.
fn begins<V: Served, C: Clock, L: Lobby>(desk: &Desk<V>, clock: &C, lobby: &L, workers: usize) {
    let threads = workers.div_ceil(lobby.share().max(1));
    desk.board()
        .begins(clock.now(), threads as u64, workers as u64);
}

// Shares the workers among threads, each of which goes round its own.
fn serve_doors<
    V: Served + Send,
    R: Threads + Wait + Sync,
    C: Clock + Sync,
    L: Lobby + Sync,
    D: Door + Send,
>(
    rt: &R,
    alloc: Global,
    routes: &Routes,
    access: &Access,
    limits: Limits,
    desk: &Desk<V>,
    clock: &C,
    lobby: &L,
    most: u64,
    jobs: &mut [Job<D, D::Conn>],
)
where
    D::Conn: Send,
    requires { All (λ j. HasPass desk.now most j) jobs.old }
    ensures { (i : ℕ) (d : Job D D.Conn) → i < length jobs.old
        → Did (WorkerDid D.Door (ConnectionServed D.Conn.Conn (C.reads clock.now) access.now limits) desk.now most) (slice_index_or jobs.old i d) (slice_index_or jobs.new i d) }
{
    for_each_chunk_mut(
        rt,
        jobs,
        lobby.share().max(1),
        &|first: usize, share: &mut [Job<D, D::Conn>]|
            requires { All (λ j. IsAtWork D.out desk.now j) share.now }
            ensures { (most i : ℕ) (d : Job D D.Conn) → i < length share.entry.now → HasPass desk.entry.now most (slice_index_or share.entry.now i d)
                → Did (WorkerDid D.Door (ConnectionServed D.Conn.Conn (C.reads clock.entry.now) access.entry.now limits) desk.entry.now most) (slice_index_or share.entry.now i d) (slice_index_or share.exit.now i d) }
        {
            serve_share(
                rt, alloc, routes, access, limits, desk, clock, lobby, first, share,
            )
        },
    );
}

// The workers of one thread: those that are called go on until each is over, and where none may it waits. No call is
// posted then but by a worker that is called, or is to be looked at at once.
fn serve_share<V: Served, R: Wait, C: Clock, L: Lobby, D: Door>(
    rt: &R,
    alloc: Global,
    routes: &Routes,
    access: &Access,
    limits: Limits,
    desk: &Desk<V>,
    clock: &C,
    lobby: &L,
    first: usize,
    jobs: &mut [Job<D, D::Conn>],
)
    requires { All (λ j. IsAtWork D.out desk.now j) jobs.old }
    ensures { (most i : ℕ) (d : Job D D.Conn) → i < length jobs.old → HasPass desk.now most (slice_index_or jobs.old i d)
        → Did (WorkerDid D.Door (ConnectionServed D.Conn.Conn (C.reads clock.now) access.now limits) desk.now most) (slice_index_or jobs.old i d) (slice_index_or jobs.new i d) }
{
    // At which reading a worker is looked at again, at the least; 0 where all are to be looked at.
    let mut soonest = 0;
    for _ in rt.forever() {
        match go_round(
            rt, alloc, routes, access, limits, desk, clock, lobby, first, soonest, jobs,
        ) {
            Round::AllOver => return,
            Round::Moves(again) => soonest = again,
            Round::Blocked(until) => soonest = behind_wait(clock, lobby, first, until),
        }
    }
    unreachable!()
}

// Waits in the lobby. At which reading a worker is looked at again, at the least; 0 where all are to be
// looked at.
fn behind_wait<C: Clock, L: Lobby>(clock: &C, lobby: &L, first: usize, until: u64) -> u64 {
    if lobby.wait(clock, first, until) {
        return 0;
    }
    until
}

/// What a round came to. It says at which reading a worker is looked at again, at the least.
#[derive(Clone, Copy, PartialEq, Eq)]
pub(crate) enum Round {
    /// Each worker is over.
    AllOver,
    /// One may go on at once.
    Moves(u64),
    /// None may go on before this reading, if nothing else happens.
    Blocked(u64),
}

/// What is known of workers that were looked at: at which reading one is looked at again, at the least, and
/// whether one is over.
#[derive(Clone, Copy)]
struct Looked {
    soonest: u64,
    over: bool,
}

// Nothing is known.
const NOTHING: Looked = Looked {
    soonest: u64::MAX,
    over: false,
};

// What is known of workers that aren't looked at before this reading.
fn unlooked(soonest: u64) -> Looked {
    Looked {
        soonest,
        over: false,
    }
}

// What is known of these and of those.
fn both(these: Looked, those: Looked) -> Looked {
    Looked {
        soonest: these.soonest.min(those.soonest),
        over: these.over || those.over,
    }
}

// Each worker of a thread that is called goes on, where no reading has come, and else each for which it has;
// all where that is 0.
fn go_round<V: Served, R: Wait, C: Clock, L: Lobby, D: Door>(
    rt: &R,
    alloc: Global,
    routes: &Routes,
    access: &Access,
    limits: Limits,
    desk: &Desk<V>,
    clock: &C,
    lobby: &L,
    first: usize,
    soonest: u64,
    jobs: &mut [Job<D, D::Conn>],
) -> Round
    requires { All (λ j. IsAtWork D.out desk.now j) jobs.old }
    ensures work { All (λ j. IsAtWork D.out desk.now j) jobs.new }
    ensures come { (most : ℕ) (began : Job D D.Conn) (i : ℕ) (d : Job D D.Conn) → i < length jobs.old
        → HasCome D.Door D.Conn.Conn (C.reads clock.now) access.now limits most began (slice_index_or jobs.old i d)
        → HasCome D.Door D.Conn.Conn (C.reads clock.now) access.now limits most began (slice_index_or jobs.new i d) }
    ensures over { result ≡ AllOver → All (λ j. is_over j.stage ≡ true) jobs.new }
{
    let now = reading_for(clock, soonest);
    let looked = look(
        rt, alloc, routes, access, limits, desk, clock, lobby, first, soonest, now, jobs,
    );
    if all_over(looked, jobs) {
        return Round::AllOver;
    }
    if looked.soonest <= now {
        return Round::Moves(looked.soonest);
    }
    Round::Blocked(looked.soonest)
}

// The clock's reading, where it matters for this one.
fn reading_for<C: Clock>(clock: &C, soonest: u64) -> u64 {
    if soonest == u64::MAX {
        return 0;
    }
    clock.now()
}

// Whether each worker is over, where one of those that were looked at is.
fn all_over<D, N>(looked: Looked, jobs: &[Job<D, N>]) -> bool
    ensures { result ≡ true → All (λ j. is_over j.stage ≡ true) jobs.now }
{
    looked.over && are_over(jobs)
}

// The workers go on that are to be looked at in a round that begins at this reading.
fn look<V: Served, R: Wait, C: Clock, L: Lobby, D: Door>(
    rt: &R,
    alloc: Global,
    routes: &Routes,
    access: &Access,
    limits: Limits,
    desk: &Desk<V>,
    clock: &C,
    lobby: &L,
    first: usize,
    soonest: u64,
    now: u64,
    jobs: &mut [Job<D, D::Conn>],
) -> Looked
    requires { All (λ j. IsAtWork D.out desk.now j) jobs.old }
    ensures work { All (λ j. IsAtWork D.out desk.now j) jobs.new }
    ensures come { (most : ℕ) (began : Job D D.Conn) (i : ℕ) (d : Job D D.Conn) → i < length jobs.old
        → HasCome D.Door D.Conn.Conn (C.reads clock.now) access.now limits most began (slice_index_or jobs.old i d)
        → HasCome D.Door D.Conn.Conn (C.reads clock.now) access.now limits most began (slice_index_or jobs.new i d) }
{
    if now < soonest {
        let looked = drain(
            rt, alloc, routes, access, limits, desk, clock, lobby, first, jobs,
        );
        return both(looked, unlooked(soonest));
    }
    let due = due_by(soonest, now);
    sweep(
        rt, alloc, routes, access, limits, desk, clock, lobby, first, due, jobs,
    )
}

// Up to which reading workers go on in a sweep.
fn due_by(soonest: u64, now: u64) -> u64 {
    if soonest == 0 {
        return u64::MAX;
    }
    now
}

// Each worker goes on that is to be looked at by this reading, and then each that has posted a call.
fn sweep<V: Served, R: Wait, C: Clock, L: Lobby, D: Door>(
    rt: &R,
    alloc: Global,
    routes: &Routes,
    access: &Access,
    limits: Limits,
    desk: &Desk<V>,
    clock: &C,
    lobby: &L,
    first: usize,
    due: u64,
    jobs: &mut [Job<D, D::Conn>],
) -> Looked
    requires { All (λ j. IsAtWork D.out desk.now j) jobs.old }
    ensures work { All (λ j. IsAtWork D.out desk.now j) jobs.new }
    ensures come { (most : ℕ) (began : Job D D.Conn) (i : ℕ) (d : Job D D.Conn) → i < length jobs.old
        → HasCome D.Door D.Conn.Conn (C.reads clock.now) access.now limits most began (slice_index_or jobs.old i d)
        → HasCome D.Door D.Conn.Conn (C.reads clock.now) access.now limits most began (slice_index_or jobs.new i d) }
{
    let these = go_due(
        rt, alloc, routes, access, limits, desk, clock, lobby, first, due, jobs,
    );
    let those = collect_all(
        rt, alloc, routes, access, limits, desk, clock, lobby, first, jobs,
    );
    both(these, those)
}

// Each worker goes on that is to be looked at by this reading.
fn go_due<V: Served, R: Wait, C: Clock, L: Lobby, D: Door>(
    rt: &R,
    alloc: Global,
    routes: &Routes,
    access: &Access,
    limits: Limits,
    desk: &Desk<V>,
    clock: &C,
    lobby: &L,
    first: usize,
    due: u64,
    jobs: &mut [Job<D, D::Conn>],
) -> Looked
    requires { All (λ j. IsAtWork D.out desk.now j) jobs.old }
    ensures work { All (λ j. IsAtWork D.out desk.now j) jobs.new }
    ensures come { (most : ℕ) (began : Job D D.Conn) (i : ℕ) (d : Job D D.Conn) → i < length jobs.old
        → HasCome D.Door D.Conn.Conn (C.reads clock.now) access.now limits most began (slice_index_or jobs.old i d)
        → HasCome D.Door D.Conn.Conn (C.reads clock.now) access.now limits most began (slice_index_or jobs.new i d) }
{
    let mut looked = NOTHING;
    for i in 0..jobs.len() {
        let this = go_at(
            rt, alloc, routes, access, limits, desk, clock, lobby, first, due, i, jobs,
        );
        looked = both(looked, this);
    }
    looked
}

// Each worker goes on that has posted a call, the last first: so the desk takes what was posted from its list's end.
fn collect_all<V: Served, R: Wait, C: Clock, L: Lobby, D: Door>(
    rt: &R,
    alloc: Global,
    routes: &Routes,
    access: &Access,
    limits: Limits,
    desk: &Desk<V>,
    clock: &C,
    lobby: &L,
    first: usize,
    jobs: &mut [Job<D, D::Conn>],
) -> Looked
    requires { All (λ j. IsAtWork D.out desk.now j) jobs.old }
    ensures work { All (λ j. IsAtWork D.out desk.now j) jobs.new }
    ensures come { (most : ℕ) (began : Job D D.Conn) (i : ℕ) (d : Job D D.Conn) → i < length jobs.old
        → HasCome D.Door D.Conn.Conn (C.reads clock.now) access.now limits most began (slice_index_or jobs.old i d)
        → HasCome D.Door D.Conn.Conn (C.reads clock.now) access.now limits most began (slice_index_or jobs.new i d) }
{
    let mut looked = NOTHING;
    let count = jobs.len();
    for k in 0..count {
        let i = count - 1 - k;
        let this = collect_at(
            rt, alloc, routes, access, limits, desk, clock, lobby, first, i, jobs,
        );
        looked = both(looked, this);
    }
    looked
}

// The workers that are called go on, one after the other, so many at most, and then each of them that has posted
// a call.
fn drain<V: Served, R: Wait, C: Clock, L: Lobby, D: Door>(
    rt: &R,
    alloc: Global,
    routes: &Routes,
    access: &Access,
    limits: Limits,
    desk: &Desk<V>,
    clock: &C,
    lobby: &L,
    first: usize,
    jobs: &mut [Job<D, D::Conn>],
) -> Looked
    requires { All (λ j. IsAtWork D.out desk.now j) jobs.old }
    ensures work { All (λ j. IsAtWork D.out desk.now j) jobs.new }
    ensures come { (most : ℕ) (began : Job D D.Conn) (i : ℕ) (d : Job D D.Conn) → i < length jobs.old
        → HasCome D.Door D.Conn.Conn (C.reads clock.now) access.now limits most began (slice_index_or jobs.old i d)
        → HasCome D.Door D.Conn.Conn (C.reads clock.now) access.now limits most began (slice_index_or jobs.new i d) }
{
    let mut called = [usize::MAX; CALLS_EACH];
    let these = go_called(
        rt,
        alloc,
        routes,
        access,
        limits,
        desk,
        clock,
        lobby,
        first,
        &mut called,
        jobs,
    );
    let those = collect_called(
        rt, alloc, routes, access, limits, desk, clock, lobby, first, &called, jobs,
    );
    both(these, those)
}

// The workers that are called go on, one after the other, so many as this list has room for. It says which they are.
fn go_called<V: Served, R: Wait, C: Clock, L: Lobby, D: Door>(
    rt: &R,
    alloc: Global,
    routes: &Routes,
    access: &Access,
    limits: Limits,
    desk: &Desk<V>,
    clock: &C,
    lobby: &L,
    first: usize,
    called: &mut [usize],
    jobs: &mut [Job<D, D::Conn>],
) -> Looked
    requires { All (λ j. IsAtWork D.out desk.now j) jobs.old }
    ensures work { All (λ j. IsAtWork D.out desk.now j) jobs.new }
    ensures come { (most : ℕ) (began : Job D D.Conn) (i : ℕ) (d : Job D D.Conn) → i < length jobs.old
        → HasCome D.Door D.Conn.Conn (C.reads clock.now) access.now limits most began (slice_index_or jobs.old i d)
        → HasCome D.Door D.Conn.Conn (C.reads clock.now) access.now limits most began (slice_index_or jobs.new i d) }
{
    let mut looked = NOTHING;
    for k in 0..called.len() {
        let Some(number) = lobby.called(first) else {
            break;
        };
        let i = number.saturating_sub(first);
        called[k] = i;
        let this = go_at(
            rt,
            alloc,
            routes,
            access,
            limits,
            desk,
            clock,
            lobby,
            first,
            u64::MAX,
            i,
            jobs,
        );
        looked = both(looked, this);
    }
    looked
}

// Of these workers each goes on that has posted a call, the last first.
fn collect_called<V: Served, R: Wait, C: Clock, L: Lobby, D: Door>(
    rt: &R,
    alloc: Global,
    routes: &Routes,
    access: &Access,
    limits: Limits,
    desk: &Desk<V>,
    clock: &C,
    lobby: &L,
    first: usize,
    called: &[usize],
    jobs: &mut [Job<D, D::Conn>],
) -> Looked
    requires { All (λ j. IsAtWork D.out desk.now j) jobs.old }
    ensures work { All (λ j. IsAtWork D.out desk.now j) jobs.new }
    ensures come { (most : ℕ) (began : Job D D.Conn) (i : ℕ) (d : Job D D.Conn) → i < length jobs.old
        → HasCome D.Door D.Conn.Conn (C.reads clock.now) access.now limits most began (slice_index_or jobs.old i d)
        → HasCome D.Door D.Conn.Conn (C.reads clock.now) access.now limits most began (slice_index_or jobs.new i d) }
{
    let mut looked = NOTHING;
    for k in 0..called.len() {
        let i = called[called.len() - 1 - k];
        let this = collect_at(
            rt, alloc, routes, access, limits, desk, clock, lobby, first, i, jobs,
        );
        looked = both(looked, this);
    }
    looked
}

// The worker at this place of the list goes on, if it is there and is to be looked at by this reading.
fn go_at<V: Served, R: Wait, C: Clock, L: Lobby, D: Door>(
    rt: &R,
    alloc: Global,
    routes: &Routes,
    access: &Access,
    limits: Limits,
    desk: &Desk<V>,
    clock: &C,
    lobby: &L,
    first: usize,
    due: u64,
    i: usize,
    jobs: &mut [Job<D, D::Conn>],
) -> Looked
    requires { All (λ j. IsAtWork D.out desk.now j) jobs.old }
    ensures work { All (λ j. IsAtWork D.out desk.now j) jobs.new }
    ensures come { (most : ℕ) (began : Job D D.Conn) (i : ℕ) (d : Job D D.Conn) → i < length jobs.old
        → HasCome D.Door D.Conn.Conn (C.reads clock.now) access.now limits most began (slice_index_or jobs.old i d)
        → HasCome D.Door D.Conn.Conn (C.reads clock.now) access.now limits most began (slice_index_or jobs.new i d) }
{
    if i >= jobs.len() {
        return NOTHING;
    }
    let number = first.saturating_add(i);
    go_job(
        rt,
        alloc,
        routes,
        access,
        limits,
        desk,
        clock,
        lobby,
        number,
        due,
        &mut jobs[i],
    )
}

// The worker at this place of the list goes on, if it is there and has posted a call.
fn collect_at<V: Served, R: Wait, C: Clock, L: Lobby, D: Door>(
    rt: &R,
    alloc: Global,
    routes: &Routes,
    access: &Access,
    limits: Limits,
    desk: &Desk<V>,
    clock: &C,
    lobby: &L,
    first: usize,
    i: usize,
    jobs: &mut [Job<D, D::Conn>],
) -> Looked
    requires { All (λ j. IsAtWork D.out desk.now j) jobs.old }
    ensures work { All (λ j. IsAtWork D.out desk.now j) jobs.new }
    ensures come { (most : ℕ) (began : Job D D.Conn) (i : ℕ) (d : Job D D.Conn) → i < length jobs.old
        → HasCome D.Door D.Conn.Conn (C.reads clock.now) access.now limits most began (slice_index_or jobs.old i d)
        → HasCome D.Door D.Conn.Conn (C.reads clock.now) access.now limits most began (slice_index_or jobs.new i d) }
{
    if i >= jobs.len() {
        return NOTHING;
    }
    let number = first.saturating_add(i);
    collect_job(
        rt,
        alloc,
        routes,
        access,
        limits,
        desk,
        clock,
        lobby,
        number,
        &mut jobs[i],
    )
}

// One worker goes on until it is blocked or has posted a call, if it is to be looked at by this reading.
fn go_job<V: Served, R: Wait, C: Clock, L: Lobby, D: Door>(
    rt: &R,
    alloc: Global,
    routes: &Routes,
    access: &Access,
    limits: Limits,
    desk: &Desk<V>,
    clock: &C,
    lobby: &L,
    number: usize,
    due: u64,
    job: &mut Job<D, D::Conn>,
) -> Looked
    requires { IsAtWork D.out desk.now job.old }
    ensures work { IsAtWork D.out desk.now job.new }
    ensures come { (most : ℕ) (began : Job D D.Conn) → HasCome D.Door D.Conn.Conn (C.reads clock.now) access.now limits most began job.old
        → HasCome D.Door D.Conn.Conn (C.reads clock.now) access.now limits most began job.new }
{
    if due < job.again {
        return unlooked(job.again);
    }
    let went = go_far(rt, alloc, routes, access, limits, desk, clock, job);
    if has_posted(job) {
        return NOTHING;
    }
    behind_steps(desk, lobby, number, went, job)
}

// One worker that has posted a call collects it, and goes on until it is blocked or has posted the next.
fn collect_job<V: Served, R: Wait, C: Clock, L: Lobby, D: Door>(
    rt: &R,
    alloc: Global,
    routes: &Routes,
    access: &Access,
    limits: Limits,
    desk: &Desk<V>,
    clock: &C,
    lobby: &L,
    number: usize,
    job: &mut Job<D, D::Conn>,
) -> Looked
    requires { IsAtWork D.out desk.now job.old }
    ensures work { IsAtWork D.out desk.now job.new }
    ensures come { (most : ℕ) (began : Job D D.Conn) → HasCome D.Door D.Conn.Conn (C.reads clock.now) access.now limits most began job.old
        → HasCome D.Door D.Conn.Conn (C.reads clock.now) access.now limits most began job.new }
{
    if !has_posted(job) {
        return NOTHING;
    }
    let went = collect_far(rt, alloc, routes, access, limits, desk, clock, job);
    behind_steps(desk, lobby, number, went, job)
}

// Whether a worker has posted a call that isn't collected yet.
fn has_posted<D, N>(job: &Job<D, N>) -> bool {
    matches!(&job.seat, Some(Seat::Posts(_)))
}

// What is known of a worker behind its steps. Where it may go on at once, it is put behind the others that are called,
// where the lobby does so, and else looked at again at once.
fn behind_steps<V: Served, L: Lobby, D, N>(
    desk: &Desk<V>,
    lobby: &L,
    number: usize,
    went: u64,
    job: &mut Job<D, N>,
) -> Looked
    ensures { (again : ℕ) × (job.new ≡ record job.old { again = again }) }
{
    tell(desk, lobby, number, &job.stage);
    let again = again_behind(lobby, number, went);
    job.again = again;
    Looked {
        soonest: again,
        over: is_over(&job.stage),
    }
}

// When a worker is looked at again, if nothing else happens, that is to be at this reading: where it may go on
// at once, it is called behind the others, if the lobby does so.
fn again_behind<L: Lobby>(lobby: &L, number: usize, went: u64) -> u64 {
    if went == 0 && lobby.call(number) {
        return u64::MAX;
    }
    went
}

// One worker goes on until it is blocked or has posted a call, some steps at most. At which reading it is looked
// at again.
fn go_far<V: Served, R: Wait, C: Clock, D: Door>(
    rt: &R,
    alloc: Global,
    routes: &Routes,
    access: &Access,
    limits: Limits,
    desk: &Desk<V>,
    clock: &C,
    job: &mut Job<D, D::Conn>,
) -> u64
    requires { IsAtWork D.out desk.now job.old }
    ensures work { IsAtWork D.out desk.now job.new }
    ensures come { (most : ℕ) (began : Job D D.Conn) → HasCome D.Door D.Conn.Conn (C.reads clock.now) access.now limits most began job.old
        → HasCome D.Door D.Conn.Conn (C.reads clock.now) access.now limits most began job.new }
{
    for _ in 0..STEPS_EACH {
        if has_posted(job) {
            return 0;
        }
        let again = go_once(rt, alloc, routes, access, limits, desk, clock, job);
        if again > 0 {
            return again;
        }
    }
    0
}

// The same, of one that collects the call that it has posted.
fn collect_far<V: Served, R: Wait, C: Clock, D: Door>(
    rt: &R,
    alloc: Global,
    routes: &Routes,
    access: &Access,
    limits: Limits,
    desk: &Desk<V>,
    clock: &C,
    job: &mut Job<D, D::Conn>,
) -> u64
    requires { IsAtWork D.out desk.now job.old }
    ensures work { IsAtWork D.out desk.now job.new }
    ensures come { (most : ℕ) (began : Job D D.Conn) → HasCome D.Door D.Conn.Conn (C.reads clock.now) access.now limits most began job.old
        → HasCome D.Door D.Conn.Conn (C.reads clock.now) access.now limits most began job.new }
{
    let again = go_once(rt, alloc, routes, access, limits, desk, clock, job);
    if again > 0 {
        return again;
    }
    go_far(rt, alloc, routes, access, limits, desk, clock, job)
}

// One worker makes one step. At which reading it is looked at again: 0 where it may go on at once.
fn go_once<V: Served, R: Wait, C: Clock, D: Door>(
    rt: &R,
    alloc: Global,
    routes: &Routes,
    access: &Access,
    limits: Limits,
    desk: &Desk<V>,
    clock: &C,
    job: &mut Job<D, D::Conn>,
) -> u64
    requires { IsAtWork D.out desk.now job.old }
    ensures work { IsAtWork D.out desk.now job.new }
    ensures come { (most : ℕ) (began : Job D D.Conn) → HasCome D.Door D.Conn.Conn (C.reads clock.now) access.now limits most began job.old
        → HasCome D.Door D.Conn.Conn (C.reads clock.now) access.now limits most began job.new }
{
    let Some(seat) = job.seat.take() else {
        unreachable!()
    };
    let (seat, again) = go_on(
        rt,
        alloc,
        routes,
        access,
        limits,
        desk,
        seat,
        clock,
        &mut job.door,
        &mut job.stage,
    );
    sit(&mut job.seat, seat);
    job.stop = stop_at(&job.stage, job.stop);
    again
}

fn are_over<D, N>(jobs: &[Job<D, N>]) -> bool
    ensures { result ≡ are_over jobs.now }
{
    jobs.iter().all(|job| is_over(&job.stage))
}
