// A door with its worker.
ghost use Rattle.std.specs.Prelude.{◌≡◌, ◌+◌, ◌≤◌, ◌<◌, [], ◌∷◌, ◌++◌, length, vec_capacity, true, Some};
ghost use Rattle.std.specs.List.{list_any};
ghost use Rattle.sb_desk.specs.Desks.{Sitting};
ghost use Rattle.sb_desk.specs.Lists.{Each};
ghost use Rattle.sb_server.specs.Serves as serves;
ghost use Rattle.sb_server.specs.declared.seat.Seat.TheVariants.{Free};
ghost use Rattle.sb_server.specs.declared.stage.Stage.TheVariants.{Wants};

use crate::ending::ServeEnding;
use crate::seat::Seat;
use crate::stage::{Stage, let_go};
use crate::work::Stop;
use sb_desk::Pass;

/// A door with its worker: what that one makes its calls with, where it stands, and why it ended.
#[derive(Drop)]
pub(crate) struct Job<D, N> {
    pub(crate) seat: Option<Seat>,
    pub(crate) door: D,
    pub(crate) stage: Stage<N>,
    pub(crate) stop: Stop,
    // At which reading it is looked at again, if nothing else happens.
    pub(crate) again: u64,
}

/// A job for each door, the last first, each with one of the last passes. Each worker is to serve so
/// many connections at most.
pub(crate) fn pair_up<D, N>(
    room: Vec<Job<D, N>>,
    passes: &mut Vec<Pass>,
    doors: &mut Vec<D>,
    most: u64,
) -> Vec<Job<D, N>>
    requires room { (room.items ≡ []) × (length doors.old.items ≤ vec_capacity room) }
    requires enough { length doors.old.items ≤ length passes.old.items }
    ensures doors { (doors.old.items ≡ serves.doors_in result.items) × (doors.new.items ≡ []) }
    ensures passes { passes.old.items ≡ passes.new.items ++ serves.passes_in result.items }
    ensures manned { Each (serves.IsManned most) result.items }
    ensures capacity { (vec_capacity doors.new ≡ vec_capacity doors.old) × (vec_capacity passes.new ≡ vec_capacity passes.old) }
{
    let mut jobs = room;
    while let Some(door) = doors.pop() {
        jobs.push_reserved(man(passes, door, most));
    }
    jobs
}

// A job at this door, with the last pass.
fn man<D, N>(passes: &mut Vec<Pass>, door: D, most: u64) -> Job<D, N>
    requires { 0 < length passes.old.items }
    ensures stage { result.stage ≡ Wants most }
    ensures door { result.door ≡ door }
    ensures pass { (pass : Sitting) × (result.seat ≡ Some (Free pass)) × (passes.old.items ≡ passes.new.items ++ pass ∷ []) }
    ensures capacity { vec_capacity passes.new ≡ vec_capacity passes.old }
{
    let Some(pass) = passes.pop() else {
        unreachable!()
    };
    Job {
        seat: Some(Seat::Free(pass)),
        door,
        stage: Stage::Wants(most),
        stop: Stop::Enough,
        again: 0,
    }
}

/// Gives passes and doors of workers that are over back, in their order.
pub(crate) fn put_back<D, N>(jobs: Vec<Job<D, N>>, passes: &mut Vec<Pass>, doors: &mut Vec<D>)
    requires over { serves.are_over jobs.items ≡ true }
    requires doors { length doors.old.items + length jobs.items ≤ vec_capacity doors.old }
    requires passes { length passes.old.items + length jobs.items ≤ vec_capacity passes.old }
    ensures doors { doors.new.items ≡ doors.old.items ++ serves.doors_in jobs.items }
    ensures passes { passes.new.items ≡ passes.old.items ++ serves.passes_in jobs.items }
{
    let mut jobs = jobs;
    while let Some(job) = jobs.pop() {
        let Job {
            seat,
            door,
            stage,
            stop: _,
            again: _,
        } = job;
        let_go(stage);
        doors.push_reserved(door);
        add_pass(passes, seat);
    }
    jobs.destroy_empty();
}

// The pass, where there is one, behind the others.
fn add_pass(passes: &mut Vec<Pass>, seat: Option<Seat>)
    requires { length passes.old.items < vec_capacity passes.old }
    ensures items { passes.new.items ≡ passes.old.items ++ serves.and_pass seat [] }
    ensures capacity { vec_capacity passes.new ≡ vec_capacity passes.old }
{
    match seat {
        Some(Seat::Free(pass)) => passes.push_reserved(pass),
        Some(Seat::Posts(sent)) => drop(sent),
        None => {}
    }
}

/// How serving ended, by what its workers ended for.
pub(crate) fn ending_of<D, N>(jobs: &[Job<D, N>]) -> ServeEnding
    ensures { result ≡ serves.serve_ending (serves.stops_in jobs.now) }
{
    if any_fault(jobs) {
        return ServeEnding::DoorFault;
    }
    if any_lost(jobs) {
        return ServeEnding::OutOfMemory;
    }
    ServeEnding::Done
}

fn any_fault<D, N>(jobs: &[Job<D, N>]) -> bool
    ensures { result ≡ list_any serves.is_fault (serves.stops_in jobs.now) }
{
    for job in jobs {
        if job.stop == Stop::Fault {
            return true;
        }
    }
    false
}

fn any_lost<D, N>(jobs: &[Job<D, N>]) -> bool
    ensures { result ≡ list_any serves.is_lost (serves.stops_in jobs.now) }
{
    for job in jobs {
        if job.stop == Stop::OutOfMemory {
            return true;
        }
    }
    false
}
