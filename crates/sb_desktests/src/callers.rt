//! Callers of a desk: two passes on one thread, and a thread for each pass.
ghost use Rattle.std.specs.Prelude.{◌≡◌, ℕ, List, ◌++◌, Option, length, IfOk, IfSome};
ghost use Rattle.sb_machine.specs.Ordered.{IsActInOrder};
ghost use Rattle.sb_machine.specs.declared.history.Entry.{Entry};
ghost use Rattle.sb_desk.specs.Desks.{Calls, IsOf, IsNew};
ghost use Rattle.sb_desk.specs.Entries.{made_by};
ghost use Rattle.sb_desk.specs.Lists.{Each, IsEnd};

use crate::one_queue::OneQueue;
use sb_desk::{Desk, Pass, Report, Served};
use sb_machine::{Answer, Answered, Call, Refusal, Reply};
use std::alloc::{AllocError, Global};
use std::sync::Wait;
use std::thread;
use std::thread::Threads;

/// The same creation at two passes on one thread, one call after the other: whether the first is carried out, whether
/// the second is refused since the queue is there, and the numbers of the history. `None` is want of memory.
pub(crate) fn on_one_thread<R: Wait>(
    rt: &R,
    alloc: Global,
    reading: u64,
    call: Call,
) -> Option<(bool, bool, Report)>
    requires { IsActInOrder call.act }
{
    let Ok((desk, passes)) = Desk::new(alloc, OneQueue::new(), 2) else {
        drop(call);
        return None;
    };
    let (one, other) = pair_of(&desk, passes);
    let (one, other, first, second) = one_then_other(rt, &desk, one, other, reading, call);
    let (is_done, is_there) = (is_done(first), is_there(second));
    let report = numbers_of_two(alloc, desk, one, other)?;
    Some((is_done, is_there, report))
}

/// The same, where both calls are posted before an answer is collected.
pub(crate) fn as_one_group<R: Wait>(
    rt: &R,
    alloc: Global,
    reading: u64,
    call: Call,
    same: Call,
) -> Option<(bool, bool, Report)>
    requires { IsActInOrder call.act × IsActInOrder same.act }
{
    let Ok((desk, passes)) = Desk::new(alloc, OneQueue::new(), 2) else {
        drop(call);
        drop(same);
        return None;
    };
    let (one, other) = pair_of(&desk, passes);
    let (one, other, first, second) = both_posted(rt, &desk, one, other, reading, call, same);
    let (is_done, is_there) = (is_done(first), is_there(second));
    let report = numbers_of_two(alloc, desk, one, other)?;
    Some((is_done, is_there, report))
}

// Whether a call was carried out.
fn is_done(answer: Answer) -> bool {
    let is_done = matches!(answer, Ok(Answered::New(Reply::Done)));
    drop(answer);
    is_done
}

// Whether a call was refused since its entity is there.
fn is_there(answer: Answer) -> bool {
    let is_there = matches!(answer, Err(Refusal::EntityExists));
    drop(answer);
    is_there
}

/// So many calls at each of eight passes, on as many threads: the numbers of their one history.
/// `None` is want of memory.
pub(crate) fn on_eight_threads<R: Threads + Wait + Sync>(
    rt: &R,
    alloc: Global,
    times: u64,
    call: &Call,
) -> Option<Report>
    requires { IsActInOrder call.now.act }
{
    let (desk, passes) = Desk::new(alloc, OneQueue::new(), 8).ok()?;
    match on_threads(rt, &desk, passes, times, call) {
        Ok(passes) => numbers_of(desk, passes),
        Err(_) => {
            drop(desk);
            None
        }
    }
}

// The numbers of a desk, which is closed.
fn numbers_of(desk: Desk<OneQueue>, passes: Vec<Pass>) -> Option<Report>
    requires { (length passes.items ≡ desk.passes) × Each (IsOf desk) passes.items }
{
    let (value, report) = desk.close(passes).ok()?;
    drop(value);
    Some(report)
}

// The numbers of a desk with these two passes, which is closed.
fn numbers_of_two(alloc: Global, desk: Desk<OneQueue>, one: Pass, other: Pass) -> Option<Report>
    requires passes { (desk.passes ≡ 2) × IsOf desk one × IsOf desk other }
{
    match list_of(alloc, &desk, one, other) {
        Some(passes) => numbers_of(desk, passes),
        None => {
            drop(desk);
            None
        }
    }
}

fn pair_of<V: Served>(desk: &Desk<V>, passes: Vec<Pass>) -> (Pass, Pass)
    requires { (length passes.items ≡ 2) × Each (IsNew desk.now) passes.items }
    ensures { IsNew desk.now result.0 × IsNew desk.now result.1 }
{
    let mut passes = passes;
    let other = passes.pop().unwrap();
    let one = passes.pop().unwrap();
    (one, other)
}

fn list_of<V: Served>(alloc: Global, desk: &Desk<V>, one: Pass, other: Pass) -> Option<Vec<Pass>>
    requires { IsOf desk.now one × IsOf desk.now other }
    ensures { IfSome result (λ v. (length v.items ≡ 2) × Each (IsOf desk.now) v.items) }
{
    let mut passes = Vec::new(alloc);
    passes.push(one).ok()?;
    passes.push(other).ok()?;
    Some(passes)
}

/// The first calls, the two tell each other, and then the other calls the same: it has seen both calls.
pub(crate) fn one_then_other<V: Served, R: Wait>(
    rt: &R,
    desk: &Desk<V>,
    one: Pass,
    other: Pass,
    reading: u64,
    call: Call,
) -> (Pass, Pass, Answer, Answer)
    requires new { IsNew desk.now one × IsNew desk.now other }
    requires order { IsActInOrder call.act }
    ensures seen { (t : Option ℕ) × (u : Option ℕ) × (a : List Entry) × (b : List Entry) × (result.1.seen ≡ a ++ b)
        × IsEnd (made_by one.seat t reading call result.2) a × IsEnd (made_by other.seat u reading call result.3) b }
    ensures desk { IsOf desk.now result.0 × IsOf desk.now result.1 }
{
    let (one, call, first) = desk.call(rt, one, reading, call);
    let (one, other) = desk.tell(one, other);
    let (other, call, second) = desk.call(rt, other, reading, call);
    drop(call);
    (one, other, first, second)
}

/// Both post a call, and then both collect.
pub(crate) fn both_posted<V: Served, R: Wait>(
    rt: &R,
    desk: &Desk<V>,
    one: Pass,
    other: Pass,
    reading: u64,
    call: Call,
    same: Call,
) -> (Pass, Pass, Answer, Answer)
    requires new { IsNew desk.now one × IsNew desk.now other }
    requires order { IsActInOrder call.act × IsActInOrder same.act }
    ensures one { Calls one reading call result.0 result.2 }
    ensures other { Calls other reading same result.1 result.3 }
    ensures desk { IsOf desk.now result.0 × IsOf desk.now result.1 }
{
    let one = desk.post(rt, one, reading, call);
    let other = desk.post(rt, other, reading, same);
    let (one, call, first) = desk.collect(rt, one);
    let (other, same, second) = desk.collect(rt, other);
    drop(call);
    drop(same);
    (one, other, first, second)
}

// So many calls at this pass; none where there is no memory for a copy of it.
fn repeat<V: Served, R: Wait>(rt: &R, desk: &Desk<V>, pass: Pass, times: u64, call: &Call) -> Pass
    requires desk { IsOf desk.now pass }
    requires order { IsActInOrder call.now.act }
    ensures { IsOf desk.now result }
{
    let Ok(copy) = call.clone() else {
        return pass;
    };
    let mut call = copy;
    let mut pass = pass;
    for _ in 0..times {
        let (next, again, answer) = desk.call(rt, pass, 0, call);
        drop(answer);
        pass = next;
        call = again;
    }
    drop(call);
    pass
}

/// So many calls at each of these new passes, each on a thread of its own where one can be had.
pub(crate) fn on_threads<V: Served + Send, R: Threads + Wait + Sync>(
    rt: &R,
    desk: &Desk<V>,
    passes: Vec<Pass>,
    times: u64,
    call: &Call,
) -> Result<Vec<Pass>, AllocError>
    requires new { Each (IsNew desk.now) passes.items }
    requires order { IsActInOrder call.now.act }
    ensures length { IfOk result (λ v. length v.items ≡ length passes.items) }
    ensures each { IfOk result (λ v. Each (IsOf desk.now) v.items) }
{
    thread::map_vec(
        rt,
        passes,
        &|pass: Pass| -> Pass
            requires new { IsNew desk.now pass }
            requires order { IsActInOrder call.now.act }
            ensures { IsOf desk.entry.now result }
        { repeat(rt, desk, pass, times, call) },
    )
}
