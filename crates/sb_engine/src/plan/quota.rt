// The quota: how many copies may live.
ghost use Rattle.std.specs.Prelude.{◌≡◌, ◌≤◌, ◌+◌, ◌<◌, ◌^◌, ℕ, sum_by, IfOk};
ghost use Rattle.sb_entities.specs.Stores.{space_in};
ghost use Rattle.sb_machine.specs.Changes.{after_all};
ghost use Rattle.sb_machine.specs.Namespace as namespace;
ghost use Rattle.sb_machine.specs.Rows.{within_quota};
ghost use Rattle.sb_engine.specs.Quotas as quotas;
ghost use Rattle.sb_engine.specs.Quotas.{AreCounted, Judges, JudgesCounts};

use sb_entities::SpaceStore;
use sb_machine::{Change, Changes, LeafChange, Refusal};
use sb_names::limits::MAX_COPIES;
use std::alloc::AllocError;
use std::collections::VecDeque;

fn enters_in(change: &Change) -> u64
    ensures count { result ≡ quotas.enters_in change.now }
    ensures one { result ≤ 1 }
{
    match change {
        Change::InLeaf {
            change: LeafChange::Enters(_),
            ..
        } => 1,
        _ => 0,
    }
}

fn ends_in(change: &Change) -> u64
    ensures count { result ≡ quotas.ends_in change.now }
    ensures one { result ≤ 1 }
{
    match change {
        Change::InLeaf {
            change: LeafChange::Ends { .. },
            ..
        } => 1,
        _ => 0,
    }
}

fn entering_of(changes: &VecDeque<Change>) -> u64
    ensures count { result ≡ sum_by quotas.enters_in changes.now.items }
    ensures few { result < 2 ^ 63 }
{
    let mut entering = 0_u64;
    for place in 0..changes.len() {
        entering += enters_in(&changes[place]);
    }
    entering
}

fn ending_of(changes: &VecDeque<Change>) -> u64
    ensures count { result ≡ sum_by quotas.ends_in changes.now.items }
    ensures few { result < 2 ^ 63 }
{
    let mut ending = 0_u64;
    for place in 0..changes.len() {
        ending += ends_in(&changes[place]);
    }
    ending
}

// How many copies enter.
fn entering(changes: &Changes) -> u64
    ensures { result ≡ sum_by quotas.enters_in changes.now }
{
    let (first, more) = changes.parts();
    let one = match first {
        Some(change) => enters_in(change),
        None => 0,
    };
    one + entering_of(more)
}

// How many copies end.
fn ending(changes: &Changes) -> u64
    ensures { result ≡ sum_by quotas.ends_in changes.now }
{
    let (first, more) = changes.parts();
    let one = match first {
        Some(change) => ends_in(change),
        None => 0,
    };
    one + ending_of(more)
}

// The copies that live behind a change of so many. Memory is wanting for a sum that passes
// 2^64 - 1, which no namespace in memory comes to.
fn later(before: u64, entering: u64, ending: u64) -> Result<u64, AllocError>
    ensures { (n : ℕ) → n + ending ≡ before + entering → IfOk result (λ later. later ≡ n) }
{
    let Some(sum) = before.checked_add(entering) else {
        return Err(AllocError);
    };
    match sum.checked_sub(ending) {
        Some(later) => Ok(later),
        None => Err(AllocError),
    }
}

fn live_later(
    space: &SpaceStore,
    before: u64,
    moment: u64,
    changes: &Changes,
) -> Result<u64, AllocError>
    requires before { before ≡ namespace.live (space_in space.now) }
    requires counted { AreCounted moment changes.now (space_in space.now) }
    ensures { IfOk result (λ n. n ≡ namespace.live (after_all moment changes.now (space_in space.now))) }
{
    later(before, entering(changes), ending(changes))
}

fn judge_counts(before: u64, later: u64) -> Result<(), Refusal>
    ensures { JudgesCounts before later result }
{
    if before < later && MAX_COPIES < later {
        return Err(Refusal::QuotaExceeded {
            copies: before,
            adds: later - before,
        });
    }
    Ok(())
}

/// Refuses changes at a moment, in ms since 1970, by which more copies would live than the quota
/// allows (Microsoft Learn, "Service Bus quotas", has a size for each entity; here one number
/// counts for the namespace).
pub fn judge_quota(space: &SpaceStore, moment: u64, changes: &Changes) -> Result<(), Refusal>
    requires counted { AreCounted moment changes.now (space_in space.now) }
    ensures { Judges result (within_quota moment (space_in space.now) changes.now) }
{
    let before = space.live();
    let Ok(later) = live_later(space, before, moment, changes) else {
        return Err(Refusal::OutOfMemory);
    };
    judge_counts(before, later)
}
