// What happens as time comes up to a moment.
ghost use Rattle.std.specs.Prelude.{◌≡◌, ◌⊎◌, ◌++◌, true, false, IfOk, IfErr, OnOk};
ghost use Rattle.sb_machine.specs.Changes as machine;
ghost use Rattle.sb_machine.specs.Due as due;
ghost use Rattle.sb_machine.specs.declared.reply.Refusal.TheVariants.{Exhausted, OutOfMemory};
ghost use Rattle.sb_laws.specs.AsFound as found;
ghost use Rattle.sb_laws.specs.Sweepable.{IsSweepable};
ghost use Rattle.sb_fanout.specs.Lasts.{given_in};
ghost use Rattle.sb_entities.specs.Stores.{space_in};
ghost use Rattle.sb_engine.specs.Growing.{IsGrown};
ghost use Rattle.sb_engine.specs.Sweeps as spec;

use crate::plan::numbers::is_numbered;
use crate::time::finding::{Search, find_all, find_main};
use crate::time::sweeps::{activate_all, close_all, drop_all, expire_all, release_all};
use sb_entities::SpaceStore;
use sb_fanout::Lasts;
use sb_laws::tick_as_found;
use sb_machine::{Changes, Refusal};
use std::alloc::{AllocError, Global};

fn sweep_locks(
    alloc: Global,
    space: &SpaceStore,
    lasts: &mut Lasts,
    changes: &mut Changes,
    moment: u64,
) -> Result<(), AllocError>
    ensures { OnOk result (IsGrown (space_in space.now) (due.sweep_locks moment (space_in space.now)) (given_in lasts.old) (given_in lasts.new) changes.old changes.new) }
{
    let Ok(()) = close_all(changes, moment, space) else {
        return Err(AllocError);
    };
    let Ok(ended) = find_all(alloc, space, Search::Ended, moment) else {
        return Err(AllocError);
    };
    release_all(alloc, space, lasts, changes, moment, ended.as_slice())
}

fn sweep_expired(
    alloc: Global,
    space: &SpaceStore,
    lasts: &mut Lasts,
    changes: &mut Changes,
    moment: u64,
) -> Result<(), AllocError>
    ensures { OnOk result (IsGrown (space_in space.now) (due.sweep_expired moment (space_in space.now)) (given_in lasts.old) (given_in lasts.new) changes.old changes.new) }
{
    let Ok(expired) = find_main(alloc, space, Search::Expired, moment) else {
        return Err(AllocError);
    };
    expire_all(alloc, space, lasts, changes, expired.as_slice())
}

fn sweep_scheduled(
    alloc: Global,
    space: &SpaceStore,
    lasts: &mut Lasts,
    changes: &mut Changes,
    moment: u64,
) -> Result<(), AllocError>
    ensures { OnOk result (spec.IsTurned (space_in space.now) moment (machine.in_turn due.activated moment (due.due_scheduled moment (space_in space.now))) (given_in lasts.old) (given_in lasts.new) changes.old changes.new) }
{
    let Ok(come) = find_all(alloc, space, Search::Come, moment) else {
        return Err(AllocError);
    };
    activate_all(alloc, space, lasts, changes, moment, come.as_slice())
}

// Locks that have ended, and then what has expired.
fn free(
    alloc: Global,
    space: &SpaceStore,
    lasts: &mut Lasts,
    changes: &mut Changes,
    moment: u64,
) -> Result<(), AllocError>
    ensures { OnOk result (IsGrown (space_in space.now) (found.freed moment (space_in space.now)) (given_in lasts.old) (given_in lasts.new) changes.old changes.new) }
{
    let Ok(()) = sweep_locks(alloc, space, lasts, changes, moment) else {
        return Err(AllocError);
    };
    sweep_expired(alloc, space, lasts, changes, moment)
}

// And then what enters now.
fn free_and_wake(
    alloc: Global,
    space: &SpaceStore,
    changes: &mut Changes,
    moment: u64,
) -> Result<(), AllocError>
    ensures { OnOk result (changes.new ≡ changes.old ++ (found.freed moment (space_in space.now) ++ found.woken moment (space_in space.now))) }
{
    let mut lasts = Lasts::new(alloc);
    let Ok(()) = free(alloc, space, &mut lasts, changes, moment) else {
        return Err(AllocError);
    };
    sweep_scheduled(alloc, space, &mut lasts, changes, moment)
}

fn plan_as_found(alloc: Global, space: &SpaceStore, moment: u64) -> Result<Changes, AllocError>
    ensures { IfOk result (λ cs. cs ≡ found.as_found moment (space_in space.now)) }
{
    let mut changes = Changes::new(alloc);
    let Ok(()) = free_and_wake(alloc, space, &mut changes, moment) else {
        drop(changes);
        return Err(AllocError);
    };
    let Ok(()) = drop_all(&mut changes, moment, space) else {
        drop(changes);
        return Err(AllocError);
    };
    Ok(changes)
}

fn changes_of_tick(alloc: Global, space: &SpaceStore, moment: u64) -> Result<Changes, AllocError>
    requires { IsSweepable (space_in space.now) }
    ensures { IfOk result (λ cs. cs ≡ due.tick_changes moment (space_in space.now)) }
{
    tick_as_found();
    plan_as_found(alloc, space, moment)
}

/// The changes as time comes up to `moment`, in ms since 1970: this looks at no entity of which
/// nothing is due.
pub fn plan_tick(alloc: Global, space: &SpaceStore, moment: u64) -> Result<Changes, Refusal>
    requires { IsSweepable (space_in space.now) }
    ensures changes { IfOk result (λ cs. cs ≡ due.tick_changes moment (space_in space.now)) }
    ensures numbered { IfOk result (λ cs. machine.is_numbered moment cs (space_in space.now) ≡ true) }
    ensures err { IfErr result (λ r. (r ≡ OutOfMemory) ⊎ ((r ≡ Exhausted) × (machine.is_numbered moment (due.tick_changes moment (space_in space.now)) (space_in space.now) ≡ false))) }
{
    let Ok(changes) = changes_of_tick(alloc, space, moment) else {
        return Err(Refusal::OutOfMemory);
    };
    if is_numbered(space, &changes) {
        Ok(changes)
    } else {
        drop(changes);
        Err(Refusal::Exhausted)
    }
}
