// The order of an act's tests: its fields first, then the act, the numbers that it gives last.
ghost use Rattle.std.specs.Prelude.{◌≡◌, ◌≤◌, true, None, IfOk, IfErr};
ghost use Rattle.std.specs.Result.{IsOk};
ghost use Rattle.sb_entities.specs.Stores.{space_in};
ghost use Rattle.sb_machine.specs.Acts as acts;
ghost use Rattle.sb_machine.specs.Answers.{max_moment};
ghost use Rattle.sb_machine.specs.Changes as changes;
ghost use Rattle.sb_machine.specs.Fields as fields;
ghost use Rattle.sb_machine.specs.Rows.{refuses};
ghost use Rattle.sb_engine.specs.Plans.{PlansRow, Passes};
ghost use Rattle.sb_engine.specs.Small.{is_small};

use crate::Draft;
use crate::acts::plan_act;
use crate::find::via::is_via;
use crate::plan::numbers::is_numbered;
use sb_entities::SpaceStore;
use sb_machine::{Act, By, Refusal, at_part_or_whole};
use sb_model::Text;
use sb_names::{bad_field, bad_part};
use std::alloc::Global;

fn is_via_in(space: &SpaceStore, act: &Act) -> bool
    ensures { result ≡ acts.is_via_in (space_in space.now) act.now }
{
    match act {
        Act::Send { to, txn, .. } => is_via(space, to, *txn),
        _ => false,
    }
}

// ---- the tests in order

fn judge_fields(
    alloc: Global,
    space: &SpaceStore,
    by: &Option<By>,
    act: &Act,
) -> Result<(), Refusal>
    ensures passes { Passes result (acts.bad_call (fields.bad_part act.now) (fields.bad_field (acts.is_via_in (space_in space.now) act.now) act.now by.now)) }
    ensures free { fields.bad_field (acts.is_via_in (space_in space.now) act.now) act.now by.now ≡ None → IsOk result }
{
    let Some(key) = bad_field(is_via_in(space, act), act, by) else {
        return Ok(());
    };
    let Ok(key) = Text::of(alloc, key) else {
        return Err(Refusal::OutOfMemory);
    };
    let part = bad_part(act).map(|place| place as u64);
    Err(at_part_or_whole(part, Refusal::BadCall { key }))
}

/// What an act would do at a moment at which nothing is due, with all its tests.
pub fn plan_row(
    alloc: Global,
    space: &SpaceStore,
    moment: u64,
    by: &Option<By>,
    act: &Act,
) -> Result<Draft, Refusal>
    requires { moment ≤ max_moment }
    ensures row { PlansRow result (acts.row_of (space_in space.now) moment by.now act.now) }
    ensures free { fields.bad_field (acts.is_via_in (space_in space.now) act.now) act.now by.now ≡ None → is_small act.now ≡ true → IfErr result (λ r. acts.row_of (space_in space.now) moment by.now act.now ≡ refuses r) }
    ensures numbers { IfOk result (λ d. changes.is_numbered moment d.changes (space_in space.now) ≡ true) }
{
    judge_fields(alloc, space, by, act)?;
    let draft = plan_act(alloc, space, moment, act)?;
    if is_numbered(space, &draft.changes) {
        Ok(draft)
    } else {
        drop(draft);
        Err(Refusal::Exhausted)
    }
}
