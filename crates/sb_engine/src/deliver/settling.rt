// What a settlement does with its copy.
ghost use Rattle.std.specs.Prelude.{◌≡◌, true, [], IfOk, OnOk};
ghost use Rattle.std.specs.Result.{IsOk};
ghost use Rattle.sb_machine.specs.Delivery as delivery;
ghost use Rattle.sb_machine.specs.Namespace as namespace;
ghost use Rattle.sb_machine.specs.Reasons.{with_reason};
ghost use Rattle.sb_machine.specs.Settlement as spec;
ghost use Rattle.sb_fanout.specs.Lasts.{given_in};
ghost use Rattle.sb_entities.specs.Stores.{entity_in, space_in};
ghost use Rattle.sb_engine.specs.Drafts.{copies_nothing};
ghost use Rattle.sb_engine.specs.Growing.{IsGrown};

use crate::deliver::release::{dead_lettered, push_in, released};
use sb_entities::{EntityStore, SpaceStore};
use sb_fanout::{Lasts, with_reason};
use sb_machine::{Cause, Changes, How, LeafChange, Part, Standing, StoredCopy};
use sb_model::{Message, Text};
use std::alloc::{AllocError, Global};

fn message_of(copy: &StoredCopy) -> Result<Message, AllocError>
    ensures { IfOk result (λ m. m ≡ copy.now.message) }
{
    copy.message.clone()
}

// A copy of a main part is dead-lettered for these reasons, each where it is given.
fn dead_by(
    alloc: Global,
    space: &SpaceStore,
    lasts: &mut Lasts,
    changes: &mut Changes,
    entity: &EntityStore,
    copy: &StoredCopy,
    reason: &Option<Text>,
    description: &Option<Text>,
) -> Result<(), AllocError>
    ensures { OnOk result (IsGrown (space_in space.now) (delivery.dead_lettered (namespace.listed (space_in space.now)) (entity_in entity.now) copy.now true (with_reason reason.now description.now copy.now.message)) (given_in lasts.old) (given_in lasts.new) changes.old changes.new) }
{
    let own = message_of(copy)?;
    let message = with_reason(alloc, reason, description, own)?;
    dead_lettered(alloc, space, lasts, changes, entity, copy, true, message)
}

/// A copy is settled at `moment`, in ms since 1970: changes behind those of a plan. To complete or
/// defer it takes no memory where they are the first. Where memory is wanting, the plan is lost.
pub fn settled(
    alloc: Global,
    space: &SpaceStore,
    lasts: &mut Lasts,
    changes: &mut Changes,
    moment: u64,
    entity: &EntityStore,
    part: Part,
    copy: &StoredCopy,
    how: &How,
) -> Result<(), AllocError>
    ensures grown { OnOk result (IsGrown (space_in space.now) (spec.settled (namespace.listed (space_in space.now)) moment (entity_in entity.now) part copy.now how.now) (given_in lasts.old) (given_in lasts.new) changes.old changes.new) }
    ensures free { copies_nothing how.now ≡ true → changes.old ≡ [] → IsOk result }
{
    match how {
        How::Complete => {
            let ends = LeafChange::Ends {
                number: copy.number,
                settled: true,
                cause: Cause::Completed,
            };
            push_in(changes, entity, part, ends)
        }
        How::Abandon => released(
            alloc, space, lasts, changes, entity, part, copy, true, true, moment,
        ),
        How::Defer => {
            let stands = LeafChange::Stands {
                number: copy.number,
                settled: true,
                count: copy.count,
                standing: Standing::Deferred,
            };
            push_in(changes, entity, part, stands)
        }
        How::DeadLetter {
            reason,
            description,
        } => dead_by(
            alloc,
            space,
            lasts,
            changes,
            entity,
            copy,
            reason,
            description,
        ),
    }
}
