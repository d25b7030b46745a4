// What the sweeps of a tick would do: changes behind those of a plan. Where memory is wanting, the
// plan is lost.
ghost use Rattle.std.specs.Prelude.{◌≡◌, ◌++◌, map, filter, nat_le, true, false, IfOk, OnOk};
ghost use Rattle.std.specs.List.{flat_map};
ghost use Rattle.sb_machine.specs.Changes.{in_turn};
ghost use Rattle.sb_machine.specs.Delivery as delivery;
ghost use Rattle.sb_machine.specs.Due as due;
ghost use Rattle.sb_machine.specs.Each.{Each};
ghost use Rattle.sb_machine.specs.Namespace.{last_at, listed};
ghost use Rattle.sb_machine.specs.Visits.{visits};
ghost use Rattle.sb_machine.specs.declared.call.Part.TheVariants.{Main as MainPart, Dead as DeadPart, Transfer as TransferPart};
ghost use Rattle.sb_machine.specs.declared.change.Change.TheVariants.{Drops as Dropping};
ghost use Rattle.sb_fanout.specs.Deliveries.{IsDelivered};
ghost use Rattle.sb_fanout.specs.Lasts.{given_in, is_listed};
ghost use Rattle.sb_txn.specs.Txns.{transactions_of};
ghost use Rattle.sb_entities.specs.Stores.{entity_in, space_in};
ghost use Rattle.sb_engine.specs.Growing.{IsGrown};
ghost use Rattle.sb_engine.specs.Sweeps as spec;

use crate::deliver::release::{expired, in_part, push_in, released};
use crate::time::finding::Found;
use sb_entities::{EntityStore, SpaceStore};
use sb_fanout::{Lasts, deliver};
use sb_machine::{Cause, Change, Changes, Holder, LeafChange, Listed, Part, Session, StoredCopy};
use sb_model::Message;
use sb_txn::OpenTransaction;
use std::alloc::{AllocError, Global};

// ---- copies

/// Copies under locks that have ended by `moment`, in ms since 1970, go back or are delivered no
/// more.
pub fn release_all(
    alloc: Global,
    space: &SpaceStore,
    lasts: &mut Lasts,
    changes: &mut Changes,
    moment: u64,
    found: &[Found],
) -> Result<(), AllocError>
    ensures { OnOk result (IsGrown (space_in space.now) (flat_map (λ i. delivery.released (listed (space_in space.now)) moment i.entity i.part i.copy true false) (spec.items_in found.now)) (given_in lasts.old) (given_in lasts.new) changes.old changes.new) }
{
    for item in found {
        let Found { entity, part, copy } = *item;
        released(
            alloc, space, lasts, changes, entity, part, copy, true, false, moment,
        )?;
    }
    Ok(())
}

/// Copies of main parts expire.
pub fn expire_all(
    alloc: Global,
    space: &SpaceStore,
    lasts: &mut Lasts,
    changes: &mut Changes,
    found: &[Found],
) -> Result<(), AllocError>
    ensures { OnOk result (IsGrown (space_in space.now) (flat_map (λ i. delivery.expired (listed (space_in space.now)) i.entity i.copy false) (spec.items_in found.now)) (given_in lasts.old) (given_in lasts.new) changes.old changes.new) }
{
    for item in found {
        let Found { entity, copy, .. } = *item;
        expired(alloc, space, lasts, changes, entity, copy, false)?;
    }
    Ok(())
}

fn message_of(copy: &StoredCopy) -> Result<Message, AllocError>
    ensures { IfOk result (λ m. m ≡ copy.now.message) }
{
    copy.message.clone()
}

fn enter(
    alloc: Global,
    space: &SpaceStore,
    lasts: &mut Lasts,
    changes: &mut Changes,
    about: &Listed,
    copy: &StoredCopy,
) -> Result<(), AllocError>
    ensures { OnOk result (IsDelivered (listed (space_in space.now)) (λ key. last_at key (space_in space.now)) (given_in lasts.old) about.now (visits (listed (space_in space.now)) 0 about.now copy.now.message) (given_in lasts.new) changes.old changes.new) }
{
    let Ok(message) = message_of(copy) else {
        return Err(AllocError);
    };
    deliver(alloc, space, lasts, changes, about, message)
}

fn activate(
    alloc: Global,
    space: &SpaceStore,
    lasts: &mut Lasts,
    changes: &mut Changes,
    moment: u64,
    entity: &EntityStore,
    part: Part,
    copy: &StoredCopy,
) -> Result<(), AllocError>
    requires { is_listed (entity_in entity.now).about.number (listed (space_in space.now)) ≡ true }
    ensures { OnOk result (spec.IsTurned (space_in space.now) moment (due.activated (spec.item (entity_in entity.now) part copy.now)) (given_in lasts.old) (given_in lasts.new) changes.old changes.new) }
{
    let ends = LeafChange::Ends {
        number: copy.number,
        settled: false,
        cause: Cause::Activated,
    };
    push_in(changes, entity, part, ends)?;
    enter(alloc, space, lasts, changes, entity.about(), copy)
}

/// Scheduled copies enter, each behind those before it.
pub fn activate_all(
    alloc: Global,
    space: &SpaceStore,
    lasts: &mut Lasts,
    changes: &mut Changes,
    moment: u64,
    found: &[Found],
) -> Result<(), AllocError>
    requires { Each (λ i. is_listed i.entity.about.number (listed (space_in space.now)) ≡ true) (spec.items_in found.now) }
    ensures { OnOk result (spec.IsTurned (space_in space.now) moment (in_turn due.activated moment (spec.items_in found.now)) (given_in lasts.old) (given_in lasts.new) changes.old changes.new) }
{
    for item in found {
        let Found { entity, part, copy } = *item;
        activate(alloc, space, lasts, changes, moment, entity, part, copy)?;
    }
    Ok(())
}

// ---- sessions

fn close_due(
    changes: &mut Changes,
    moment: u64,
    entity: &EntityStore,
    part: Part,
    holder: Option<Holder>,
) -> Result<(), AllocError>
    ensures { OnOk result (changes.new ≡ changes.old ++ due.closes_due moment (entity_in entity.now) part holder) }
{
    match holder {
        Some(holder) => {
            if holder.until <= moment {
                let closes = LeafChange::Closes { lock: holder.lock };
                return changes.push(in_part(entity, part, closes));
            }
            Ok(())
        }
        None => Ok(()),
    }
}

fn close_sessions(
    changes: &mut Changes,
    moment: u64,
    entity: &EntityStore,
    part: Part,
    sessions: &[Session],
) -> Result<(), AllocError>
    ensures { OnOk result (changes.new ≡ changes.old ++ flat_map (λ x. due.closes_due moment (entity_in entity.now) part x.holder) sessions.now) }
{
    for session in sessions {
        close_due(changes, moment, entity, part, session.holder)?;
    }
    Ok(())
}

fn close_in(
    changes: &mut Changes,
    moment: u64,
    entity: &EntityStore,
    part: Part,
) -> Result<(), AllocError>
    ensures { OnOk result (changes.new ≡ changes.old ++ due.closes_in moment (entity_in entity.now) part) }
{
    let sessions = entity.part(part).sessions().as_slice();
    close_sessions(changes, moment, entity, part, sessions)
}

fn close_of(changes: &mut Changes, moment: u64, entity: &EntityStore) -> Result<(), AllocError>
    ensures { OnOk result (changes.new ≡ changes.old ++ (due.closes_in moment (entity_in entity.now) MainPart ++ due.closes_in moment (entity_in entity.now) DeadPart ++ due.closes_in moment (entity_in entity.now) TransferPart)) }
{
    close_in(changes, moment, entity, Part::Main)?;
    close_in(changes, moment, entity, Part::Dead)?;
    close_in(changes, moment, entity, Part::Transfer)
}

fn close_each(
    changes: &mut Changes,
    moment: u64,
    entities: &[&EntityStore],
) -> Result<(), AllocError>
    ensures { OnOk result (changes.new ≡ changes.old ++ flat_map (λ e. due.closes_in moment e MainPart ++ due.closes_in moment e DeadPart ++ due.closes_in moment e TransferPart) (map (λ e. entity_in e.now) entities.now)) }
{
    for entity in entities {
        close_of(changes, moment, *entity)?;
    }
    Ok(())
}

/// Sessions whose locks have ended by `moment`, in ms since 1970, are held no more.
pub fn close_all(changes: &mut Changes, moment: u64, space: &SpaceStore) -> Result<(), AllocError>
    ensures { OnOk result (changes.new ≡ changes.old ++ due.due_sessions moment (space_in space.now)) }
{
    let due = space.due_by(moment)?;
    close_each(changes, moment, &due)
}

// ---- transactions

fn drop_each(changes: &mut Changes, moment: u64, rows: &[OpenTransaction]) -> Result<(), AllocError>
    ensures { OnOk result (changes.new ≡ changes.old ++ map (λ x. Dropping x.number) (filter (λ x. nat_le x.deadline moment) (transactions_of rows.now))) }
{
    for row in rows {
        if row.deadline() <= moment {
            changes.push(Change::Drops { txn: row.number() })?;
        }
    }
    Ok(())
}

/// Transactions whose deadlines have come by `moment`, in ms since 1970, are dropped.
pub fn drop_all(changes: &mut Changes, moment: u64, space: &SpaceStore) -> Result<(), AllocError>
    ensures { OnOk result (changes.new ≡ changes.old ++ due.due_transactions moment (space_in space.now)) }
{
    drop_each(changes, moment, space.txns().as_slice())
}
