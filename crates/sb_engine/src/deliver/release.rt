// What becomes of a copy that expires, is dead-lettered, or goes back to where it was: changes
// behind those of a plan. Where memory is wanting, the plan is lost.
ghost use Rattle.std.specs.Prelude.{◌≡◌, ◌&&◌, ◌∷◌, [], not, nat_le, OnOk};
ghost use Rattle.std.specs.Result.{IsOk};
ghost use Rattle.sb_machine.specs.Leaves.{copies_given};
ghost use Rattle.sb_machine.specs.declared.state.Space.{Space};
ghost use Rattle.sb_machine.specs.Delivery as spec;
ghost use Rattle.sb_machine.specs.Leases as leases;
ghost use Rattle.sb_machine.specs.Names as names;
ghost use Rattle.sb_machine.specs.Namespace as namespace;
ghost use Rattle.sb_fanout.specs.Lasts.{Given, given_in};
ghost use Rattle.sb_entities.specs.Stores.{entity_in, space_in};
ghost use Rattle.sb_engine.specs.Growing.{IsGrown};

use sb_copies::was_deferred;
use sb_entities::{EntityStore, SpaceStore};
use sb_fanout::{Lasts, bury, for_reason};
use sb_machine::{
    Cause, Change, Changes, DeadReason, LeafChange, LeafKey, Part, Standing, StoredCopy,
};
use sb_model::Message;
use sb_names::is_main;
use sb_names::limits::MAX_COUNT;
use std::alloc::{AllocError, Global};

/// A change in a part of an entity.
pub fn in_part(entity: &EntityStore, part: Part, change: LeafChange) -> Change
    ensures { result ≡ spec.in_part part (entity_in entity.now) change }
{
    Change::InLeaf {
        key: LeafKey {
            entity: entity.about().number,
            part,
        },
        change,
    }
}

/// One change more in a part of an entity, which gives no copy number; the first takes no memory.
pub fn push_in(
    changes: &mut Changes,
    entity: &EntityStore,
    part: Part,
    change: LeafChange,
) -> Result<(), AllocError>
    requires { copies_given change ≡ 0 }
    ensures grown { (s : Space) (given : Given) → OnOk result (IsGrown s (spec.in_part part (entity_in entity.now) change ∷ []) given given changes.old changes.new) }
    ensures free { changes.old ≡ [] → IsOk result }
{
    changes.push(in_part(entity, part, change))
}

/// Whether a copy's time to live is over at `moment`, in ms since 1970.
pub fn is_expired(copy: &StoredCopy, moment: u64) -> bool
    ensures { result ≡ spec.is_expired moment copy.now }
{
    match copy.message.ttl {
        Some(seconds) => match seconds.checked_mul(1000) {
            Some(life) => match copy.enqueued.checked_add(life) {
                Some(end) => end <= moment,
                None => false,
            },
            None => false,
        },
        None => false,
    }
}

/// A copy of a main part is dead-lettered as this message; `settled` where a settlement did it.
pub fn dead_lettered(
    alloc: Global,
    space: &SpaceStore,
    lasts: &mut Lasts,
    changes: &mut Changes,
    entity: &EntityStore,
    copy: &StoredCopy,
    settled: bool,
    message: Message,
) -> Result<(), AllocError>
    ensures { OnOk result (IsGrown (space_in space.now) (spec.dead_lettered (namespace.listed (space_in space.now)) (entity_in entity.now) copy.now settled message) (given_in lasts.old) (given_in lasts.new) changes.old changes.new) }
{
    let ends = LeafChange::Ends {
        number: copy.number,
        settled,
        cause: Cause::DeadLettered,
    };
    push_in(changes, entity, Part::Main, ends)?;
    bury(
        alloc,
        space,
        lasts,
        changes,
        entity.about(),
        copy.enqueued_seq,
        copy.hops,
        message,
    )
}

/// A copy of a main part is dead-lettered for a reason of the service's own.
pub fn dead_for(
    alloc: Global,
    space: &SpaceStore,
    lasts: &mut Lasts,
    changes: &mut Changes,
    entity: &EntityStore,
    copy: &StoredCopy,
    settled: bool,
    reason: DeadReason,
) -> Result<(), AllocError>
    ensures { OnOk result (IsGrown (space_in space.now) (spec.dead_for (namespace.listed (space_in space.now)) (entity_in entity.now) copy.now settled reason) (given_in lasts.old) (given_in lasts.new) changes.old changes.new) }
{
    let message = for_reason(alloc, reason, copy.message.clone()?)?;
    dead_lettered(alloc, space, lasts, changes, entity, copy, settled, message)
}

/// A copy of a main part has expired: it is dropped, or dead-lettered where the entity does so.
pub fn expired(
    alloc: Global,
    space: &SpaceStore,
    lasts: &mut Lasts,
    changes: &mut Changes,
    entity: &EntityStore,
    copy: &StoredCopy,
    settled: bool,
) -> Result<(), AllocError>
    ensures { OnOk result (IsGrown (space_in space.now) (spec.expired (namespace.listed (space_in space.now)) (entity_in entity.now) copy.now settled) (given_in lasts.old) (given_in lasts.new) changes.old changes.new) }
{
    if entity.about().description.dead_on_expiry {
        return dead_for(
            alloc,
            space,
            lasts,
            changes,
            entity,
            copy,
            settled,
            DeadReason::Expired,
        );
    }
    let ends = LeafChange::Ends {
        number: copy.number,
        settled,
        cause: Cause::Expired,
    };
    push_in(changes, entity, Part::Main, ends)
}

fn raised(raise: bool, count: u32) -> u32
    ensures { result ≡ spec.raised raise count }
{
    if raise {
        count.saturating_add(1).min(MAX_COUNT)
    } else {
        count
    }
}

fn back_to(standing: Standing) -> Standing
    ensures { result ≡ spec.back_to standing }
{
    if was_deferred(standing) {
        Standing::Deferred
    } else {
        Standing::Ready
    }
}

// Whether this delivery is one too many.
fn is_too_often(entity: &EntityStore, part: Part, raise: bool, count: u32) -> bool
    ensures { result ≡ (names.is_main part && raise && nat_le (entity_in entity.now).about.description.max_delivery count) }
{
    is_main(part) && raise && entity.about().description.max_delivery <= u64::from(count)
}

// Whether it can't go back, since it has expired.
fn is_over(part: Part, copy: &StoredCopy, moment: u64) -> bool
    ensures { result ≡ (names.is_main part && not (leases.was_deferred copy.now.standing) && spec.is_expired moment copy.now) }
{
    is_main(part) && !was_deferred(copy.standing) && is_expired(copy, moment)
}

/// A copy that was held goes back to where it was at `moment`, in ms since 1970, or is delivered no
/// more; its count rises where `raise` says so.
pub fn released(
    alloc: Global,
    space: &SpaceStore,
    lasts: &mut Lasts,
    changes: &mut Changes,
    entity: &EntityStore,
    part: Part,
    copy: &StoredCopy,
    raise: bool,
    settled: bool,
    moment: u64,
) -> Result<(), AllocError>
    ensures { OnOk result (IsGrown (space_in space.now) (spec.released (namespace.listed (space_in space.now)) moment (entity_in entity.now) part copy.now raise settled) (given_in lasts.old) (given_in lasts.new) changes.old changes.new) }
{
    let count = raised(raise, copy.count);
    if is_too_often(entity, part, raise, count) {
        return dead_for(
            alloc,
            space,
            lasts,
            changes,
            entity,
            copy,
            settled,
            DeadReason::TooOften,
        );
    }
    if is_over(part, copy, moment) {
        return expired(alloc, space, lasts, changes, entity, copy, settled);
    }
    let stands = LeafChange::Stands {
        number: copy.number,
        settled,
        count,
        standing: back_to(copy.standing),
    };
    push_in(changes, entity, part, stands)
}
