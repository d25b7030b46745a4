// Giving a session back, with its copies.
ghost use Rattle.std.specs.Prelude.{◌≡◌, filter, map, false, IfOk, OnOk};
ghost use Rattle.std.specs.List.{flat_map};
ghost use Rattle.sb_machine.specs.Delivery as delivery;
ghost use Rattle.sb_machine.specs.Leases as leases;
ghost use Rattle.sb_machine.specs.Namespace as namespace;
ghost use Rattle.sb_machine.specs.Rows.{answers};
ghost use Rattle.sb_machine.specs.Sessions as spec;
ghost use Rattle.sb_machine.specs.declared.reply.Reply.TheVariants.{Done};
ghost use Rattle.sb_fanout.specs.Lasts.{given_in};
ghost use Rattle.sb_entities.specs.Stores.{entity_in, space_in};
ghost use Rattle.sb_engine.specs.Drafts.{DraftsRow};
ghost use Rattle.sb_engine.specs.Growing.{IsGrown};
ghost use Rattle.sb_engine.specs.Plans.{PlansRow};

use crate::Draft;
use crate::deliver::release::{push_in, released};
use crate::find::holding::held_at_address;
use crate::plan::drafting::planned;
use sb_entities::{EntityStore, SpaceStore};
use sb_fanout::Lasts;
use sb_machine::{Changes, LeafChange, Part, Path, Refusal, Reply, StoredCopy, Token};
use std::alloc::{AllocError, Global};

// Each of these is released without a raise.
fn release_all(
    alloc: Global,
    space: &SpaceStore,
    lasts: &mut Lasts,
    changes: &mut Changes,
    moment: u64,
    entity: &EntityStore,
    part: Part,
    copies: &[&StoredCopy],
) -> Result<(), AllocError>
    ensures { OnOk result (IsGrown (space_in space.now) (flat_map (λ c. delivery.released (namespace.listed (space_in space.now)) moment (entity_in entity.now) part c false false) (map (λ c. c.now) copies.now)) (given_in lasts.old) (given_in lasts.new) changes.old changes.new) }
{
    for copy in copies {
        released(
            alloc, space, lasts, changes, entity, part, copy, false, false, moment,
        )?;
    }
    Ok(())
}

fn copies_under(entity: &EntityStore, part: Part, lock: u64) -> Result<Vec<&StoredCopy>, AllocError>
    ensures { IfOk result (λ found. map (λ c. c.now) found.items ≡ filter (λ c. leases.is_under_session lock c.standing) (namespace.leaf_of part (entity_in entity.now)).copies) }
{
    entity.part(part).copies().under(lock)
}

// A session is held no more, and its copies are released at `moment`, in ms since 1970: changes
// behind those of a plan. Where memory is wanting, the plan is lost.
fn closed(
    alloc: Global,
    space: &SpaceStore,
    lasts: &mut Lasts,
    changes: &mut Changes,
    moment: u64,
    entity: &EntityStore,
    part: Part,
    lock: u64,
) -> Result<(), AllocError>
    ensures { OnOk result (IsGrown (space_in space.now) (spec.closed (space_in space.now) moment (entity_in entity.now) part lock) (given_in lasts.old) (given_in lasts.new) changes.old changes.new) }
{
    push_in(changes, entity, part, LeafChange::Closes { lock })?;
    let copies = copies_under(entity, part, lock)?;
    release_all(alloc, space, lasts, changes, moment, entity, part, &copies)
}

fn close(
    alloc: Global,
    space: &SpaceStore,
    moment: u64,
    entity: &EntityStore,
    part: Part,
    lock: u64,
) -> Result<Draft, AllocError>
    ensures { DraftsRow result (answers Done (spec.closed (space_in space.now) moment (entity_in entity.now) part lock)) }
{
    let mut lasts = Lasts::new(alloc);
    let mut changes = Changes::new(alloc);
    let Ok(()) = closed(
        alloc,
        space,
        &mut lasts,
        &mut changes,
        moment,
        entity,
        part,
        lock,
    ) else {
        drop(changes);
        return Err(AllocError);
    };
    Ok(Draft {
        reply: Reply::Done,
        changes,
    })
}

/// What giving a session back at `moment`, in ms since 1970, would do.
pub fn plan_session_close(
    alloc: Global,
    space: &SpaceStore,
    moment: u64,
    from: &Path,
    token: Token,
) -> Result<Draft, Refusal>
    ensures { PlansRow result (spec.session_close_row (space_in space.now) moment from.now token) }
{
    let held = held_at_address(space, moment, from, token)?;
    planned(close(alloc, space, moment, held.entity, from.part, token.lock))
}
