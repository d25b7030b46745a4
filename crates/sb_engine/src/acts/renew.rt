// Making the lock of a copy live longer.
ghost use Rattle.std.specs.Prelude.{◌≡◌, Some};
ghost use Rattle.std.specs.Option.{option_map};
ghost use Rattle.sb_machine.specs.Settlement as spec;
ghost use Rattle.sb_entities.specs.Stores.{entity_in, leaf_in, space_in};
ghost use Rattle.sb_engine.specs.Plans.{PlansRow};

use crate::Draft;
use crate::deliver::handing::lock_end;
use crate::deliver::release::in_part;
use crate::find::claims::has_sessions;
use crate::find::heads::entity_at_address;
use crate::find::leases::leased;
use sb_copies::is_until;
use sb_entities::{EntityStore, SpaceStore};
use sb_machine::{LeafChange, Part, Path, Refusal, Reply, StoredCopy, Token, Which};
use std::alloc::Global;

fn renewed(
    alloc: Global,
    entity: &EntityStore,
    part: Part,
    end: u64,
    copy: Option<&StoredCopy>,
) -> Result<Draft, Refusal>
    ensures { PlansRow result (spec.renewed (entity_in entity.now) part end (option_map (λ c. c.now) copy.entry)) }
{
    let Some(copy) = copy else {
        return Err(Refusal::LockLost);
    };
    let reply = Reply::Renewed { until: end };
    if is_until(copy.standing, end) {
        return Ok(Draft::unchanging(alloc, reply));
    }
    let renews = LeafChange::Renews {
        number: copy.number,
        until: end,
    };
    Ok(Draft::changing(alloc, reply, in_part(entity, part, renews)))
}

/// What making a lock live longer at `moment`, in ms since 1970, would do; takes no memory.
pub fn plan_renew(
    alloc: Global,
    space: &SpaceStore,
    moment: u64,
    from: &Path,
    which: &Which,
    token: Token,
) -> Result<Draft, Refusal>
    ensures { PlansRow result (spec.renew_row (space_in space.now) moment from.now which.now token) }
{
    let entity = entity_at_address(space, from)?;
    if has_sessions(entity, from.part) {
        return Err(Refusal::SessionRequired);
    }
    let Ok(end) = lock_end(entity, moment) else {
        return Err(Refusal::OutOfMemory);
    };
    let copy = leased(space, moment, token, which, entity.part(from.part));
    renewed(alloc, entity, from.part, end, copy)
}
