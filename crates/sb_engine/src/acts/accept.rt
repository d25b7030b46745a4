// Taking the lock of a session.
ghost use Rattle.std.specs.Prelude.{◌≡◌};
ghost use Rattle.std.specs.Option.{option_map};
ghost use Rattle.sb_machine.specs.Leaves as leaves;
ghost use Rattle.sb_machine.specs.Sessions as spec;
ghost use Rattle.sb_entities.specs.Stores.{entity_in, leaf_in, space_in};
ghost use Rattle.sb_engine.specs.Drafts.{DraftsRow};
ghost use Rattle.sb_engine.specs.Plans.{PlansRow};

use crate::Draft;
use crate::deliver::handing::{lock_end, next_token};
use crate::deliver::release::in_part;
use crate::find::claims::has_sessions;
use crate::find::heads::receivable_at_address;
use crate::plan::drafting::planned;
use sb_entities::{EntityStore, PartStore, SpaceStore};
use sb_machine::{Holder, LeafChange, Part, Path, Refusal, Reply, Session};
use sb_model::Text;
use std::alloc::{AllocError, Global};

fn accepted(
    alloc: Global,
    space: &SpaceStore,
    moment: u64,
    entity: &EntityStore,
    part: Part,
    id: &Text,
) -> Result<Draft, AllocError>
    ensures { DraftsRow result (spec.accepted (space_in space.now) moment (entity_in entity.now) part id.now) }
{
    let until = lock_end(entity, moment)?;
    let session = next_token(space)?;
    let opens = LeafChange::Opens {
        id: id.clone()?,
        until,
    };
    let reply = Reply::Session {
        id: id.clone()?,
        session,
        until,
    };
    Ok(Draft::changing(alloc, reply, in_part(entity, part, opens)))
}

fn session_in<'a>(part: &'a PartStore, id: &Text) -> Option<&'a Session>
    ensures { option_map (λ x. x.now) result ≡ leaves.session_in id.now (leaf_in part.now) }
{
    part.sessions().get(id.as_str())
}

fn holder_in(part: &PartStore, id: &Text) -> Option<Holder>
    ensures { result ≡ spec.holder_in id.now (leaf_in part.now) }
{
    match session_in(part, id) {
        Some(session) => session.holder,
        None => None,
    }
}

fn held_until(moment: u64, holder: Option<Holder>) -> Option<u64>
    ensures { result ≡ spec.held_until moment holder }
{
    match holder {
        Some(holder) => {
            if moment < holder.until {
                Some(holder.until)
            } else {
                None
            }
        }
        None => None,
    }
}

fn next_session(part: &PartStore) -> Option<&Text>
    ensures { option_map (λ x. x.now) result ≡ spec.next_session (leaf_in part.now) (leaf_in part.now).copies }
{
    part.next_session()
}

fn accept_named(
    alloc: Global,
    space: &SpaceStore,
    moment: u64,
    entity: &EntityStore,
    part: Part,
    id: &Text,
    held: Option<u64>,
) -> Result<Draft, Refusal>
    ensures { PlansRow result (spec.accepted_named (space_in space.now) moment (entity_in entity.now) part id.now held) }
{
    match held {
        Some(until) => Err(Refusal::SessionHeld { until }),
        None => planned(accepted(alloc, space, moment, entity, part, id)),
    }
}

fn accept_next(
    alloc: Global,
    space: &SpaceStore,
    moment: u64,
    entity: &EntityStore,
    part: Part,
    id: Option<&Text>,
) -> Result<Draft, Refusal>
    ensures { PlansRow result (spec.accepted_next (space_in space.now) moment (entity_in entity.now) part (option_map (λ x. x.now) id.entry)) }
{
    match id {
        Some(id) => planned(accepted(alloc, space, moment, entity, part, id)),
        None => Ok(Draft::unchanging(alloc, Reply::Empty)),
    }
}

fn accepting(
    alloc: Global,
    space: &SpaceStore,
    moment: u64,
    entity: &EntityStore,
    part: Part,
    id: &Option<Text>,
) -> Result<Draft, Refusal>
    ensures { PlansRow result (spec.accepting (space_in space.now) moment (entity_in entity.now) part id.now) }
{
    let leaf = entity.part(part);
    match id {
        Some(id) => {
            let held = held_until(moment, holder_in(leaf, id));
            accept_named(alloc, space, moment, entity, part, id, held)
        }
        None => accept_next(alloc, space, moment, entity, part, next_session(leaf)),
    }
}

/// What taking the lock of the session of this id, or of the next one that nobody holds, would do at
/// `moment`, in ms since 1970.
pub fn plan_accept(
    alloc: Global,
    space: &SpaceStore,
    moment: u64,
    from: &Path,
    id: &Option<Text>,
) -> Result<Draft, Refusal>
    ensures { PlansRow result (spec.accept_row (space_in space.now) moment from.now id.now) }
{
    let entity = receivable_at_address(space, from)?;
    if !has_sessions(entity, from.part) {
        return Err(Refusal::SessionNotAllowed);
    }
    accepting(alloc, space, moment, entity, from.part, id)
}
