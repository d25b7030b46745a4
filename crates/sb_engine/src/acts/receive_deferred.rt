// Receiving a deferred copy by its number.
ghost use Rattle.std.specs.Prelude.{◌≡◌, ◌&&◌, false, Some};
ghost use Rattle.std.specs.Option.{option_map};
ghost use Rattle.sb_machine.specs.Delivery as delivery;
ghost use Rattle.sb_machine.specs.Names as names;
ghost use Rattle.sb_machine.specs.Namespace as namespace;
ghost use Rattle.sb_machine.specs.Receiving as spec;
ghost use Rattle.sb_machine.specs.Rows.{answers};
ghost use Rattle.sb_machine.specs.declared.reply.Reply.TheVariants.{Expired};
ghost use Rattle.sb_machine.specs.Namespace.{leaf_of};
ghost use Rattle.sb_entities.specs.Stores.{entity_in, space_in};
ghost use Rattle.sb_engine.specs.Heads.{claim_in};
ghost use Rattle.sb_engine.specs.Drafts.{DraftsRow};
ghost use Rattle.sb_engine.specs.Plans.{PlansRow};

use crate::Draft;
use crate::deliver::handing::handed_out;
use crate::deliver::release::{expired, is_expired};
use crate::find::claims::Claim;
use crate::find::holding::claimed_at_address;
use crate::plan::drafting::planned;
use sb_entities::{EntityStore, SpaceStore};
use sb_fanout::Lasts;
use sb_machine::{Changes, Mode, Part, Path, Refusal, Reply, StoredCopy, Token};
use sb_names::is_main;
use std::alloc::{AllocError, Global};

fn deferred_copy<'a>(
    entity: &'a EntityStore,
    part: Part,
    number: u64,
    claim: Option<Claim>,
) -> Option<&'a StoredCopy>
    ensures { option_map (λ c. c.now) result ≡ spec.deferred_copy number (option_map claim_in claim.entry) (leaf_of part (entity_in entity.now)) }
{
    let copies = entity.part(part).copies();
    match claim {
        Some(claim) => copies.deferred_of(number, claim.id.as_str()),
        None => copies.deferred(number),
    }
}

fn has_expired_in(part: Part, copy: &StoredCopy, moment: u64) -> bool
    ensures { result ≡ (names.is_main part && delivery.is_expired moment copy.now) }
{
    is_main(part) && is_expired(copy, moment)
}

fn expired_deferred(
    alloc: Global,
    space: &SpaceStore,
    entity: &EntityStore,
    copy: &StoredCopy,
) -> Result<Draft, AllocError>
    ensures { DraftsRow result (answers (Expired copy.now.number) (delivery.expired (namespace.listed (space_in space.now)) (entity_in entity.now) copy.now false)) }
{
    let mut lasts = Lasts::new(alloc);
    let mut changes = Changes::new(alloc);
    let Ok(()) = expired(alloc, space, &mut lasts, &mut changes, entity, copy, false) else {
        drop(changes);
        return Err(AllocError);
    };
    let reply = Reply::Expired {
        number: copy.number,
    };
    Ok(Draft { reply, changes })
}

fn handed_out_or_expired(
    alloc: Global,
    space: &SpaceStore,
    moment: u64,
    entity: &EntityStore,
    part: Part,
    mode: Mode,
    claim: Option<Claim>,
    copy: &StoredCopy,
) -> Result<Draft, AllocError>
    ensures { DraftsRow result (spec.deferred_received (space_in space.now) moment (entity_in entity.now) part mode (option_map claim_in claim.entry) (Some copy.now)) }
{
    if has_expired_in(part, copy, moment) {
        return expired_deferred(alloc, space, entity, copy);
    }
    handed_out(alloc, space, moment, entity, part, mode, claim, copy)
}

fn deferred_received(
    alloc: Global,
    space: &SpaceStore,
    moment: u64,
    entity: &EntityStore,
    part: Part,
    number: u64,
    mode: Mode,
    claim: Option<Claim>,
) -> Result<Draft, Refusal>
    ensures { PlansRow result (spec.deferred_received (space_in space.now) moment (entity_in entity.now) part mode (option_map claim_in claim.entry) (spec.deferred_copy number (option_map claim_in claim.entry) (leaf_of part (entity_in entity.now)))) }
{
    match deferred_copy(entity, part, number, claim) {
        Some(copy) => planned(handed_out_or_expired(
            alloc, space, moment, entity, part, mode, claim, copy,
        )),
        None => Err(Refusal::NotDeferred),
    }
}

/// What receiving the deferred copy of this number at `moment`, in ms since 1970, would do.
pub fn plan_receive_deferred(
    alloc: Global,
    space: &SpaceStore,
    moment: u64,
    from: &Path,
    number: u64,
    mode: Mode,
    session: Option<Token>,
) -> Result<Draft, Refusal>
    ensures { PlansRow result (spec.receive_deferred_row (space_in space.now) moment from.now number mode session) }
{
    let receiver = claimed_at_address(space, moment, from, session)?;
    deferred_received(
        alloc,
        space,
        moment,
        receiver.entity,
        from.part,
        number,
        mode,
        receiver.claim,
    )
}
