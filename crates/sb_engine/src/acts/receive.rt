// Receiving the first copy that may be received.
ghost use Rattle.std.specs.Prelude.{◌≡◌};
ghost use Rattle.std.specs.Option.{option_map};
ghost use Rattle.sb_machine.specs.Receiving as spec;
ghost use Rattle.sb_machine.specs.Namespace.{leaf_of};
ghost use Rattle.sb_entities.specs.Stores.{entity_in, space_in};
ghost use Rattle.sb_engine.specs.Drafts.{DraftsRow};
ghost use Rattle.sb_engine.specs.Heads.{claim_in};
ghost use Rattle.sb_engine.specs.Plans.{PlansRow};

use crate::Draft;
use crate::deliver::handing::handed_out;
use crate::find::claims::Claim;
use crate::find::holding::claimed_at_address;
use crate::plan::drafting::planned;
use sb_entities::{EntityStore, SpaceStore};
use sb_machine::{Mode, Part, Path, Refusal, Reply, StoredCopy, Token};
use std::alloc::{AllocError, Global};

fn first_ready<'a>(
    entity: &'a EntityStore,
    part: Part,
    claim: Option<Claim>,
) -> Option<&'a StoredCopy>
    ensures { option_map (λ c. c.now) result ≡ spec.first_ready (option_map claim_in claim.entry) (leaf_of part (entity_in entity.now)) }
{
    let copies = entity.part(part).copies();
    match claim {
        Some(claim) => copies.first_ready_of(claim.id.as_str()),
        None => copies.first_ready(),
    }
}

fn received(
    alloc: Global,
    space: &SpaceStore,
    moment: u64,
    entity: &EntityStore,
    part: Part,
    mode: Mode,
    claim: Option<Claim>,
) -> Result<Draft, AllocError>
    ensures { DraftsRow result (spec.received (space_in space.now) moment (entity_in entity.now) part mode (option_map claim_in claim.entry) (spec.first_ready (option_map claim_in claim.entry) (leaf_of part (entity_in entity.now)))) }
{
    match first_ready(entity, part, claim) {
        Some(copy) => handed_out(alloc, space, moment, entity, part, mode, claim, copy),
        None => Ok(Draft::unchanging(alloc, Reply::Empty)),
    }
}

/// What receiving at `moment`, in ms since 1970, would do.
pub fn plan_receive(
    alloc: Global,
    space: &SpaceStore,
    moment: u64,
    from: &Path,
    mode: Mode,
    session: Option<Token>,
) -> Result<Draft, Refusal>
    ensures { PlansRow result (spec.receive_row (space_in space.now) moment from.now mode session) }
{
    let receiver = claimed_at_address(space, moment, from, session)?;
    planned(received(
        alloc,
        space,
        moment,
        receiver.entity,
        from.part,
        mode,
        receiver.claim,
    ))
}
