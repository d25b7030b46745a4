// Taking back a scheduled message.
ghost use Rattle.std.specs.Prelude.{◌≡◌, IfErr};
ghost use Rattle.std.specs.Option.{option_map};
ghost use Rattle.sb_machine.specs.Receiving as spec;
ghost use Rattle.sb_machine.specs.Rows.{refuses};
ghost use Rattle.sb_entities.specs.Stores.{entity_in, leaf_in, space_in};
ghost use Rattle.sb_engine.specs.Plans.{PlansRow};

use crate::Draft;
use crate::deliver::release::in_part;
use crate::find::heads::entity_at_address;
use sb_entities::{EntityStore, PartStore, SpaceStore};
use sb_machine::{Cause, LeafChange, Part, Path, Refusal, Reply, StoredCopy};
use std::alloc::Global;

fn scheduled_copy(part: &PartStore, number: u64) -> Option<&StoredCopy>
    ensures { option_map (λ c. c.now) result ≡ spec.scheduled_copy number (leaf_in part.now) }
{
    part.copies().scheduled(number)
}

fn cancelled(
    alloc: Global,
    entity: &EntityStore,
    part: Part,
    copy: Option<&StoredCopy>,
) -> Result<Draft, Refusal>
    ensures row { PlansRow result (spec.cancelled (entity_in entity.now) part (option_map (λ c. c.now) copy.entry)) }
    ensures free { IfErr result (λ r. spec.cancelled (entity_in entity.now) part (option_map (λ c. c.now) copy.entry) ≡ refuses r) }
{
    let Some(copy) = copy else {
        return Err(Refusal::NotScheduled);
    };
    let ends = LeafChange::Ends {
        number: copy.number,
        settled: false,
        cause: Cause::Cancelled,
    };
    Ok(Draft::changing(alloc, Reply::Done, in_part(entity, part, ends)))
}

/// What taking back the scheduled message of this number would do. Memory is never wanting.
pub fn plan_cancel(
    alloc: Global,
    space: &SpaceStore,
    from: &Path,
    number: u64,
) -> Result<Draft, Refusal>
    ensures row { PlansRow result (spec.cancel_row (space_in space.now) from.now number) }
    ensures free { IfErr result (λ r. spec.cancel_row (space_in space.now) from.now number ≡ refuses r) }
{
    let entity = entity_at_address(space, from)?;
    let copy = scheduled_copy(entity.part(from.part), number);
    cancelled(alloc, entity, from.part, copy)
}
