// The operations of a transaction act together, behind other changes and within the quota.
ghost use Rattle.std.specs.Prelude.{◌≡◌, Some, true};
ghost use Rattle.std.specs.List.{list_all};
ghost use Rattle.sb_entities.specs.Stores.{entity_in, space_in};
ghost use Rattle.sb_machine.specs.Namespace.{entity_of};
ghost use Rattle.sb_engine.specs.Commits as commits;
ghost use Rattle.sb_engine.specs.Fulfilments.{Fulfils};

use crate::deliver::committing::act_all;
use crate::deliver::sending::Sending;
use crate::plan::quota::judge_quota;
use sb_entities::{EntityStore, SpaceStore};
use sb_machine::{Changes, Operation, Receipt, Refusal};
use sb_model::Rows;
use sb_names::goes_with;
use std::alloc::Global;
use std::collections::VecDeque;

/// What operations did that acted together.
#[derive(Drop)]
pub struct Fulfilled {
    pub changes: Changes,
    /// Those of each send, in order.
    pub receipts: VecDeque<Rows<Receipt>>,
}

fn goes_well(operation: &Operation) -> bool
    ensures { result ≡ commits.goes_well operation.now }
{
    match operation {
        Operation::Send { .. } => true,
        Operation::Settle { from, how, .. } => goes_with(how, from.part),
    }
}

fn all_go_well(operations: &[Operation]) -> bool
    ensures { result ≡ list_all commits.goes_well operations.now }
{
    operations.iter().all(|o| goes_well(o))
}

/// The operations of a transaction on an entity act at `moment`, in ms since 1970, one after
/// another, behind changes by which no copy is moved. Memory is wanting where a settlement doesn't
/// go with the part that it is on, which is never queued.
pub fn fulfil(
    alloc: Global,
    space: &SpaceStore,
    moment: u64,
    entity: &EntityStore,
    front: Changes,
    operations: &[Operation],
) -> Result<Fulfilled, Refusal>
    requires there { entity_of (entity_in entity.now).about.number (space_in space.now) ≡ Some (entity_in entity.now) }
    requires front { list_all commits.is_front front ≡ true }
    ensures { Fulfils moment (space_in space.now) (entity_in entity.now) front operations.now result }
{
    if !all_go_well(operations) {
        drop(front);
        return Err(Refusal::OutOfMemory);
    }
    let mut sending = Sending::behind(alloc, front);
    let mut done = Vec::new(alloc);
    let mut receipts = VecDeque::new(alloc);
    let Ok(()) = act_all(
        alloc,
        space,
        &mut sending,
        &mut done,
        &mut receipts,
        entity,
        moment,
        operations,
    ) else {
        drop(sending);
        drop(receipts);
        return Err(Refusal::OutOfMemory);
    };
    let Sending { changes, .. } = sending;
    match judge_quota(space, moment, &changes) {
        Ok(()) => Ok(Fulfilled { changes, receipts }),
        Err(refusal) => {
            drop(changes);
            drop(receipts);
            Err(refusal)
        }
    }
}
