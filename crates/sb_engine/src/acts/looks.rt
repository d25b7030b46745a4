// Looking, and counting.
ghost use Rattle.std.specs.Prelude.{◌≡◌, length};
ghost use Rattle.sb_entities.specs.Stores.{space_in, entity_in};
ghost use Rattle.sb_machine.specs.Administration as administration;
ghost use Rattle.sb_machine.specs.Namespace.{leaf_of};
ghost use Rattle.sb_machine.specs.Receiving as receiving;
ghost use Rattle.sb_engine.specs.Plans.{PlansRow};

use crate::Draft;
use sb_entities::{EntityStore, SpaceStore};
use sb_machine::{Part, Path, Refusal, Reply};
use sb_names::is_address;
use std::alloc::Global;

/// Up to `count` copies are shown, from the number `start` on.
pub fn plan_peek(
    alloc: Global,
    space: &SpaceStore,
    from: &Path,
    start: u64,
    count: u64,
) -> Result<Draft, Refusal>
    ensures { PlansRow result (receiving.peek_row (space_in space.now) from.now start count) }
{
    if !is_address(from) {
        return Err(Refusal::BadName);
    }
    let Some(entity) = space.at(from) else {
        return Err(Refusal::EntityNotFound);
    };
    match entity.part(from.part).copies().peek(start, count) {
        Ok(seen) => Ok(Draft::unchanging(alloc, Reply::Copies(seen))),
        Err(_) => Err(Refusal::OutOfMemory),
    }
}

fn size_of(entity: &EntityStore, part: Part) -> u64
    ensures { result ≡ length (leaf_of part (entity_in entity.now)).copies }
{
    entity.part(part).copies().size() as u64
}

/// The copies of an entity's parts are counted.
pub fn plan_counts(alloc: Global, space: &SpaceStore, path: &Path) -> Result<Draft, Refusal>
    ensures { PlansRow result (administration.counts_row (space_in space.now) path.now) }
{
    if !is_address(path) {
        return Err(Refusal::BadName);
    }
    let Some(entity) = space.at(path) else {
        return Err(Refusal::EntityNotFound);
    };
    let counts = Reply::Counts {
        main: size_of(entity, Part::Main),
        dead: size_of(entity, Part::Dead),
        transfer: size_of(entity, Part::Transfer),
    };
    Ok(Draft::unchanging(alloc, counts))
}
