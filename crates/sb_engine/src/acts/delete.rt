// Removing an entity.
ghost use Rattle.std.specs.Prelude.{◌≡◌, [], ◌∷◌, ◌++◌, map, filter, OnOk};
ghost use Rattle.sb_entities.specs.Stores.{space_in, entity_in, entities_in};
ghost use Rattle.sb_machine.specs.Administration as administration;
ghost use Rattle.sb_machine.specs.Rows as rows;
ghost use Rattle.sb_machine.specs.Visits as visits;
ghost use Rattle.sb_machine.specs.declared.change.Change.TheVariants.{Removes};
ghost use Rattle.sb_machine.specs.declared.reply.Reply.TheVariants.{Done};
ghost use Rattle.sb_engine.specs.Plans.{PlansRow};
ghost use Rattle.sb_engine.specs.Removals.{goes_with};

use crate::Draft;
use crate::acts::kinds::is_topic;
use sb_entities::{EntityStore, SpaceStore};
use sb_machine::{Change, Changes, Listed, Path, Refusal, Reply};
use sb_names::is_address;
use std::alloc::{AllocError, Global};

fn is_under(topic: &str, entity: &Listed) -> bool
    ensures { result ≡ visits.is_under topic.now entity.now }
{
    match entity.path.subscription {
        Some(_) => entity.path.name.as_str() == topic,
        None => false,
    }
}

// A topic's subscriptions are removed.
fn remove_under(
    changes: &mut Changes,
    topic: &str,
    entities: &[EntityStore],
) -> Result<(), AllocError>
    ensures { OnOk result (changes.new ≡ changes.old ++ map (λ x. Removes x.about.number) (filter (λ x. visits.is_under topic.now x.about) (entities_in entities.now))) }
{
    for entity in entities {
        if is_under(topic, entity.about()) {
            let entity = entity.about().number;
            changes.push(Change::Removes { entity })?;
        }
    }
    Ok(())
}

// What goes with an entity is removed.
fn remove_with(changes: &mut Changes, space: &SpaceStore, about: &Listed) -> Result<(), AllocError>
    ensures { OnOk result (changes.new ≡ changes.old ++ map (λ x. Removes x.about.number) (goes_with (space_in space.now) about.now)) }
{
    if is_topic(about.kind) {
        remove_under(changes, about.path.name.as_str(), space.entities())?;
    }
    Ok(())
}

fn remove(alloc: Global, space: &SpaceStore, about: &Listed) -> Result<Draft, Refusal>
    ensures { PlansRow result (rows.answers Done (Removes about.now.number ∷ map (λ x. Removes x.about.number) (goes_with (space_in space.now) about.now))) }
{
    let entity = about.number;
    let mut draft = Draft::changing(alloc, Reply::Done, Change::Removes { entity });
    match remove_with(&mut draft.changes, space, about) {
        Ok(()) => Ok(draft),
        Err(_) => {
            drop(draft);
            Err(Refusal::OutOfMemory)
        }
    }
}

/// An entity is removed with all that it holds, a topic with its subscriptions.
pub fn plan_delete(alloc: Global, space: &SpaceStore, path: &Path) -> Result<Draft, Refusal>
    ensures { PlansRow result (administration.delete_row (space_in space.now) path.now) }
{
    if !is_address(path) {
        return Err(Refusal::BadName);
    }
    let Some(entity) = space.at(path) else {
        return Err(Refusal::EntityNotFound);
    };
    remove(alloc, space, entity.about())
}
