// The entity that an act is on.
ghost use Rattle.std.specs.Prelude.{◌≡◌, ◌||◌, not, MatchResult};
ghost use Rattle.sb_machine.specs.Rows as rows;
ghost use Rattle.sb_entities.specs.Stores.{entity_in, space_in};
ghost use Rattle.sb_engine.specs.Heads.{Passes, Refuses};

use crate::acts::kinds::is_topic;
use sb_entities::{EntityStore, SpaceStore};
use sb_machine::{Part, Path, Refusal};
use sb_names::is_address;

/// The entity that an address names.
pub fn entity_at_address<'a>(space: &'a SpaceStore, path: &Path) -> Result<&'a EntityStore, Refusal>
    ensures { MatchResult result (λ e. Passes (rows.at_entity (space_in space.now) path.now) (entity_in e.now)) (λ r. Refuses (rows.at_entity (space_in space.now) path.now) r) }
{
    if !is_address(path) {
        return Err(Refusal::BadName);
    }
    match space.at(path) {
        Some(entity) => Ok(entity),
        None => Err(Refusal::EntityNotFound),
    }
}

fn is_transfer(part: Part) -> bool
    ensures { result ≡ rows.is_transfer part }
{
    matches!(part, Part::Transfer)
}

fn is_receivable(entity: &EntityStore, part: Part) -> bool
    ensures { result ≡ rows.is_receivable (entity_in entity.now) part }
{
    !is_topic(entity.about().kind) || is_transfer(part)
}

/// The same, where the part that the address names is received from.
pub fn receivable_at_address<'a>(
    space: &'a SpaceStore,
    path: &Path,
) -> Result<&'a EntityStore, Refusal>
    ensures { MatchResult result (λ e. Passes (rows.at_receivable (space_in space.now) path.now) (entity_in e.now)) (λ r. Refuses (rows.at_receivable (space_in space.now) path.now) r) }
{
    let entity = entity_at_address(space, path)?;
    if is_receivable(entity, path.part) {
        Ok(entity)
    } else {
        Err(Refusal::WrongKind)
    }
}
