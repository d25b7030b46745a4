// Entities without their parts: what they are, and the ids that they have accepted.
ghost use Rattle.std.specs.Prelude.{map, OnOk};
ghost use Rattle.std.specs.List.{All, flat_map};
ghost use Rattle.sb_entities.specs.Stores.{entities_in, entity_in, space_in};
ghost use Rattle.sb_snapshot.specs.Base.{head_of};
ghost use Rattle.sb_snapshot.specs.Entities.{accepted, head, is_next_head, is_next_id};
ghost use Rattle.sb_snapshot.specs.Lists.{listed64};
ghost use Rattle.sb_checkpoint.specs.Takings.{Takes};

use crate::items::{put_item, put_items, put_number};
use crate::{Pieces, Unput};
use sb_entities::{EntityStore, SpaceStore};
use sb_repeats::Window;
use sb_snapshot::{AboutPiece, AcceptedPiece};

/// Hands the entities on, by number.
pub(crate) fn put_heads<P: Pieces>(
    space: &SpaceStore,
    scratch: &mut Vec<u8>,
    out: &mut P,
) -> Result<(), Unput>
    requires { (listed64 is_next_head head).Asks (map head_of (space_in space.now).entities) }
    ensures takes { Takes P.Pieces out.old out.new ((listed64 is_next_head head).spell (map head_of (space_in space.now).entities)) result }
    ensures fits { OnOk result ((listed64 is_next_head head).Fits (map head_of (space_in space.now).entities)) }
{
    let entities = space.entities();
    put_number(entities.len() as u64, scratch, out)?;
    put_each(entities, scratch, out)
}

fn put_each<P: Pieces>(
    entities: &[EntityStore],
    scratch: &mut Vec<u8>,
    out: &mut P,
) -> Result<(), Unput>
    requires { All (λ e. head.Asks (head_of (entity_in e))) entities.now }
    ensures takes { Takes P.Pieces out.old out.new (flat_map head.spell (map head_of (entities_in entities.now))) result }
    ensures fits { OnOk result (All (λ e. head.Fits (head_of (entity_in e))) entities.now) }
{
    for entity in entities {
        put_head(entity, scratch, out)?;
    }
    Ok(())
}

#[tactic(auto, unfolding(sb_snapshot::specs::Entities::head))]
fn put_head<P: Pieces>(
    entity: &EntityStore,
    scratch: &mut Vec<u8>,
    out: &mut P,
) -> Result<(), Unput>
    requires { head.Asks (head_of (entity_in entity.now)) }
    ensures takes { Takes P.Pieces out.old out.new (head.spell (head_of (entity_in entity.now))) result }
    ensures fits { OnOk result (head.Fits (head_of (entity_in entity.now))) }
{
    put_item::<AboutPiece, P>(entity.about(), scratch, out)?;
    put_ids(entity.ids(), scratch, out)
}

// They may stand in two slices, as a ring has them.
fn put_ids<P: Pieces>(ids: &Window, scratch: &mut Vec<u8>, out: &mut P) -> Result<(), Unput>
    requires { (listed64 is_next_id accepted).Asks ids.now.ids }
    ensures takes { Takes P.Pieces out.old out.new ((listed64 is_next_id accepted).spell ids.now.ids) result }
    ensures fits { OnOk result ((listed64 is_next_id accepted).Fits ids.now.ids) }
{
    let (front, back) = ids.as_slices();
    put_number(front.len() as u64 + back.len() as u64, scratch, out)?;
    put_items::<AcceptedPiece, P>(front, scratch, out)?;
    put_items::<AcceptedPiece, P>(back, scratch, out)
}
