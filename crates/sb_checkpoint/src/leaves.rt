// The three parts of each entity, without their sessions.
ghost use Rattle.std.specs.Prelude.{◌≡◌, ◌<◌, ◌%◌, ◌^◌, length, OnOk};
ghost use Rattle.std.specs.List.{All, flat_map};
ghost use Rattle.sb_codec.specs.Forms.{◌then◌, number64};
ghost use Rattle.sb_codec.specs.Messages.{any_next};
ghost use Rattle.sb_entities.specs.Stores.{entities_in, entity_in, space_in};
ghost use Rattle.sb_machine.specs.Namespace as namespace;
ghost use Rattle.sb_snapshot.specs.Base.{leaves_in, placed_leaf};
ghost use Rattle.sb_snapshot.specs.Copies.{copy};
ghost use Rattle.sb_snapshot.specs.Lists.{listed64};
ghost use Rattle.sb_snapshot.specs.Sessions as spec;
ghost use Rattle.sb_snapshot.specs.Sessions.{leaf};
ghost use Rattle.sb_checkpoint.specs.Takings.{Takes};

use crate::items::{put_bytes, put_found, put_number};
use crate::{Pieces, Unput};
use sb_copies::Shelf;
use sb_entities::{EntityStore, SpaceStore};
use sb_machine::{LeafKey, Part};
use sb_snapshot::{CopyPiece, put_leaf_head};

/// Hands the parts of the entities on, three of each.
pub(crate) fn put_leaves<P: Pieces>(
    space: &SpaceStore,
    scratch: &mut Vec<u8>,
    out: &mut P,
) -> Result<(), Unput>
    requires { (listed64 any_next leaf).Asks (flat_map leaves_in (space_in space.now).entities) }
    ensures takes { Takes P.Pieces out.old out.new ((listed64 any_next leaf).spell (flat_map leaves_in (space_in space.now).entities)) result }
    ensures fits { length (flat_map leaves_in (space_in space.now).entities) < 2 ^ 64
        → OnOk result ((listed64 any_next leaf).Fits (flat_map leaves_in (space_in space.now).entities)) }
{
    let entities = space.entities();
    put_count(entities, scratch, out)?;
    put_each(entities, scratch, out)
}

fn put_count<P: Pieces>(
    entities: &[EntityStore],
    scratch: &mut Vec<u8>,
    out: &mut P,
) -> Result<(), Unput>
    ensures { Takes P.Pieces out.old out.new (number64.spell (length (flat_map leaves_in (entities_in entities.now)))) result }
{
    put_number(count_all(entities), scratch, out)
}

// Modulo 2^64, as its eight bytes are.
fn count_all(entities: &[EntityStore]) -> u64
    ensures { result ≡ length (flat_map leaves_in (entities_in entities.now)) % 2 ^ 64 }
{
    let count = entities.len() as u64;
    count.wrapping_mul(3)
}

fn put_each<P: Pieces>(
    entities: &[EntityStore],
    scratch: &mut Vec<u8>,
    out: &mut P,
) -> Result<(), Unput>
    requires { All (λ e. All leaf.Asks (leaves_in (entity_in e))) entities.now }
    ensures takes { Takes P.Pieces out.old out.new (flat_map leaf.spell (flat_map leaves_in (entities_in entities.now))) result }
    ensures fits { OnOk result (All (λ e. All leaf.Fits (leaves_in (entity_in e))) entities.now) }
{
    for entity in entities {
        put_three(entity, scratch, out)?;
    }
    Ok(())
}

fn put_three<P: Pieces>(
    entity: &EntityStore,
    scratch: &mut Vec<u8>,
    out: &mut P,
) -> Result<(), Unput>
    requires { All leaf.Asks (leaves_in (entity_in entity.now)) }
    ensures takes { Takes P.Pieces out.old out.new (flat_map leaf.spell (leaves_in (entity_in entity.now))) result }
    ensures fits { OnOk result (All leaf.Fits (leaves_in (entity_in entity.now))) }
{
    put_leaf(entity, Part::Main, scratch, out)?;
    put_leaf(entity, Part::Dead, scratch, out)?;
    put_leaf(entity, Part::Transfer, scratch, out)
}

/// The key of a part.
pub(crate) fn key_of(entity: &EntityStore, part: Part) -> LeafKey
    ensures { result ≡ namespace.key_of part (entity_in entity.now) }
{
    LeafKey {
        entity: entity.about().number,
        part,
    }
}

fn put_leaf<P: Pieces>(
    entity: &EntityStore,
    part: Part,
    scratch: &mut Vec<u8>,
    out: &mut P,
) -> Result<(), Unput>
    requires { leaf.Asks (placed_leaf (entity_in entity.now) part) }
    ensures takes { Takes P.Pieces out.old out.new (leaf.spell (placed_leaf (entity_in entity.now) part)) result }
    ensures fits { OnOk result (leaf.Fits (placed_leaf (entity_in entity.now) part)) }
{
    let key = key_of(entity, part);
    let part = entity.part(part);
    put_part(&key, part.last(), part.copies(), scratch, out)
}

#[tactic(auto, unfolding(sb_snapshot::specs::Sessions::leaf))]
fn put_part<P: Pieces>(
    key: &LeafKey,
    last: u64,
    copies: &Shelf,
    scratch: &mut Vec<u8>,
    out: &mut P,
) -> Result<(), Unput>
    requires { leaf.Asks (record { key = key.now; last = last; copies = copies.now.copies }) }
    ensures takes { Takes P.Pieces out.old out.new (leaf.spell (record { key = key.now; last = last; copies = copies.now.copies })) result }
    ensures fits { OnOk result (leaf.Fits (record { key = key.now; last = last; copies = copies.now.copies })) }
{
    put_front(key, last, copies.size() as u64, scratch, out)?;
    put_copies(copies, scratch, out)
}

// What stands before the copies of a part.
fn put_front<P: Pieces>(
    key: &LeafKey,
    last: u64,
    count: u64,
    scratch: &mut Vec<u8>,
    out: &mut P,
) -> Result<(), Unput>
    ensures takes { Takes P.Pieces out.old out.new ((spec.key then number64 then number64).spell (key.now, (last, count))) result }
    ensures fits { OnOk result ((spec.key then number64 then number64).Fits (key.now, (last, count))) }
{
    scratch.clear();
    put_leaf_head(key, &last, &count, scratch)?;
    put_bytes(scratch, out)
}

fn put_copies<P: Pieces>(copies: &Shelf, scratch: &mut Vec<u8>, out: &mut P) -> Result<(), Unput>
    requires { All copy.Asks copies.now.copies }
    ensures takes { Takes P.Pieces out.old out.new (flat_map copy.spell copies.now.copies) result }
    ensures fits { OnOk result (All copy.Fits copies.now.copies) }
{
    let found = copies.all()?;
    put_found::<CopyPiece, P>(&found, scratch, out)
}
