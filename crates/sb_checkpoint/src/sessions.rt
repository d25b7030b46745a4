// The sessions of all parts, each with the key of its part.
ghost use Rattle.std.specs.Prelude.{◌≡◌, ◌<◌, ◌++◌, ◌%◌, ◌^◌, map, length, OnOk};
ghost use Rattle.std.specs.List.{All, flat_map};
ghost use Rattle.sb_codec.specs.Forms.{number64};
ghost use Rattle.sb_entities.specs.Stores.{entities_in, entity_in, space_in};
ghost use Rattle.sb_snapshot.specs.Base.{placed_sessions, sessions_in};
ghost use Rattle.sb_snapshot.specs.Lists.{listed64};
ghost use Rattle.sb_snapshot.specs.Sessions as spec;
ghost use Rattle.sb_checkpoint.specs.Takings.{Takes};

use crate::items::{put_bytes, put_number};
use crate::leaves::key_of;
use crate::{Pieces, Unput};
use sb_entities::{EntityStore, SpaceStore};
use sb_machine::{LeafKey, Part, Session};
use sb_snapshot::put_session;

/// Hands the sessions on, those of each entity part by part.
pub(crate) fn put_sessions<P: Pieces>(
    space: &SpaceStore,
    scratch: &mut Vec<u8>,
    out: &mut P,
) -> Result<(), Unput>
    requires { (listed64 spec.is_next_session spec.session).Asks (flat_map sessions_in (space_in space.now).entities) }
    ensures takes { Takes P.Pieces out.old out.new ((listed64 spec.is_next_session spec.session).spell (flat_map sessions_in (space_in space.now).entities)) result }
    ensures fits { length (flat_map sessions_in (space_in space.now).entities) < 2 ^ 64
        → OnOk result ((listed64 spec.is_next_session spec.session).Fits (flat_map sessions_in (space_in space.now).entities)) }
{
    let entities = space.entities();
    put_count(entities, scratch, out)?;
    put_each(entities, scratch, out)
}

// ---- how many there are

fn put_count<P: Pieces>(
    entities: &[EntityStore],
    scratch: &mut Vec<u8>,
    out: &mut P,
) -> Result<(), Unput>
    ensures { Takes P.Pieces out.old out.new (number64.spell (length (flat_map sessions_in (entities_in entities.now)))) result }
{
    put_number(count_all(entities), scratch, out)
}

// Modulo 2^64, as its eight bytes are.
fn count_all(entities: &[EntityStore]) -> u64
    ensures { result ≡ length (flat_map sessions_in (entities_in entities.now)) % 2 ^ 64 }
{
    let mut count: u64 = 0;
    for entity in entities {
        count = count.wrapping_add(count_of(entity));
    }
    count
}

// Modulo 2^64.
fn count_of(entity: &EntityStore) -> u64
    ensures { result ≡ length (sessions_in (entity_in entity.now)) % 2 ^ 64 }
{
    let main = count_in(entity, Part::Main);
    let dead = count_in(entity, Part::Dead);
    let transfer = count_in(entity, Part::Transfer);
    main.wrapping_add(dead.wrapping_add(transfer))
}

fn count_in(entity: &EntityStore, part: Part) -> u64
    ensures { result ≡ length (placed_sessions (entity_in entity.now) part) }
{
    entity.part(part).sessions().as_slice().len() as u64
}

// ---- each of them

fn put_each<P: Pieces>(
    entities: &[EntityStore],
    scratch: &mut Vec<u8>,
    out: &mut P,
) -> Result<(), Unput>
    requires { All (λ e. All spec.session.Asks (sessions_in (entity_in e))) entities.now }
    ensures takes { Takes P.Pieces out.old out.new (flat_map spec.session.spell (flat_map sessions_in (entities_in entities.now))) result }
    ensures fits { OnOk result (All (λ e. All spec.session.Fits (sessions_in (entity_in e))) entities.now) }
{
    for entity in entities {
        put_three(entity, scratch, out)?;
    }
    Ok(())
}

fn put_three<P: Pieces>(
    entity: &EntityStore,
    scratch: &mut Vec<u8>,
    out: &mut P,
) -> Result<(), Unput>
    requires { All spec.session.Asks (sessions_in (entity_in entity.now)) }
    ensures takes { Takes P.Pieces out.old out.new (flat_map spec.session.spell (sessions_in (entity_in entity.now))) result }
    ensures fits { OnOk result (All spec.session.Fits (sessions_in (entity_in entity.now))) }
{
    put_part(entity, Part::Main, scratch, out)?;
    put_part(entity, Part::Dead, scratch, out)?;
    put_part(entity, Part::Transfer, scratch, out)
}

fn put_part<P: Pieces>(
    entity: &EntityStore,
    part: Part,
    scratch: &mut Vec<u8>,
    out: &mut P,
) -> Result<(), Unput>
    requires { All spec.session.Asks (placed_sessions (entity_in entity.now) part) }
    ensures takes { Takes P.Pieces out.old out.new (flat_map spec.session.spell (placed_sessions (entity_in entity.now) part)) result }
    ensures fits { OnOk result (All spec.session.Fits (placed_sessions (entity_in entity.now) part)) }
{
    let sessions = entity.part(part).sessions().as_slice();
    put_placed(&key_of(entity, part), sessions, scratch, out)
}

fn put_placed<P: Pieces>(
    key: &LeafKey,
    sessions: &[Session],
    scratch: &mut Vec<u8>,
    out: &mut P,
) -> Result<(), Unput>
    requires { All spec.session.Asks (map (spec.in_part key.now) sessions.now) }
    ensures takes { Takes P.Pieces out.old out.new (flat_map spec.session.spell (map (spec.in_part key.now) sessions.now)) result }
    ensures fits { OnOk result (All spec.session.Fits (map (spec.in_part key.now) sessions.now)) }
{
    for session in sessions {
        put_one(key, session, scratch, out)?;
    }
    Ok(())
}

fn put_one<P: Pieces>(
    key: &LeafKey,
    session: &Session,
    scratch: &mut Vec<u8>,
    out: &mut P,
) -> Result<(), Unput>
    requires { spec.session.Asks (spec.in_part key.now session.now) }
    ensures takes { Takes P.Pieces out.old out.new (spec.session.spell (spec.in_part key.now session.now)) result }
    ensures fits { OnOk result (spec.session.Fits (spec.in_part key.now session.now)) }
{
    scratch.clear();
    put_session(key, session, scratch)?;
    put_bytes(scratch, out)
}
