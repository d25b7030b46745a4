// By whom a part is received, where an address is given.
ghost use Rattle.std.specs.Prelude.{◌≡◌, Option, MatchResult};
ghost use Rattle.std.specs.Option.{option_map};
ghost use Rattle.sb_machine.specs.Claims.{Claim as Claiming};
ghost use Rattle.sb_machine.specs.Rows.{Row, refuses};
ghost use Rattle.sb_machine.specs.Sessions as spec;
ghost use Rattle.sb_machine.specs.declared.state.Entity.{Entity};
ghost use Rattle.sb_machine.specs.declared.state.Session.{Session as Sitting};
ghost use Rattle.sb_entities.specs.Stores.{entity_in, space_in};
ghost use Rattle.sb_engine.specs.Heads.{by_claim, claim_in};

use crate::find::claims::{Claim, check_session, claim_by, has_sessions, held_session};
use crate::find::heads::{entity_at_address, receivable_at_address};
use sb_entities::{EntityStore, SpaceStore};
use sb_machine::{Path, Refusal, Session, Token};

/// An entity, and the session of one of its parts that is spoken of.
#[derive(Clone, Copy)]
pub struct Held<'a> {
    pub entity: &'a EntityStore,
    pub session: &'a Session,
}

/// An entity, and by whom one of its parts is received.
#[derive(Clone, Copy)]
pub struct Claimed<'a> {
    pub entity: &'a EntityStore,
    pub claim: Option<Claim<'a>>,
}

/// Who receives there at `moment`, in ms since 1970: anybody, or the holder of a session that the
/// token is.
pub fn claimed_at_address<'a>(
    space: &'a SpaceStore,
    moment: u64,
    from: &Path,
    session: Option<Token>,
) -> Result<Claimed<'a>, Refusal>
    ensures { MatchResult result (λ h. (next : Entity → Option Claiming → Row) → by_claim (space_in space.now) moment from.now session next ≡ next (entity_in h.entity.now) (option_map claim_in h.claim)) (λ r. (next : Entity → Option Claiming → Row) → by_claim (space_in space.now) moment from.now session next ≡ refuses r) }
{
    let entity = receivable_at_address(space, from)?;
    check_session(entity, from.part, session)?;
    let claim = claim_by(space, moment, entity.part(from.part), session)?;
    Ok(Claimed { entity, claim })
}

/// The session whose living holder the token is at `moment`, in ms since 1970.
pub fn held_at_address<'a>(
    space: &'a SpaceStore,
    moment: u64,
    from: &Path,
    token: Token,
) -> Result<Held<'a>, Refusal>
    ensures { MatchResult result (λ h. (next : Entity → Sitting → Row) → spec.by_holder (space_in space.now) moment from.now token next ≡ next (entity_in h.entity.now) h.session.now) (λ r. (next : Entity → Sitting → Row) → spec.by_holder (space_in space.now) moment from.now token next ≡ refuses r) }
{
    let entity = entity_at_address(space, from)?;
    if !has_sessions(entity, from.part) {
        return Err(Refusal::SessionNotAllowed);
    }
    match held_session(space, moment, entity.part(from.part), token) {
        Some(session) => Ok(Held { entity, session }),
        None => Err(Refusal::SessionLost),
    }
}
