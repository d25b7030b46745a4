// By whom a part is received: by anybody, or by the holder of a session.
ghost use Rattle.std.specs.Prelude.{◌≡◌, ◌&&◌, MatchResult};
ghost use Rattle.std.specs.Option.{option_map};
ghost use Rattle.sb_machine.specs.Claims as spec;
ghost use Rattle.sb_machine.specs.Leases as leases;
ghost use Rattle.sb_entities.specs.Stores.{entity_in, leaf_in, space_in};
ghost use Rattle.sb_engine.specs.Heads.{Passes, Refuses, Allows, Forbids, claim_in};

use sb_entities::{EntityStore, PartStore, SpaceStore};
use sb_machine::{Part, Refusal, Session, Token};
use sb_model::Text;
use sb_names::is_main;

/// The session that a receiver holds, and the lock that holds it.
#[derive(Clone, Copy)]
pub struct Claim<'a> {
    pub id: &'a Text,
    /// The number of the lock.
    pub lock: u64,
    /// Up to when the lock lives, in ms since 1970.
    pub until: u64,
}

/// Whether the messages of this part belong to sessions.
pub fn has_sessions(entity: &EntityStore, part: Part) -> bool
    ensures { result ≡ spec.has_sessions (entity_in entity.now) part }
{
    is_main(part) && entity.about().description.requires_session
}

/// Whether a session is given just where the part has sessions.
pub fn check_session(
    entity: &EntityStore,
    part: Part,
    session: Option<Token>,
) -> Result<(), Refusal>
    ensures { MatchResult result (λ _. Allows (spec.asks_session (entity_in entity.now) part session)) (λ r. Forbids (spec.asks_session (entity_in entity.now) part session) r) }
{
    let has_sessions = has_sessions(entity, part);
    match session {
        Some(_) => {
            if has_sessions {
                Ok(())
            } else {
                Err(Refusal::SessionNotAllowed)
            }
        }
        None => {
            if has_sessions {
                Err(Refusal::SessionRequired)
            } else {
                Ok(())
            }
        }
    }
}

/// The session of a part whose living holder the token is at `moment`, in ms since 1970.
pub fn held_session<'a>(
    space: &SpaceStore,
    moment: u64,
    part: &'a PartStore,
    token: Token,
) -> Option<&'a Session>
    ensures { option_map (λ x. x.now) result ≡ leases.held_session (space_in space.now) moment token (leaf_in part.now) }
{
    part.sessions().held(space.salt(), moment, token)
}

fn claim_of<'a>(lock: u64, session: &'a Session) -> Claim<'a>
    ensures { claim_in result ≡ spec.claim_of lock session.now }
{
    let until = match session.holder {
        Some(holder) => holder.until,
        None => 0,
    };
    Claim {
        id: &session.id,
        lock,
        until,
    }
}

/// What the receiver holds, where the token that it gives is the living holder of a session at
/// `moment`, in ms since 1970.
pub fn claim_by<'a>(
    space: &SpaceStore,
    moment: u64,
    part: &'a PartStore,
    session: Option<Token>,
) -> Result<Option<Claim<'a>>, Refusal>
    ensures { MatchResult result (λ c. Passes (spec.asks_holder (space_in space.now) moment (leaf_in part.now) session) (option_map claim_in c)) (λ r. Refuses (spec.asks_holder (space_in space.now) moment (leaf_in part.now) session) r) }
{
    let Some(token) = session else {
        return Ok(None);
    };
    match held_session(space, moment, part, token) {
        Some(found) => Ok(Some(claim_of(token.lock, found))),
        None => Err(Refusal::SessionLost),
    }
}
