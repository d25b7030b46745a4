// Making the lock of a session live longer.
ghost use Rattle.std.specs.Prelude.{◌≡◌};
ghost use Rattle.sb_machine.specs.Sessions as spec;
ghost use Rattle.sb_entities.specs.Stores.{space_in};
ghost use Rattle.sb_engine.specs.Plans.{PlansRow};

use crate::Draft;
use crate::deliver::handing::lock_end;
use crate::deliver::release::in_part;
use crate::find::holding::{Held, held_at_address};
use sb_entities::SpaceStore;
use sb_machine::{LeafChange, Path, Refusal, Reply, Session, Token};
use std::alloc::Global;

fn lives_until(session: &Session, end: u64) -> bool
    ensures { result ≡ spec.lives_until end session.now }
{
    match session.holder {
        Some(holder) => holder.until == end,
        None => false,
    }
}

/// What making the lock of a session live longer at `moment`, in ms since 1970, would do; takes no
/// memory.
pub fn plan_session_renew(
    alloc: Global,
    space: &SpaceStore,
    moment: u64,
    from: &Path,
    token: Token,
) -> Result<Draft, Refusal>
    ensures { PlansRow result (spec.session_renew_row (space_in space.now) moment from.now token) }
{
    let Held { entity, session } = held_at_address(space, moment, from, token)?;
    let Ok(end) = lock_end(entity, moment) else {
        return Err(Refusal::OutOfMemory);
    };
    let reply = Reply::Renewed { until: end };
    if lives_until(session, end) {
        return Ok(Draft::unchanging(alloc, reply));
    }
    let prolongs = LeafChange::Prolongs {
        lock: token.lock,
        until: end,
    };
    Ok(Draft::changing(alloc, reply, in_part(entity, from.part, prolongs)))
}
