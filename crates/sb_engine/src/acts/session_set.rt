// Setting what a session remembers.
ghost use Rattle.std.specs.Prelude.{◌≡◌, [], ◌∷◌, if◌then◌else◌};
ghost use Rattle.sb_machine.specs.Delivery.{in_part as change_in};
ghost use Rattle.sb_machine.specs.Names as names;
ghost use Rattle.sb_machine.specs.Rows.{answers};
ghost use Rattle.sb_machine.specs.Sessions as spec;
ghost use Rattle.sb_machine.specs.declared.change.LeafChange.TheVariants.{Writes};
ghost use Rattle.sb_machine.specs.declared.reply.Reply.TheVariants.{Done};
ghost use Rattle.sb_entities.specs.Stores.{entity_in, space_in};
ghost use Rattle.sb_engine.specs.Drafts.{DraftsRow};
ghost use Rattle.sb_engine.specs.Plans.{PlansRow};

use crate::Draft;
use crate::acts::session_state::copied;
use crate::deliver::release::in_part;
use crate::find::holding::{Held, held_at_address};
use crate::plan::drafting::planned;
use sb_entities::{EntityStore, SpaceStore};
use sb_machine::{LeafChange, Part, Path, Refusal, Reply, Token};
use sb_model::Rows;
use sb_names::limits::MAX_STATE;
use std::alloc::{AllocError, Global};

fn size_of(state: &Option<Rows<u8>>) -> usize
    ensures { result ≡ spec.size_of state.now }
{
    match state {
        Some(bytes) => bytes.len(),
        None => 0,
    }
}

fn is_same(a: &Option<Rows<u8>>, b: &Option<Rows<u8>>) -> bool
    ensures { result ≡ names.is_same_option a.now b.now }
{
    match (a, b) {
        (None, None) => true,
        (Some(a), Some(b)) => a.as_slice() == b.as_slice(),
        (None, Some(_)) | (Some(_), None) => false,
    }
}

fn written(
    alloc: Global,
    entity: &EntityStore,
    part: Part,
    lock: u64,
    state: &Option<Rows<u8>>,
) -> Result<Draft, AllocError>
    ensures { DraftsRow result (answers Done (change_in part (entity_in entity.now) (Writes lock state.now) ∷ [])) }
{
    let writes = LeafChange::Writes {
        lock,
        state: copied(state)?,
    };
    Ok(Draft::changing(alloc, Reply::Done, in_part(entity, part, writes)))
}

/// What setting the bytes that a session remembers, or clearing them, would do at `moment`, in ms
/// since 1970.
pub fn plan_session_set(
    alloc: Global,
    space: &SpaceStore,
    moment: u64,
    from: &Path,
    token: Token,
    state: &Option<Rows<u8>>,
) -> Result<Draft, Refusal>
    ensures { PlansRow result (spec.session_set_row (space_in space.now) moment from.now token state.now) }
{
    let Held { entity, session } = held_at_address(space, moment, from, token)?;
    let size = size_of(state);
    if size > MAX_STATE {
        return Err(Refusal::TooLarge { size: size as u64 });
    }
    if is_same(&session.state, state) {
        return Ok(Draft::unchanging(alloc, Reply::Done));
    }
    planned(written(alloc, entity, from.part, token.lock, state))
}
