// Telling what a session remembers.
ghost use Rattle.std.specs.Prelude.{◌≡◌, [], IfOk};
ghost use Rattle.sb_machine.specs.Rows.{answers};
ghost use Rattle.sb_machine.specs.Sessions as spec;
ghost use Rattle.sb_machine.specs.declared.reply.Reply.TheVariants.{State as Remembers};
ghost use Rattle.sb_entities.specs.Stores.{space_in};
ghost use Rattle.sb_engine.specs.Drafts.{DraftsRow};
ghost use Rattle.sb_engine.specs.Plans.{PlansRow};

use crate::Draft;
use crate::find::holding::{Held, held_at_address};
use crate::plan::drafting::planned;
use sb_entities::SpaceStore;
use sb_machine::{Path, Refusal, Reply, Token};
use sb_model::Rows;
use std::alloc::{AllocError, Global};

/// A copy of what a session remembers.
pub fn copied(state: &Option<Rows<u8>>) -> Result<Option<Rows<u8>>, AllocError>
    ensures { IfOk result (λ s. s ≡ state.now) }
{
    state.clone()
}

fn told(alloc: Global, state: &Option<Rows<u8>>) -> Result<Draft, AllocError>
    ensures { DraftsRow result (answers (Remembers state.now) []) }
{
    let state = copied(state)?;
    Ok(Draft::unchanging(alloc, Reply::State(state)))
}

/// What a session remembers at `moment`, in ms since 1970.
pub fn plan_session_state(
    alloc: Global,
    space: &SpaceStore,
    moment: u64,
    from: &Path,
    token: Token,
) -> Result<Draft, Refusal>
    ensures { PlansRow result (spec.session_state_row (space_in space.now) moment from.now token) }
{
    let Held { session, .. } = held_at_address(space, moment, from, token)?;
    planned(told(alloc, &session.state))
}
