// What each act would do.
ghost use Rattle.std.specs.Prelude.{◌≡◌, ◌≤◌, true, IfErr};
ghost use Rattle.sb_entities.specs.Stores.{space_in};
ghost use Rattle.sb_machine.specs.Acts.{act_row};
ghost use Rattle.sb_machine.specs.Answers.{max_moment};
ghost use Rattle.sb_machine.specs.Rows.{refuses};
ghost use Rattle.sb_engine.specs.Gatherings.{sets_once};
ghost use Rattle.sb_engine.specs.Plans.{PlansRow};
ghost use Rattle.sb_engine.specs.Small.{is_small};

mod accept;
mod cancel;
mod commit;
mod create;
mod delete;
mod fitting;
mod gathering;
pub mod kinds;
mod looks;
mod receive;
mod receive_deferred;
mod renew;
mod rules;
mod send;
mod session_close;
mod session_renew;
mod session_set;
mod session_state;
mod settle;
mod together;
mod transactions;
mod views;

use crate::Draft;
use crate::acts::accept::plan_accept;
use crate::acts::cancel::plan_cancel;
use crate::acts::commit::plan_commit;
use crate::acts::create::{plan_create, plan_create_subscription};
use crate::acts::delete::plan_delete;
use crate::acts::looks::{plan_counts, plan_peek};
use crate::acts::receive::plan_receive;
use crate::acts::receive_deferred::plan_receive_deferred;
use crate::acts::renew::plan_renew;
use crate::acts::rules::{plan_create_rule, plan_delete_rule};
use crate::acts::send::plan_send;
use crate::acts::session_close::plan_session_close;
use crate::acts::session_renew::plan_session_renew;
use crate::acts::session_set::plan_session_set;
use crate::acts::session_state::plan_session_state;
use crate::acts::settle::plan_settle;
use crate::acts::together::plan_together;
use crate::acts::transactions::{plan_begin, plan_rollback};
use crate::acts::views::plan_look;
use sb_entities::SpaceStore;
use sb_machine::{Act, EntityKind, Refusal, Reply};
use std::alloc::Global;

/// What an act would do at a moment at which nothing is due.
pub fn plan_act(alloc: Global, space: &SpaceStore, moment: u64, act: &Act) -> Result<Draft, Refusal>
    requires moment { moment ≤ max_moment }
    requires once { sets_once act.now ≡ true }
    ensures row { PlansRow result (act_row (space_in space.now) moment act.now) }
    ensures free { is_small act.now ≡ true → IfErr result (λ r. act_row (space_in space.now) moment act.now ≡ refuses r) }
{
    match act {
        Act::CreateQueue { name, description } => {
            plan_create(alloc, space, EntityKind::Queue, name, description)
        }
        Act::CreateTopic { name, description } => {
            plan_create(alloc, space, EntityKind::Topic, name, description)
        }
        Act::CreateSubscription {
            topic,
            name,
            description,
        } => plan_create_subscription(alloc, space, topic, name, description),
        Act::CreateRule {
            topic,
            subscription,
            name,
            filter,
            action,
        } => plan_create_rule(alloc, space, topic, subscription, name, filter, action),
        Act::Delete { entity } => plan_delete(alloc, space, entity),
        Act::DeleteRule {
            topic,
            subscription,
            name,
        } => plan_delete_rule(alloc, space, topic, subscription, name),
        Act::Begin { entity } => plan_begin(alloc, space, moment, entity),
        Act::Rollback { txn } => plan_rollback(alloc, space, *txn),
        Act::Together { entity, steps } => plan_together(alloc, space, moment, entity, steps),
        Act::ForgetClient { .. } => Ok(Draft::unchanging(alloc, Reply::Done)),
        Act::Peek { from, start, count } => plan_peek(alloc, space, from, *start, *count),
        Act::Counts { entity } => plan_counts(alloc, space, entity),
        Act::Look { what } => plan_look(alloc, space, what),
        Act::Send { to, messages, txn } => plan_send(alloc, space, moment, to, messages, *txn),
        Act::Cancel { from, number } => plan_cancel(alloc, space, from, *number),
        Act::Receive {
            from,
            mode,
            session,
        } => plan_receive(alloc, space, moment, from, *mode, *session),
        Act::ReceiveDeferred {
            from,
            number,
            mode,
            session,
        } => plan_receive_deferred(alloc, space, moment, from, *number, *mode, *session),
        Act::Settle {
            from,
            which,
            token,
            session,
            how,
            txn,
        } => plan_settle(
            alloc, space, moment, from, which, *token, *session, how, *txn,
        ),
        Act::Renew { from, which, token } => plan_renew(alloc, space, moment, from, which, *token),
        Act::Accept { from, id } => plan_accept(alloc, space, moment, from, id),
        Act::SessionRenew { from, session } => {
            plan_session_renew(alloc, space, moment, from, *session)
        }
        Act::SessionClose { from, session } => {
            plan_session_close(alloc, space, moment, from, *session)
        }
        Act::SessionSet {
            from,
            session,
            state,
        } => plan_session_set(alloc, space, moment, from, *session, state),
        Act::SessionState { from, session } => {
            plan_session_state(alloc, space, moment, from, *session)
        }
        Act::Commit { txn } => plan_commit(alloc, space, moment, *txn),
    }
}
