// What is remembered for clients.
ghost use Rattle.std.specs.Prelude.{◌≡◌, IfOk, is_none};
ghost use Rattle.std.specs.List.{list_all};
ghost use Rattle.sb_machine.specs.Names as names;
ghost use Rattle.sb_judge.specs.Clients as spec;

use crate::calls::is_call;
use crate::messages::is_message;
use crate::sorted::{Ordered, is_on};
use sb_machine::{CopyShown, Kept, Reply, Showing, StepReply};
use sb_names::is_id;
use sb_names::limits::{MAX_COUNT, MAX_MESSAGES, MAX_STEPS};
use std::alloc::{AllocError, Global};

impl Ordered for Kept {
    ghost before = { λ a b. names.is_before a.client b.client };

    fn is_before(&self, other: &Kept) -> bool {
        self.client.as_str() < other.client.as_str()
    }
}

/// Whether clients stand by name.
#[tactic(auto, using(crate::proofs::InOrder::clients), unfolding(crate::specs::Clients::clients_order))]
pub(crate) fn are_clients_in_order(clients: &[Kept]) -> bool
    ensures { result ≡ (spec.clients_order clients.now).0 }
{
    is_on(clients)
}

/// Whether each may be remembered for a client.
pub(crate) fn are_kept(alloc: Global, clients: &[Kept]) -> Result<bool, AllocError>
    ensures { IfOk result (λ b. b ≡ list_all (λ k. (spec.kept_verdict k).0) clients.now) }
{
    for kept in clients {
        if !is_kept(alloc, kept)? {
            return Ok(false);
        }
    }
    Ok(true)
}

#[tactic(auto, unfolding(crate::specs::Clients::kept_verdict))]
fn is_kept(alloc: Global, kept: &Kept) -> Result<bool, AllocError>
    ensures { IfOk result (λ b. b ≡ (spec.kept_verdict kept.now).0) }
{
    if !is_reply(&kept.reply) {
        return Ok(false);
    }
    is_call(alloc, &kept.act, &kept.client, kept.number)
}

#[tactic(auto, unfolding(crate::specs::Clients::showing_verdict))]
fn is_handed_out(showing: Showing) -> bool
    ensures { result ≡ (spec.showing_verdict showing).0 }
{
    match showing {
        Showing::Removed | Showing::Locked { .. } => true,
        Showing::Browsed(_) => false,
    }
}

#[tactic(auto, unfolding(crate::specs::Clients::given_verdict))]
fn is_given(shown: &CopyShown) -> bool
    ensures { result ≡ (spec.given_verdict shown.now).0 }
{
    is_message(&shown.message)
        && shown.message.schedule.is_none()
        && is_handed_out(shown.showing)
        && 1 <= shown.delivery
        && shown.delivery <= u64::from(MAX_COUNT) + 1
}

#[tactic(auto, unfolding(crate::specs::Clients::step_reply_verdict))]
fn is_step_reply(reply: &StepReply) -> bool
    ensures { result ≡ (spec.step_reply_verdict reply.now).0 }
{
    match reply {
        StepReply::Sent(receipts) => receipts.len() <= MAX_MESSAGES,
        StepReply::Done => true,
    }
}

fn is_each_step_reply(replies: &[StepReply]) -> bool
    ensures { result ≡ list_all (λ r. (spec.step_reply_verdict r).0) replies.now }
{
    replies.iter().all(|reply| is_step_reply(reply))
}

#[tactic(auto, unfolding(crate::specs::Clients::step_replies_verdict))]
fn are_step_replies(replies: &[StepReply]) -> bool
    ensures { result ≡ (spec.step_replies_verdict replies.now).0 }
{
    replies.len() <= MAX_STEPS && is_each_step_reply(replies)
}

#[tactic(auto, unfolding(crate::specs::Clients::reply_verdict))]
fn is_reply(reply: &Reply) -> bool
    ensures { result ≡ (spec.reply_verdict reply.now).0 }
{
    match reply {
        Reply::Sent(receipts) => receipts.len() <= MAX_MESSAGES,
        Reply::Together(replies) => are_step_replies(replies.as_slice()),
        Reply::Message(shown) => is_given(shown),
        Reply::Session { id, .. } => is_id(id.as_str()),
        Reply::Copies(_) | Reply::State(_) | Reply::Counts { .. } | Reply::Seen(_) => false,
        Reply::Done
        | Reply::Empty
        | Reply::Expired { .. }
        | Reply::Renewed { .. }
        | Reply::Begun { .. }
        | Reply::Queued
        | Reply::Committed
        | Reply::Aborted { .. } => true,
    }
}
