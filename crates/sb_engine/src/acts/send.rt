// Sending messages: at once, or queued in a transaction.
ghost use Rattle.std.specs.Prelude.{◌≡◌, ◌≤◌, None, IfOk, if◌then◌else◌};
ghost use Rattle.std.specs.List.{list_all};
ghost use Rattle.std.specs.Option.{option_map};
ghost use Rattle.sb_machine.specs.Answers.{max_moment};
ghost use Rattle.sb_machine.specs.Namespace as namespace;
ghost use Rattle.sb_machine.specs.Queueing as queues;
ghost use Rattle.sb_machine.specs.Rows.{answers, refused_by};
ghost use Rattle.sb_machine.specs.SendRow as spec;
ghost use Rattle.sb_machine.specs.Sending as sends;
ghost use Rattle.sb_machine.specs.Visits as visits;
ghost use Rattle.sb_machine.specs.declared.reply.Reply.TheVariants.{Queued};
ghost use Rattle.sb_machine.specs.declared.state.Operation.TheVariants.{Send};
ghost use Rattle.sb_entities.specs.Stores.{entity_in, space_in};
ghost use Rattle.sb_engine.specs.Drafts.{DraftsRow};
ghost use Rattle.sb_engine.specs.Plans.{PlansRow};
ghost use Rattle.sb_engine.specs.Quotas.{Judges};
ghost use Rattle.sb_engine.specs.Sendings.{IsThere, IsThereIn};

use crate::deliver::queueing::{has_room_in, queueing};
use crate::deliver::sending::{Sending, send_all};
use crate::find::via::is_via;
use crate::plan::draft::Draft;
use crate::plan::drafting::planned;
use crate::plan::quota::judge_quota;
use sb_entities::{EntityStore, SpaceStore};
use sb_fanout::has_session;
use sb_machine::{Changes, Operation, Path, Refusal, Reply};
use sb_model::{Message, Rows};
use sb_names::{is_address, is_main, large_size};
use sb_txn::OpenTransaction;
use std::alloc::{AllocError, Global};

// ---- where a send goes

// The open transaction that is named, where one is.
fn named_txn(space: &SpaceStore, txn: Option<u64>) -> Option<&OpenTransaction>
    ensures { option_map (λ o. o.now.transaction) result ≡ queues.open_in txn (space_in space.now) }
{
    match txn {
        Some(number) => space.txns().get(number),
        None => None,
    }
}

fn is_open(space: &SpaceStore, txn: Option<u64>) -> bool
    ensures { result ≡ queues.is_open txn (space_in space.now) }
{
    match txn {
        Some(number) => space.txns().get(number).is_some(),
        None => true,
    }
}

/// The entity that is sent to; another one than the transaction's isn't asked for.
pub fn target<'a>(space: &'a SpaceStore, to: &Path, via: bool) -> Option<&'a EntityStore>
    ensures found { option_map (λ e. entity_in e.now) result ≡ (if via then None else namespace.entity_at to.now (space_in space.now)) }
    ensures there { IsThereIn (space_in space.now) (option_map (λ e. entity_in e.now) result) }
{
    if via {
        return None;
    }
    space.at(to)
}

/// Whether it names a queue or a topic by its own address.
pub fn is_destination(to: &Path) -> bool
    ensures { result ≡ spec.is_destination to.now }
{
    to.subscription.is_none() && is_main(to.part)
}

// ---- tests on messages

fn all_have_sessions(messages: &[Message]) -> bool
    ensures { result ≡ list_all visits.has_session messages.now }
{
    messages.iter().all(|m| has_session(m))
}

/// Whether these messages have the sessions that the entity asks for, where there is one.
pub fn have_sessions_at(entity: Option<&EntityStore>, messages: &[Message]) -> bool
    ensures { result ≡ spec.have_sessions_at (option_map (λ e. entity_in e.now) entity.entry) messages.now }
{
    match entity {
        Some(entity) => {
            !entity.about().description.requires_session || all_have_sessions(messages)
        }
        None => true,
    }
}

/// Refuses messages that are too large.
pub fn judge_sizes(messages: &[Message]) -> Result<(), Refusal>
    ensures { Judges result (refused_by (sends.too_large messages.now)) }
{
    match large_size(messages) {
        Ok(None) => Ok(()),
        Ok(Some(size)) => Err(Refusal::TooLarge { size }),
        Err(_) => Err(Refusal::OutOfMemory),
    }
}

// ---- at once, or in a transaction

fn sent(
    alloc: Global,
    space: &SpaceStore,
    moment: u64,
    entity: &EntityStore,
    messages: &[Message],
) -> Result<Draft, Refusal>
    requires { IsThere (space_in space.now) (entity_in entity.now) }
    ensures { PlansRow result (spec.sent (space_in space.now) moment (entity_in entity.now) messages.now) }
{
    let mut sending = Sending::behind(alloc, Changes::new(alloc));
    let Ok(()) = send_all(alloc, space, &mut sending, entity, moment, messages) else {
        drop(sending);
        return Err(Refusal::OutOfMemory);
    };
    let Sending {
        changes,
        receipts,
        ..
    } = sending;
    if let Err(refusal) = judge_quota(space, moment, &changes) {
        drop(changes);
        return Err(refusal);
    }
    Ok(Draft {
        reply: Reply::Sent(Rows::from_vec(receipts)),
        changes,
    })
}

/// A send as it is queued.
pub fn send_of(to: &Path, messages: &Rows<Message>) -> Result<Operation, AllocError>
    ensures { IfOk result (λ o. o ≡ Send to.now messages.now) }
{
    Ok(Operation::Send {
        to: to.clone()?,
        messages: messages.clone()?,
    })
}

fn queued(
    alloc: Global,
    moment: u64,
    to: &Path,
    messages: &Rows<Message>,
    txn: &OpenTransaction,
) -> Result<Draft, AllocError>
    requires { moment ≤ max_moment }
    ensures { DraftsRow result (answers Queued (spec.queued_send moment to.now messages.now txn.now.transaction)) }
{
    if messages.is_empty() {
        return Ok(Draft::unchanging(alloc, Reply::Queued));
    }
    let operation = send_of(to, messages)?;
    Ok(Draft::changing(alloc, Reply::Queued, queueing(moment, txn, operation)))
}

fn sent_or_queued(
    alloc: Global,
    space: &SpaceStore,
    moment: u64,
    to: &Path,
    messages: &Rows<Message>,
    entity: Option<&EntityStore>,
    txn: Option<&OpenTransaction>,
) -> Result<Draft, Refusal>
    requires moment { moment ≤ max_moment }
    requires there { IsThereIn (space_in space.now) (option_map (λ e. entity_in e.now) entity) }
    ensures { PlansRow result (spec.sent_or_queued (space_in space.now) moment to.now messages.now (option_map (λ e. entity_in e.now) entity.entry) (option_map (λ o. o.now.transaction) txn.entry)) }
{
    let Some(txn) = txn else {
        return match entity {
            Some(entity) => sent(alloc, space, moment, entity, messages.as_slice()),
            None => Err(Refusal::EntityNotFound),
        };
    };
    planned(queued(alloc, moment, to, messages, txn))
}

/// What sending messages at `moment`, in ms since 1970, would do.
pub fn plan_send(
    alloc: Global,
    space: &SpaceStore,
    moment: u64,
    to: &Path,
    messages: &Rows<Message>,
    txn: Option<u64>,
) -> Result<Draft, Refusal>
    requires { moment ≤ max_moment }
    ensures { PlansRow result (spec.send_row (space_in space.now) moment to.now messages.now txn) }
{
    let via = is_via(space, to, txn);
    let entity = target(space, to, via);
    if !is_address(to) {
        return Err(Refusal::BadName);
    }
    if !via && entity.is_none() {
        return Err(Refusal::EntityNotFound);
    }
    if !is_destination(to) {
        return Err(Refusal::WrongKind);
    }
    if !have_sessions_at(entity, messages.as_slice()) {
        return Err(Refusal::SessionRequired);
    }
    if !is_open(space, txn) {
        return Err(Refusal::TxnNotFound);
    }
    let open = named_txn(space, txn);
    if !has_room_in(open, messages.len()) {
        return Err(Refusal::TxnFull);
    }
    judge_sizes(messages.as_slice())?;
    sent_or_queued(alloc, space, moment, to, messages, entity, open)
}
