// Whether a whole state is consistent.
ghost use Rattle.std.specs.Prelude.{◌≡◌, ℕ, nat_le, length, sum_by, true, Option, Some, None, Decides, IfOk};
ghost use Rattle.std.specs.List.{list_all};
ghost use Rattle.std.specs.List.Sorted.{IsNonDecreasingBy, IsPermutation};
ghost use Rattle.sb_machine.specs.Changes.{max_number};
ghost use Rattle.sb_machine.specs.Consistent.{IsConsistent};
ghost use Rattle.sb_machine.specs.Namespace as namespace;
ghost use Rattle.sb_judge.specs.Decided as spec;
ghost use Rattle.sb_judge.specs.Entities.{entity_verdict, AreNumbered};
ghost use Rattle.sb_judge.specs.Held.{held_of};
ghost use Rattle.sb_judge.specs.Messages.{less};
ghost use Rattle.sb_judge.specs.Transactions.{transaction_verdict};

use crate::clients::{are_clients_in_order, are_kept};
use crate::entities::is_entity;
use crate::held::{HeldCopy, held_copies};
use crate::locks::{are_both_given, are_distinct, locks_of, put_holder_locks, queued_locks};
use crate::places::{are_apart, have_topics, places_of};
use crate::sorted::are_rising;
use crate::transactions::is_transaction;
use sb_machine::{Entity, Kept, Space, State, Transaction};
use sb_names::limits::{MAX_CLIENTS, MAX_NUMBER, MAX_TRANSACTIONS};
use std::alloc::{AllocError, Global};

/// The last moment to which a namespace's time may come: the end of the year 9999, in ms since 1970.
const MAX_MOMENT: u64 = 253_402_214_400_000;

/// Whether a state is consistent. Beside it, memory is taken for each lock, and for the address of each
/// entity.
#[tactic(auto, using(crate::proofs::Numbered::whole_is))]
pub fn judge(alloc: Global, state: &State) -> Result<bool, AllocError>
    ensures decides { IfOk result (λ b. Decides b (IsConsistent state.entry.now)) }
    ensures same { IfOk result (λ b. b ≡ spec.is_consistent state.entry.now) }
{
    judge_parts(alloc, state.now, &state.space, state.clients.as_slice())
}

#[tactic(auto, using(crate::proofs::Numbered::numbered))]
fn judge_parts(
    alloc: Global,
    moment: u64,
    space: &Space,
    clients: &[Kept],
) -> Result<bool, AllocError>
    ensures { IfOk result (λ b. b ≡ spec.is_whole moment space.now clients.now) }
{
    if !are_numbers(moment, space) {
        return Ok(false);
    }
    if !are_entities(alloc, moment, space)? {
        return Ok(false);
    }
    if !are_locks(alloc, space)? {
        return Ok(false);
    }
    if !are_open(alloc, moment, space)? {
        return Ok(false);
    }
    are_clients(alloc, clients)
}

// ---- numbers

fn behind_parts(left: u64, entity: &Entity) -> Option<u64>
    ensures { result ≡ less left (namespace.made_in entity.now) }
{
    let Some(left) = left.checked_sub(entity.main.last) else {
        return None;
    };
    let Some(left) = left.checked_sub(entity.dead.last) else {
        return None;
    };
    left.checked_sub(entity.transfer.last)
}

fn behind_entities(left: u64, entities: &[Entity]) -> Option<u64>
    ensures { result ≡ less left (sum_by namespace.made_in entities.now) }
{
    let mut left = left;
    for entity in entities {
        let Some(rest) = behind_parts(left, entity) else {
            return None;
        };
        left = rest;
    }
    Some(left)
}

fn are_few_made(space: &Space) -> bool
    ensures { result ≡ nat_le (namespace.made space.now) max_number }
{
    match MAX_NUMBER.checked_sub(space.removed) {
        Some(left) => behind_entities(left, space.entities.as_slice()).is_some(),
        None => false,
    }
}

#[tactic(auto, unfolding(crate::specs::Decided::numbers_verdict))]
fn are_numbers(moment: u64, space: &Space) -> bool
    ensures { result ≡ (spec.numbers_verdict moment space.now).0 }
{
    moment <= MAX_MOMENT
        && are_few_made(space)
        && space.last_entity <= MAX_NUMBER
        && space.last_lock <= MAX_NUMBER
        && space.last_txn <= MAX_NUMBER
        && are_rising(space.entities.as_slice(), space.last_entity)
}

// ---- entities

fn are_each(moment: u64, entities: &[Entity]) -> bool
    ensures { result ≡ list_all (λ e. (entity_verdict moment e).0) entities.now }
{
    entities.iter().all(|entity| is_entity(moment, entity))
}

#[tactic(auto, unfolding(crate::specs::Decided::entities_verdict))]
fn are_entities(alloc: Global, moment: u64, space: &Space) -> Result<bool, AllocError>
    requires { AreNumbered space.now.entities }
    ensures { IfOk result (λ b. b ≡ (spec.entities_verdict moment space.now).0) }
{
    let entities = space.entities.as_slice();
    let places = places_of(alloc, entities)?;
    Ok(are_each(moment, entities) && are_apart(entities, &places) && have_topics(space, &places))
}

// ---- locks

#[tactic(auto, unfolding(crate::specs::Decided::locks_verdict))]
fn are_locks(alloc: Global, space: &Space) -> Result<bool, AllocError>
    ensures { IfOk result (λ b. b ≡ (spec.locks_verdict space.now).0) }
{
    let locks = locks_of(alloc, space)?;
    let mut queued = queued_locks(alloc, space)?;
    if !are_both_given(locks.as_slice(), queued.as_slice(), space.last_lock) {
        return Ok(false);
    }
    if !are_distinct(locks) {
        return Ok(false);
    }
    put_holder_locks(space, &mut queued)?;
    Ok(are_distinct(queued))
}

// ---- transactions

fn are_each_open(
    moment: u64,
    space: &Space,
    held: &[HeldCopy],
    transactions: &[Transaction],
) -> bool
    requires numbered { AreNumbered space.now.entities }
    requires order { IsNonDecreasingBy (λ h. h.lock) held.now }
    requires all { IsPermutation (held_of space.now) held.now }
    ensures { result ≡ list_all (λ x. (transaction_verdict moment space.now x).0) transactions.now }
{
    for transaction in transactions {
        if !is_transaction(moment, space, held, transaction) {
            return false;
        }
    }
    true
}

#[tactic(auto, unfolding(crate::specs::Decided::open_verdict))]
fn are_open(alloc: Global, moment: u64, space: &Space) -> Result<bool, AllocError>
    requires { AreNumbered space.now.entities }
    ensures { IfOk result (λ b. b ≡ (spec.open_verdict moment space.now).0) }
{
    let transactions = space.transactions.as_slice();
    let held = held_copies(alloc, space)?;
    Ok(
        are_rising(transactions, space.last_txn)
            && transactions.len() <= MAX_TRANSACTIONS
            && are_each_open(moment, space, held.as_slice(), transactions),
    )
}

// ---- clients

#[tactic(auto, unfolding(crate::specs::Decided::clients_verdict, crate::specs::Clients::clients_order))]
fn are_clients(alloc: Global, clients: &[Kept]) -> Result<bool, AllocError>
    ensures { IfOk result (λ b. b ≡ (spec.clients_verdict clients.now).0) }
{
    if !are_clients_in_order(clients) || clients.len() > MAX_CLIENTS {
        return Ok(false);
    }
    are_kept(alloc, clients)
}
