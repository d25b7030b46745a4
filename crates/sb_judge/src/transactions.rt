// Open transactions.
ghost use Rattle.std.specs.Prelude.{◌≡◌, ◌≤◌, nat_le, nat_lt, length, find, sum_by, true, Option, Some, None, is_none, option_map};
ghost use Rattle.std.specs.List.{list_all, prefix_len, slice_get};
ghost use Rattle.std.specs.List.Sorted.{IsNonDecreasingBy, IsPermutation};
ghost use Rattle.sb_machine.specs.Fields as fields;
ghost use Rattle.sb_machine.specs.Namespace.{is_entity};
ghost use Rattle.sb_machine.specs.Queueing as queueing;
ghost use Rattle.sb_judge.specs.Entities.{AreNumbered};
ghost use Rattle.sb_judge.specs.Held.{held_of};
ghost use Rattle.sb_judge.specs.Orders.{tested};
ghost use Rattle.sb_judge.specs.Messages as messages;
ghost use Rattle.sb_judge.specs.Transactions as spec;

use crate::copies::is_near;
use crate::held::{HeldCopy, is_own};
use crate::messages::is_message;
use crate::sorted::Numbered;
use sb_machine::{Entity, How, LeafKey, Operation, Path, Space, Transaction};
use sb_model::Message;
use sb_names::limits::{MAX_MESSAGES, MAX_OPERATIONS};
use sb_names::{bad_in_how, goes_with, is_address, is_main, is_number, is_same_entity};

impl Numbered for Transaction {
    ghost number_of = { λ x. x.number };

    fn number(&self) -> u64 {
        self.number
    }
}

/// Whether a transaction may be open at a moment. `held` are the copies of the namespace that are
/// held.
#[tactic(auto, unfolding(crate::specs::Transactions::transaction_verdict))]
pub(crate) fn is_transaction(
    moment: u64,
    space: &Space,
    held: &[HeldCopy],
    transaction: &Transaction,
) -> bool
    requires numbered { AreNumbered space.now.entities }
    requires order { IsNonDecreasingBy (λ h. h.lock) held.now }
    requires all { IsPermutation (held_of space.now) held.now }
    ensures { result ≡ (spec.transaction_verdict moment space.now transaction.now).0 }
{
    are_of_entity(space, held, transaction)
        && is_near(moment, transaction.deadline)
        && is_light(transaction.operations.as_slice())
}

// ---- its entity

// How many entities have a lower number.
fn entry_of(entities: &[Entity], number: u64) -> usize
    requires { AreNumbered entities.now }
    ensures place { result ≡ prefix_len (λ e. nat_lt e.about.number number) entities.now }
    ensures within { result ≤ length entities.now }
{
    entities.partition_point(|e| e.about.number < number)
}

fn numbered_at(entities: &[Entity], place: usize, number: u64) -> Option<&Entity>
    ensures { option_map (λ e. e.now) result ≡ tested (is_entity number) (slice_get entities.now place) }
{
    match entities.get(place) {
        Some(entity) => {
            if entity.about.number == number {
                Some(entity)
            } else {
                None
            }
        }
        None => None,
    }
}

#[tactic(auto, using(crate::proofs::Placed::entity_found))]
fn numbered(entities: &[Entity], number: u64) -> Option<&Entity>
    requires { AreNumbered entities.now }
    ensures { option_map (λ e. e.now) result ≡ find (is_entity number) entities.now }
{
    numbered_at(entities, entry_of(entities, number), number)
}

#[tactic(auto, unfolding(crate::specs::Transactions::queued_verdict))]
fn are_of_entity(space: &Space, held: &[HeldCopy], transaction: &Transaction) -> bool
    requires numbered { AreNumbered space.now.entities }
    requires order { IsNonDecreasingBy (λ h. h.lock) held.now }
    requires all { IsPermutation (held_of space.now) held.now }
    ensures { result ≡ (spec.queued_verdict space.now transaction.now).0 }
{
    match numbered(space.entities.as_slice(), transaction.entity) {
        Some(entity) => are_operations(space, held, entity, transaction.operations.as_slice()),
        None => false,
    }
}

// ---- what is queued

fn are_operations(
    space: &Space,
    held: &[HeldCopy],
    entity: &Entity,
    operations: &[Operation],
) -> bool
    requires order { IsNonDecreasingBy (λ h. h.lock) held.now }
    requires all { IsPermutation (held_of space.now) held.now }
    ensures { result ≡ list_all (λ o. (spec.operation_verdict space.now entity.now o).0) operations.now }
{
    for operation in operations {
        if !is_operation(space, held, entity, operation) {
            return false;
        }
    }
    true
}

#[tactic(auto, using(crate::proofs::Queued::send_of))]
fn is_operation(space: &Space, held: &[HeldCopy], entity: &Entity, operation: &Operation) -> bool
    requires order { IsNonDecreasingBy (λ h. h.lock) held.now }
    requires all { IsPermutation (held_of space.now) held.now }
    ensures { result ≡ (spec.operation_verdict space.now entity.now operation.now).0 }
{
    match operation {
        Operation::Send { to, messages } => is_send(entity, to, messages.as_slice()),
        Operation::Settle {
            from,
            number,
            token,
            how,
            ..
        } => is_settlement(space, held, entity, from, *number, token.lock, how),
    }
}

fn are_messages(sent: &[Message]) -> bool
    ensures { result ≡ list_all (λ m. (messages.message_verdict m).0) sent.now }
{
    sent.iter().all(|message| is_message(message))
}

fn are_unscheduled(sent: &[Message]) -> bool
    ensures { result ≡ list_all (λ m. is_none m.schedule) sent.now }
{
    sent.iter().all(|message| message.schedule.is_none())
}

fn is_count(count: usize) -> bool
    ensures { result ≡ fields.is_between 1 fields.max_messages count }
{
    1 <= count && count <= MAX_MESSAGES
}

#[tactic(auto, unfolding(crate::specs::Transactions::send_verdict))]
fn is_send(entity: &Entity, to: &Path, sent: &[Message]) -> bool
    ensures { result ≡ (spec.send_verdict entity.now to.now sent.now).0 }
{
    is_address(to)
        && is_main(to.part)
        && to.subscription.is_none()
        && is_count(sent.len())
        && are_messages(sent)
        && (is_same_entity(to, &entity.about.path) || are_unscheduled(sent))
}

// Whether no copy but that one is held under the lock. Of the space the contract alone speaks.
#[tactic(auto, using(crate::proofs::Owned::own_of))]
fn is_alone(space: &Space, held: &[HeldCopy], key: LeafKey, number: u64, lock: u64) -> bool
    requires order { IsNonDecreasingBy (λ h. h.lock) held.now }
    requires all { IsPermutation (held_of space.now) held.now }
    ensures { result ≡ (spec.own_verdict space.now key number lock).0 }
{
    let _ = space;
    is_own(held, key, number, lock)
}

#[tactic(auto, unfolding(crate::specs::Transactions::settle_verdict))]
fn is_settlement(
    space: &Space,
    held: &[HeldCopy],
    entity: &Entity,
    from: &Path,
    number: u64,
    lock: u64,
    how: &How,
) -> bool
    requires order { IsNonDecreasingBy (λ h. h.lock) held.now }
    requires all { IsPermutation (held_of space.now) held.now }
    ensures { result ≡ (spec.settle_verdict space.now entity.now from.now number lock how.now).0 }
{
    let key = LeafKey {
        entity: entity.about.number,
        part: from.part,
    };
    is_same_entity(from, &entity.about.path)
        && is_number(number)
        && bad_in_how(how).is_none()
        && is_alone(space, held, key, number, lock)
        && goes_with(how, from.part)
}

// ---- how much is queued

fn weight(operation: &Operation) -> usize
    ensures { result ≡ queueing.weight operation.now }
{
    match operation {
        Operation::Send { messages, .. } => messages.len(),
        Operation::Settle { .. } => 1,
    }
}

fn behind(operations: &[Operation]) -> Option<usize>
    ensures { result ≡ messages.less queueing.max_operations (sum_by queueing.weight operations.now) }
{
    let mut left = MAX_OPERATIONS;
    for operation in operations {
        let Some(rest) = left.checked_sub(weight(operation)) else {
            return None;
        };
        left = rest;
    }
    Some(left)
}

fn is_light(operations: &[Operation]) -> bool
    ensures { result ≡ nat_le (sum_by queueing.weight operations.now) queueing.max_operations }
{
    behind(operations).is_some()
}
