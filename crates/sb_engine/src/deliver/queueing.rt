// Queueing an operation in an open transaction.
ghost use Rattle.std.specs.Prelude.{◌≡◌, ◌≤◌, ◌∷◌, [], nat_le, sum_by, MatchResult, IfOk, ◌+◌};
ghost use Rattle.std.specs.Option.{option_map};
ghost use Rattle.sb_machine.specs.Answers.{max_moment};
ghost use Rattle.sb_machine.specs.Queueing as spec;
ghost use Rattle.sb_machine.specs.Rows.{asks};
ghost use Rattle.sb_machine.specs.SettleRow as settling;
ghost use Rattle.sb_machine.specs.declared.reply.Refusal.TheVariants.{TxnNotFound};
ghost use Rattle.sb_entities.specs.Stores.{entity_in, space_in};
ghost use Rattle.sb_engine.specs.Heads.{Allows, Forbids};

use sb_entities::{EntityStore, SpaceStore};
use sb_machine::{Change, Operation, Refusal};
use sb_names::limits::{MAX_OPERATIONS, TXN_LIFE};
use sb_txn::OpenTransaction;

/// The open transaction of this number, where one is named.
pub fn open_in(space: &SpaceStore, txn: Option<u64>) -> Result<Option<&OpenTransaction>, Refusal>
    ensures found { IfOk result (λ x. option_map (λ o. o.now.transaction) x ≡ spec.open_in txn (space_in space.now)) }
    ensures open { MatchResult result (λ _. Allows (asks (spec.is_open txn (space_in space.now)) TxnNotFound)) (λ r. Forbids (asks (spec.is_open txn (space_in space.now)) TxnNotFound) r) }
{
    let Some(number) = txn else {
        return Ok(None);
    };
    match space.txns().get(number) {
        Some(found) => Ok(Some(found)),
        None => Err(Refusal::TxnNotFound),
    }
}

/// Whether the transaction, where there is one, is on this entity.
pub fn is_on(entity: &EntityStore, txn: Option<&OpenTransaction>) -> bool
    ensures { result ≡ settling.is_on (entity_in entity.now) (option_map (λ o. o.now.transaction) txn.entry) }
{
    match txn {
        Some(txn) => txn.entity() == entity.about().number,
        None => true,
    }
}

fn weight(operation: &Operation) -> usize
    ensures { result ≡ spec.weight operation.now }
{
    match operation {
        Operation::Send { messages, .. } => messages.len(),
        Operation::Settle { .. } => 1,
    }
}

/// Whether these and so many more are at most so many.
pub fn fits(operations: &[Operation], more: usize, most: usize) -> bool
    ensures { result ≡ nat_le (sum_by spec.weight operations.now + more) most }
{
    let mut left = most;
    for operation in operations {
        let weight = weight(operation);
        if left < weight {
            return false;
        }
        left -= weight;
    }
    more <= left
}

/// Whether the transaction, where there is one, takes so many operations more.
pub fn has_room_in(txn: Option<&OpenTransaction>, more: usize) -> bool
    ensures { result ≡ spec.has_room_in (option_map (λ o. o.now.transaction) txn.entry) more }
{
    match txn {
        Some(txn) => fits(txn.operations(), more, MAX_OPERATIONS),
        None => true,
    }
}

fn deadline_with(moment: u64, txn: &OpenTransaction) -> u64
    requires { moment ≤ max_moment }
    ensures { result ≡ spec.deadline_with moment txn.now.transaction }
{
    if txn.operations().is_empty() {
        moment + TXN_LIFE
    } else {
        txn.deadline()
    }
}

/// An operation is queued at `moment`, in ms since 1970.
pub fn queueing(moment: u64, txn: &OpenTransaction, operation: Operation) -> Change
    requires { moment ≤ max_moment }
    ensures { result ∷ [] ≡ spec.queueing moment txn.now.transaction operation }
{
    Change::Queues {
        txn: txn.number(),
        deadline: deadline_with(moment, txn),
        operation,
    }
}
