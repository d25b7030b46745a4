// Committing a transaction: its operations act together or not at all.
ghost use Rattle.std.specs.Prelude.{◌≡◌, ◌∷◌, [], find, Some};
ghost use Rattle.std.specs.Option.{option_map};
ghost use Rattle.sb_machine.specs.Namespace.{entity_of};
ghost use Rattle.sb_machine.specs.Rows.{answers, within_quota};
ghost use Rattle.sb_machine.specs.Transactions as spec;
ghost use Rattle.sb_machine.specs.declared.change.Change.TheVariants.{Drops};
ghost use Rattle.sb_machine.specs.declared.reply.Reply.TheVariants.{Committed};
ghost use Rattle.sb_entities.specs.Stores.{entity_in, space_in};
ghost use Rattle.sb_engine.specs.Commits.{IsItself};
ghost use Rattle.sb_engine.specs.Plans.{PlansRow};

use crate::deliver::fulfilling::{Fulfilled, fulfil};
use crate::find::leases::leased;
use crate::plan::draft::Draft;
use sb_entities::{EntityStore, SpaceStore};
use sb_machine::{Change, Changes, Operation, Refusal, Reply, Which};
use sb_txn::OpenTransaction;
use std::alloc::Global;

// Whether it settles a copy that its lock doesn't hold any more.
fn is_lost(space: &SpaceStore, moment: u64, entity: &EntityStore, operation: &Operation) -> bool
    ensures { result ≡ spec.is_lost (space_in space.now) moment (entity_in entity.now) operation.now }
{
    match operation {
        Operation::Send { .. } => false,
        Operation::Settle {
            from,
            number,
            token,
            ..
        } => {
            let which = Which::Number(*number);
            leased(space, moment, *token, &which, entity.part(from.part)).is_none()
        }
    }
}

fn first_lost<'a>(
    space: &SpaceStore,
    moment: u64,
    entity: &EntityStore,
    operations: &'a [Operation],
) -> Option<&'a Operation>
    ensures { option_map (λ o. o.now) result ≡ find (spec.is_lost (space_in space.now) moment (entity_in entity.now)) operations.now }
{
    for operation in operations {
        if is_lost(space, moment, entity, operation) {
            return Some(operation);
        }
    }
    None
}

fn aborted_by(operation: &Operation) -> Reply
    ensures { result ≡ spec.aborted_by operation.now }
{
    match operation {
        Operation::Send { .. } => Reply::Committed,
        Operation::Settle { from, number, .. } => Reply::Aborted {
            part: from.part,
            number: *number,
        },
    }
}

// The transaction is dropped.
fn dropping(alloc: Global, txn: &OpenTransaction) -> Changes
    ensures { result ≡ Drops txn.now.transaction.number ∷ [] }
{
    let mut changes = Changes::new(alloc);
    let _ = changes.push(Change::Drops { txn: txn.number() });
    changes
}

// Its operations act.
fn acted(
    alloc: Global,
    space: &SpaceStore,
    moment: u64,
    txn: &OpenTransaction,
    entity: &EntityStore,
) -> Result<Draft, Refusal>
    requires { entity_of (entity_in entity.now).about.number (space_in space.now) ≡ Some (entity_in entity.now) }
    ensures { PlansRow result (within_quota moment (space_in space.now) (spec.commit_changes moment (entity_in entity.now) txn.now.transaction (space_in space.now)) (answers Committed (spec.commit_changes moment (entity_in entity.now) txn.now.transaction (space_in space.now)))) }
{
    let front = dropping(alloc, txn);
    match fulfil(alloc, space, moment, entity, front, txn.operations()) {
        Ok(Fulfilled { changes, receipts }) => {
            drop(receipts);
            Ok(Draft {
                reply: Reply::Committed,
                changes,
            })
        }
        Err(refusal) => Err(refusal),
    }
}

fn committed(
    alloc: Global,
    space: &SpaceStore,
    moment: u64,
    txn: &OpenTransaction,
    entity: &EntityStore,
) -> Result<Draft, Refusal>
    requires { entity_of (entity_in entity.now).about.number (space_in space.now) ≡ Some (entity_in entity.now) }
    ensures { PlansRow result (spec.committed (space_in space.now) moment txn.now.transaction (entity_in entity.now) (find (spec.is_lost (space_in space.now) moment (entity_in entity.now)) txn.now.transaction.operations)) }
{
    match first_lost(space, moment, entity, txn.operations()) {
        Some(operation) => Ok(Draft::changing(
            alloc,
            aborted_by(operation),
            Change::Drops { txn: txn.number() },
        )),
        None => acted(alloc, space, moment, txn, entity),
    }
}

// The entity of a number, which is found by its own number too.
fn entity_itself(space: &SpaceStore, number: u64) -> Option<&EntityStore>
    ensures found { option_map (λ e. entity_in e.now) result ≡ entity_of number (space_in space.now) }
    ensures itself { IsItself (space_in space.now) (option_map (λ e. entity_in e.now) result) }
{
    space.entity(number)
}

/// What committing a transaction at `moment`, in ms since 1970, would do.
pub fn plan_commit(
    alloc: Global,
    space: &SpaceStore,
    moment: u64,
    txn: u64,
) -> Result<Draft, Refusal>
    ensures { PlansRow result (spec.commit_row (space_in space.now) moment txn) }
{
    let Some(open) = space.txns().get(txn) else {
        return Err(Refusal::TxnNotFound);
    };
    let Some(entity) = entity_itself(space, open.entity()) else {
        return Err(Refusal::EntityNotFound);
    };
    committed(alloc, space, moment, open, entity)
}
