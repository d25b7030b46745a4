// Beginning a transaction, and dropping it.
ghost use Rattle.std.specs.Prelude.{◌≡◌, ◌≤◌, ◌+◌, [], ◌∷◌, IfErr};
ghost use Rattle.sb_entities.specs.Stores.{space_in};
ghost use Rattle.sb_machine.specs.Answers.{max_moment};
ghost use Rattle.sb_machine.specs.Rows as rows;
ghost use Rattle.sb_machine.specs.Transactions as transactions;
ghost use Rattle.sb_machine.specs.declared.change.Change.TheVariants.{Begins};
ghost use Rattle.sb_machine.specs.declared.reply.Reply.TheVariants.{Begun};
ghost use Rattle.sb_engine.specs.Plans.{PlansRow};

use crate::Draft;
use sb_entities::SpaceStore;
use sb_machine::{Change, Path, Refusal, Reply};
use sb_names::is_address;
use sb_names::limits::{MAX_TRANSACTIONS, TXN_LIFE};
use std::alloc::Global;

// A transaction is opened on an entity. Memory is wanting where its number would pass 2^64 - 1,
// which no namespace comes to.
fn begin(alloc: Global, last: u64, entity: u64, moment: u64) -> Result<Draft, Refusal>
    requires { moment ≤ max_moment }
    ensures { PlansRow result (rows.answers (Begun (last + 1)) (Begins entity (moment + 120000) ∷ [])) }
{
    let Some(txn) = last.checked_add(1) else {
        return Err(Refusal::OutOfMemory);
    };
    let deadline = moment + TXN_LIFE;
    Ok(Draft::changing(
        alloc,
        Reply::Begun { txn },
        Change::Begins { entity, deadline },
    ))
}

/// A transaction is opened on an entity.
pub fn plan_begin(
    alloc: Global,
    space: &SpaceStore,
    moment: u64,
    path: &Path,
) -> Result<Draft, Refusal>
    requires { moment ≤ max_moment }
    ensures { PlansRow result (transactions.begin_row (space_in space.now) moment path.now) }
{
    if !is_address(path) {
        return Err(Refusal::BadName);
    }
    let Some(entity) = space.at(path) else {
        return Err(Refusal::EntityNotFound);
    };
    if space.txns().size() >= MAX_TRANSACTIONS {
        return Err(Refusal::TxnsFull);
    }
    begin(alloc, space.last_txn(), entity.about().number, moment)
}

/// A transaction is dropped with all that is queued in it; takes no memory.
pub fn plan_rollback(alloc: Global, space: &SpaceStore, txn: u64) -> Result<Draft, Refusal>
    ensures row { PlansRow result (transactions.rollback_row (space_in space.now) txn) }
    ensures free { IfErr result (λ r. transactions.rollback_row (space_in space.now) txn ≡ rows.refuses r) }
{
    if space.txns().get(txn).is_none() {
        return Err(Refusal::TxnNotFound);
    }
    Ok(Draft::changing(alloc, Reply::Done, Change::Drops { txn }))
}
