// Operations that act together: a transaction is begun, filled and committed at one moment.
ghost use Rattle.std.specs.Prelude.{◌≡◌, ◌≤◌, ◌+◌, ◌∷◌, [], Some, true, List, IfOk};
ghost use Rattle.std.specs.List.{list_all};
ghost use Rattle.sb_entities.specs.Stores.{entity_in, space_in};
ghost use Rattle.sb_laws.specs.Gathered as gathered;
ghost use Rattle.sb_machine.specs.Answers.{max_moment};
ghost use Rattle.sb_machine.specs.Fields.{are_set_once};
ghost use Rattle.sb_machine.specs.Namespace.{entity_of};
ghost use Rattle.sb_machine.specs.Rows.{answers};
ghost use Rattle.sb_machine.specs.Together as spec;
ghost use Rattle.sb_machine.specs.declared.call.Path.{Path as APath};
ghost use Rattle.sb_machine.specs.declared.call.Step.{Step as AStep};
ghost use Rattle.sb_machine.specs.declared.call.Step.TheVariants.{Send as Sends};
ghost use Rattle.sb_machine.specs.declared.change.Change.TheVariants.{Begins};
ghost use Rattle.sb_machine.specs.declared.reply.Reply.TheVariants.{Together};
ghost use Rattle.sb_machine.specs.declared.reply.StepReply.TheVariants as told;
ghost use Rattle.sb_engine.specs.Commits.{is_front};
ghost use Rattle.sb_engine.specs.Plans.{PlansRow};

use crate::Draft;
use crate::acts::fitting::judge_fitting;
use crate::acts::gathering::{Gathering, gather_all};
use crate::deliver::fulfilling::{Fulfilled, fulfil};
use sb_entities::{EntityStore, SpaceStore};
use sb_laws::gathers_as_read;
use sb_machine::{Change, Changes, Path, Receipt, Refusal, Reply, Step, StepReply};
use sb_model::{Message, Rows};
use sb_names::is_address;
use sb_names::limits::{MAX_TRANSACTIONS, TXN_LIFE};
use std::alloc::{AllocError, Global};
use std::collections::VecDeque;

// ---- replies

// The receipts of a send; those of one without messages weren't told.
fn receipts_of(
    alloc: Global,
    messages: &[Message],
    receipts: &mut VecDeque<Rows<Receipt>>,
) -> Rows<Receipt>
    ensures { (to : APath) → (xs : List AStep) → spec.step_replies (Sends to messages.now ∷ xs) receipts.old.items ≡ told.Sent result ∷ spec.step_replies xs receipts.new.items }
{
    if messages.is_empty() {
        return Rows::new(alloc);
    }
    match receipts.pop_front() {
        Some(first) => first,
        None => Rows::new(alloc),
    }
}

fn reply_to(alloc: Global, step: &Step, receipts: &mut VecDeque<Rows<Receipt>>) -> StepReply
    ensures { (xs : List AStep) → spec.step_replies (step.now ∷ xs) receipts.old.items ≡ result ∷ spec.step_replies xs receipts.new.items }
{
    match step {
        Step::Send { messages, .. } => {
            StepReply::Sent(receipts_of(alloc, messages.as_slice(), receipts))
        }
        Step::Settle { .. } => StepReply::Done,
        Step::SessionSet { .. } => StepReply::Done,
    }
}

fn replies_to(
    alloc: Global,
    steps: &[Step],
    receipts: VecDeque<Rows<Receipt>>,
) -> Result<Rows<StepReply>, AllocError>
    ensures { IfOk result (λ replies. replies ≡ spec.step_replies steps.now receipts.items) }
{
    let mut left = receipts;
    let mut replies = Rows::new(alloc);
    for step in steps {
        replies.push(reply_to(alloc, step, &mut left))?;
    }
    drop(left);
    Ok(replies)
}

fn answered(alloc: Global, steps: &[Step], fulfilled: Fulfilled) -> Result<Draft, Refusal>
    ensures { PlansRow result (answers (Together (spec.step_replies steps.now fulfilled.receipts.items)) fulfilled.changes) }
{
    let Fulfilled { changes, receipts } = fulfilled;
    let Ok(replies) = replies_to(alloc, steps, receipts) else {
        drop(changes);
        return Err(Refusal::OutOfMemory);
    };
    Ok(Draft {
        reply: Reply::Together(replies),
        changes,
    })
}

// ---- the commit

// The operations act, behind the changes before them and the end of the transaction.
fn commit(
    alloc: Global,
    space: &SpaceStore,
    moment: u64,
    entity: &EntityStore,
    txn: u64,
    gathering: Gathering,
    steps: &[Step],
) -> Result<Draft, Refusal>
    requires there { entity_of (entity_in entity.now).about.number (space_in space.now) ≡ Some (entity_in entity.now) }
    requires txn { txn ≡ gathered.gathering_number (space_in space.now) }
    requires front { list_all is_front gathering.changes ≡ true }
    ensures { PlansRow result (gathered.read_commit (space_in space.now) moment (entity_in entity.now) steps.now gathering.operations.items gathering.changes) }
{
    let Gathering {
        operations,
        mut changes,
    } = gathering;
    let Ok(()) = changes.push(Change::Drops { txn }) else {
        drop(changes);
        return Err(Refusal::OutOfMemory);
    };
    let operations = operations.as_slice();
    match fulfil(alloc, space, moment, entity, changes, operations) {
        Ok(fulfilled) => answered(alloc, steps, fulfilled),
        Err(refusal) => Err(refusal),
    }
}

// ---- the whole

// A transaction that is begun at `moment`, with nothing in it.
fn begun(alloc: Global, moment: u64, entity: &EntityStore) -> Gathering
    requires { moment ≤ max_moment }
    ensures operations { result.operations.items ≡ [] }
    ensures changes { result.changes ≡ Begins (entity_in entity.now).about.number (moment + 120000) ∷ [] }
{
    let mut changes = Changes::new(alloc);
    let _ = changes.push(Change::Begins {
        entity: entity.about().number,
        deadline: moment + TXN_LIFE,
    });
    Gathering {
        operations: Vec::new(alloc),
        changes,
    }
}

// Memory is wanting where the transaction's number would pass 2^64 - 1, which no namespace comes
// to.
fn gather_and_commit(
    alloc: Global,
    space: &SpaceStore,
    moment: u64,
    path: &Path,
    entity: &EntityStore,
    steps: &[Step],
) -> Result<Draft, Refusal>
    requires moment { moment ≤ max_moment }
    requires there { entity_of (entity_in entity.now).about.number (space_in space.now) ≡ Some (entity_in entity.now) }
    ensures { PlansRow result (gathered.read_steps 0 (space_in space.now) moment path.now (entity_in entity.now) [] (Begins (entity_in entity.now).about.number (moment + 120000) ∷ []) steps.now (gathered.read_commit (space_in space.now) moment (entity_in entity.now) steps.now)) }
{
    let Some(txn) = space.last_txn().checked_add(1) else {
        return Err(Refusal::OutOfMemory);
    };
    let mut gathering = begun(alloc, moment, entity);
    if let Err(refusal) = gather_all(
        alloc,
        space,
        moment,
        path,
        entity,
        txn,
        &mut gathering,
        steps,
    ) {
        drop(gathering);
        return Err(refusal);
    }
    commit(alloc, space, moment, entity, txn, gathering, steps)
}

// As all is judged in the namespace as it is read.
fn plan_gathered(
    alloc: Global,
    space: &SpaceStore,
    moment: u64,
    path: &Path,
    steps: &[Step],
) -> Result<Draft, Refusal>
    requires { moment ≤ max_moment }
    ensures { PlansRow result (gathered.gathered_row (space_in space.now) moment path.now steps.now) }
{
    space.is_in_order();
    if !is_address(path) {
        return Err(Refusal::BadName);
    }
    let Some(entity) = space.at(path) else {
        return Err(Refusal::EntityNotFound);
    };
    if space.txns().size() >= MAX_TRANSACTIONS {
        return Err(Refusal::TxnsFull);
    }
    judge_fitting(steps)?;
    gather_and_commit(alloc, space, moment, path, entity, steps)
}

/// What operations that act together at `moment`, in ms since 1970, would do.
pub fn plan_together(
    alloc: Global,
    space: &SpaceStore,
    moment: u64,
    path: &Path,
    steps: &Rows<Step>,
) -> Result<Draft, Refusal>
    requires moment { moment ≤ max_moment }
    requires once { are_set_once steps.now ≡ true }
    ensures { PlansRow result (spec.together_row (space_in space.now) moment path.now steps.now) }
{
    space.is_in_order();
    gathers_as_read();
    plan_gathered(alloc, space, moment, path, steps.as_slice())
}
