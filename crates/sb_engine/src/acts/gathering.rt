// The operations that act together, each judged behind those before it.
ghost use Rattle.std.specs.Prelude.{◌≡◌, ◌==◌, ◌≤◌, ◌+◌, ◌++◌, ◌∷◌, [], true, Some, None, OnOk, MatchResult};
ghost use Rattle.std.specs.List.{list_all, list_any};
ghost use Rattle.std.specs.Option.{option_map};
ghost use Rattle.sb_entities.specs.Stores.{entity_in, space_in};
ghost use Rattle.sb_laws.specs.Gathered as spec;
ghost use Rattle.sb_machine.specs.Answers.{max_moment};
ghost use Rattle.sb_machine.specs.Fields as fields;
ghost use Rattle.sb_machine.specs.Names as names;
ghost use Rattle.sb_machine.specs.Rows.{answers, asks, refused_by};
ghost use Rattle.sb_machine.specs.Sessions.{session_set_row};
ghost use Rattle.sb_machine.specs.SettleRow as settling;
ghost use Rattle.sb_machine.specs.Together.{unqueued};
ghost use Rattle.sb_machine.specs.declared.change.Change.TheVariants.{Queues};
ghost use Rattle.sb_machine.specs.declared.reply.Refusal.TheVariants.{BadCall as BadField, TxnScope};
ghost use Rattle.sb_machine.specs.declared.reply.Reply.TheVariants.{Queued};
ghost use Rattle.sb_machine.specs.declared.state.Operation.TheVariants.{Settle};
ghost use Rattle.sb_machine.specs.declared.state.Transaction.{Transaction};
ghost use Rattle.sb_engine.specs.Commits.{is_front};
ghost use Rattle.sb_engine.specs.Drafts.{DraftsRow};
ghost use Rattle.sb_engine.specs.Gatherings.{gathered_on, queued_in, sending_tests, Gathers};
ghost use Rattle.sb_engine.specs.Plans.{PlansRow};
ghost use Rattle.sb_engine.specs.Quotas.{Judges};

use crate::Draft;
use crate::acts::send::{have_sessions_at, is_destination, judge_sizes, send_of, target};
use crate::acts::session_set::plan_session_set;
use crate::acts::settle::settle_of;
use crate::deliver::queueing::fits;
use crate::find::claims::{check_session, claim_by};
use crate::find::heads::receivable_at_address;
use crate::find::leases::leased;
use crate::plan::drafting::planned;
use sb_entities::{EntityStore, SpaceStore};
use sb_machine::{
    Change, Changes, How, Operation, Path, Refusal, Reply, Step, StoredCopy, Token, Which, at_part,
};
use sb_model::{Message, Rows, Text};
use sb_names::limits::{MAX_OPERATIONS, TXN_LIFE};
use sb_names::{bad_in_messages, goes_with, is_address, is_same_entity};
use std::alloc::{AllocError, Global};

/// What acts together, as far as it was gathered.
#[derive(Drop)]
pub struct Gathering {
    /// What is sent and settled.
    pub operations: Vec<Operation>,
    /// What is done before that.
    pub changes: Changes,
}

/// Gathers operations at `moment`, in ms since 1970, one after another, as the transaction of the number
/// `txn` would on the entity that is at `path`. Where one is refused, what was gathered is lost.
pub fn gather_all(
    alloc: Global,
    space: &SpaceStore,
    moment: u64,
    path: &Path,
    entity: &EntityStore,
    txn: u64,
    gathering: &mut Gathering,
    steps: &[Step],
) -> Result<(), Refusal>
    requires moment { moment ≤ max_moment }
    requires txn { txn ≡ spec.gathering_number (space_in space.now) }
    requires front { list_all is_front gathering.old.changes ≡ true }
    ensures row { Gathers result (spec.read_steps 0 (space_in space.now) moment path.now (entity_in entity.now) gathering.old.operations.items gathering.old.changes steps.now) gathering.new.operations.items gathering.new.changes }
    ensures front { OnOk result (list_all is_front gathering.new.changes ≡ true) }
{
    for (part, step) in steps.iter().enumerate() {
        if let Err(refusal) = gather_one(alloc, space, moment, path, entity, txn, gathering, step) {
            return Err(at_part(part as u64, refusal));
        }
    }
    Ok(())
}

fn gather_one(
    alloc: Global,
    space: &SpaceStore,
    moment: u64,
    path: &Path,
    entity: &EntityStore,
    txn: u64,
    gathering: &mut Gathering,
    step: &Step,
) -> Result<(), Refusal>
    requires moment { moment ≤ max_moment }
    requires txn { txn ≡ spec.gathering_number (space_in space.now) }
    requires front { list_all is_front gathering.old.changes ≡ true }
    ensures row { Gathers result (gathered_on gathering.old.operations.items gathering.old.changes (spec.read_step (space_in space.now) moment path.now (entity_in entity.now) gathering.old.operations.items step.now)) gathering.new.operations.items gathering.new.changes }
    ensures front { OnOk result (list_all is_front gathering.new.changes ≡ true) }
{
    let operations = gathering.operations.as_slice();
    let draft = read_step(alloc, space, moment, path, entity, txn, operations, step)?;
    match gather(gathering, draft) {
        Ok(()) => Ok(()),
        Err(_) => Err(Refusal::OutOfMemory),
    }
}

// ---- what one adds

fn add(gathering: &mut Gathering, change: Change) -> Result<(), AllocError>
    ensures operations { OnOk result (gathering.new.operations.items ≡ gathering.old.operations.items ++ spec.operations_in (change ∷ [])) }
    ensures changes { OnOk result (gathering.new.changes ≡ gathering.old.changes ++ unqueued (change ∷ [])) }
{
    match change {
        Change::Queues { operation, .. } => {
            gathering.operations.push(operation)?;
            Ok(())
        }
        other => gathering.changes.push(other),
    }
}

// What a draft queues, and its other changes.
fn gather(gathering: &mut Gathering, draft: Draft) -> Result<(), AllocError>
    ensures operations { OnOk result (gathering.new.operations.items ≡ gathering.old.operations.items ++ spec.operations_in draft.changes) }
    ensures changes { OnOk result (gathering.new.changes ≡ gathering.old.changes ++ unqueued draft.changes) }
{
    let Draft { reply, changes } = draft;
    drop(reply);
    let mut left = changes;
    while let Some(change) = left.take_first() {
        add(gathering, change)?;
    }
    drop(left);
    Ok(())
}

// ---- one of them

fn read_step(
    alloc: Global,
    space: &SpaceStore,
    moment: u64,
    path: &Path,
    entity: &EntityStore,
    txn: u64,
    operations: &[Operation],
    step: &Step,
) -> Result<Draft, Refusal>
    requires moment { moment ≤ max_moment }
    requires txn { txn ≡ spec.gathering_number (space_in space.now) }
    ensures { PlansRow result (spec.read_step (space_in space.now) moment path.now (entity_in entity.now) operations.now step.now) }
{
    match step {
        Step::Send { to, messages } => read_send(
            alloc, space, moment, entity, txn, operations, to, messages,
        ),
        Step::Settle {
            from,
            which,
            token,
            session,
            how,
        } => read_settle(
            alloc, space, moment, entity, txn, operations, from, which, *token, *session, how,
        ),
        Step::SessionSet {
            from,
            session,
            state,
        } => read_set(alloc, space, moment, path, from, *session, state),
    }
}

fn read_set(
    alloc: Global,
    space: &SpaceStore,
    moment: u64,
    path: &Path,
    from: &Path,
    session: Token,
    state: &Option<Rows<u8>>,
) -> Result<Draft, Refusal>
    ensures { PlansRow result (asks (names.is_same_entity from.now path.now) TxnScope (session_set_row (space_in space.now) moment from.now session state.now)) }
{
    if !is_same_entity(from, path) {
        return Err(Refusal::TxnScope);
    }
    plan_session_set(alloc, space, moment, from, session, state)
}

// ---- a send

fn judge_fields(alloc: Global, via: bool, messages: &[Message]) -> Result<(), Refusal>
    ensures { Judges result (refused_by (option_map (λ key. BadField key) (fields.bad_in_messages via messages.now))) }
{
    let Some(key) = bad_in_messages(via, messages) else {
        return Ok(());
    };
    match Text::of(alloc, key) {
        Ok(key) => Err(Refusal::BadCall { key }),
        Err(_) => Err(Refusal::OutOfMemory),
    }
}

fn queued_messages(
    alloc: Global,
    moment: u64,
    txn: u64,
    to: &Path,
    messages: &Rows<Message>,
) -> Result<Draft, AllocError>
    requires { moment ≤ max_moment }
    ensures { DraftsRow result (answers Queued (queued_in txn (moment + 120000) to.now messages.now)) }
{
    if messages.is_empty() {
        return Ok(Draft::unchanging(alloc, Reply::Queued));
    }
    let queues = Change::Queues {
        txn,
        deadline: moment + TXN_LIFE,
        operation: send_of(to, messages)?,
    };
    Ok(Draft::changing(alloc, Reply::Queued, queues))
}

fn judge_send(
    alloc: Global,
    space: &SpaceStore,
    entity: &EntityStore,
    operations: &[Operation],
    to: &Path,
    messages: &[Message],
) -> Result<(), Refusal>
    ensures { Judges result (sending_tests (space_in space.now) (entity_in entity.now) operations.now to.now messages.now) }
{
    let via = !is_same_entity(to, &entity.about().path);
    judge_fields(alloc, via, messages)?;
    if !is_address(to) {
        return Err(Refusal::BadName);
    }
    let there = target(space, to, via);
    if !via && there.is_none() {
        return Err(Refusal::EntityNotFound);
    }
    if !is_destination(to) {
        return Err(Refusal::WrongKind);
    }
    if !have_sessions_at(there, messages) {
        return Err(Refusal::SessionRequired);
    }
    if !fits(operations, messages.len(), MAX_OPERATIONS) {
        return Err(Refusal::TxnFull);
    }
    judge_sizes(messages)
}

fn read_send(
    alloc: Global,
    space: &SpaceStore,
    moment: u64,
    entity: &EntityStore,
    txn: u64,
    operations: &[Operation],
    to: &Path,
    messages: &Rows<Message>,
) -> Result<Draft, Refusal>
    requires moment { moment ≤ max_moment }
    requires txn { txn ≡ spec.gathering_number (space_in space.now) }
    ensures { PlansRow result (spec.read_send (space_in space.now) moment (entity_in entity.now) (spec.gathering (space_in space.now) moment (entity_in entity.now) operations.now) to.now messages.now) }
{
    judge_send(alloc, space, entity, operations, to, messages.as_slice())?;
    planned(queued_messages(alloc, moment, txn, to, messages))
}

// ---- a settlement

fn queued_settlement(
    alloc: Global,
    moment: u64,
    txn: u64,
    from: &Path,
    token: Token,
    session: Option<Token>,
    how: &How,
    number: u64,
) -> Result<Draft, AllocError>
    requires { moment ≤ max_moment }
    ensures { DraftsRow result (answers Queued (Queues txn (moment + 120000) (Settle from.now number token session how.now) ∷ [])) }
{
    let queues = Change::Queues {
        txn,
        deadline: moment + TXN_LIFE,
        operation: settle_of(from, number, token, session, how)?,
    };
    Ok(Draft::changing(alloc, Reply::Queued, queues))
}

fn settles(operation: &Operation, lock: u64) -> bool
    ensures { result ≡ settling.settles lock operation.now }
{
    match operation {
        Operation::Send { .. } => false,
        Operation::Settle { token, .. } => token.lock == lock,
    }
}

fn any_settles(operations: &[Operation], lock: u64) -> bool
    ensures { result ≡ list_any (settling.settles lock) operations.now }
{
    operations.iter().any(|o| settles(o, lock))
}

// Whether no settlement of this lock is queued in an open transaction, or was gathered.
fn check_pending(
    space: &SpaceStore,
    txn: u64,
    operations: &[Operation],
    lock: u64,
) -> Result<(), Refusal>
    ensures { (x : Transaction) → x.number ≡ txn → x.operations ≡ operations.now → MatchResult result (λ _. settling.pending (spec.pending_with lock (space_in space.now) x) ≡ None) (λ r. settling.pending (spec.pending_with lock (space_in space.now) x) ≡ Some r) }
{
    if let Some(found) = space.txns().pending(lock) {
        return Err(Refusal::TxnPending {
            txn: found.number(),
        });
    }
    if any_settles(operations, lock) {
        return Err(Refusal::TxnPending { txn });
    }
    Ok(())
}

fn is_same_number(own: &EntityStore, entity: &EntityStore) -> bool
    ensures { result ≡ ((entity_in own.now).about.number == (entity_in entity.now).about.number) }
{
    own.about().number == entity.about().number
}

fn read_found(
    alloc: Global,
    space: &SpaceStore,
    moment: u64,
    entity: &EntityStore,
    txn: u64,
    operations: &[Operation],
    from: &Path,
    token: Token,
    session: Option<Token>,
    how: &How,
    copy: Option<&StoredCopy>,
) -> Result<Draft, Refusal>
    requires moment { moment ≤ max_moment }
    requires txn { txn ≡ spec.gathering_number (space_in space.now) }
    ensures { PlansRow result (spec.read_found (space_in space.now) moment (spec.gathering (space_in space.now) moment (entity_in entity.now) operations.now) from.now token session how.now (option_map (λ c. c.now) copy.entry)) }
{
    let Some(copy) = copy else {
        return Err(Refusal::LockLost);
    };
    check_pending(space, txn, operations, token.lock)?;
    if !fits(operations, 1, MAX_OPERATIONS) {
        return Err(Refusal::TxnFull);
    }
    planned(queued_settlement(alloc, moment, txn, from, token, session, how, copy.number))
}

fn read_settle(
    alloc: Global,
    space: &SpaceStore,
    moment: u64,
    own: &EntityStore,
    txn: u64,
    operations: &[Operation],
    from: &Path,
    which: &Which,
    token: Token,
    session: Option<Token>,
    how: &How,
) -> Result<Draft, Refusal>
    requires moment { moment ≤ max_moment }
    requires txn { txn ≡ spec.gathering_number (space_in space.now) }
    ensures { PlansRow result (spec.read_settle (space_in space.now) moment (spec.gathering (space_in space.now) moment (entity_in own.now) operations.now) from.now which.now token session how.now) }
{
    let entity = receivable_at_address(space, from)?;
    if !goes_with(how, from.part) {
        return Err(Refusal::WrongKind);
    }
    check_session(entity, from.part, session)?;
    if !is_same_number(own, entity) {
        return Err(Refusal::TxnScope);
    }
    let part = entity.part(from.part);
    claim_by(space, moment, part, session)?;
    let copy = leased(space, moment, token, which, part);
    read_found(
        alloc, space, moment, own, txn, operations, from, token, session, how, copy,
    )
}
