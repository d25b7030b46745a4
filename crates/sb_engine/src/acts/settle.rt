// Settling a copy that is held under a lock: at once, or queued in a transaction.
ghost use Rattle.std.specs.Prelude.{◌≡◌, ◌≤◌, true, Some, None, IfOk, IfErr, MatchResult};
ghost use Rattle.std.specs.Result.{IsOk};
ghost use Rattle.std.specs.Option.{option_map};
ghost use Rattle.sb_machine.specs.Answers.{max_moment};
ghost use Rattle.sb_machine.specs.Namespace as namespace;
ghost use Rattle.sb_machine.specs.Queueing as queueing;
ghost use Rattle.sb_machine.specs.Rows.{answers, refuses};
ghost use Rattle.sb_machine.specs.SettleRow as spec;
ghost use Rattle.sb_machine.specs.Settlement as settlement;
ghost use Rattle.sb_machine.specs.declared.reply.Reply.TheVariants.{Done, Queued};
ghost use Rattle.sb_machine.specs.declared.state.Operation.TheVariants.{Settle};
ghost use Rattle.sb_entities.specs.Stores.{entity_in, space_in};
ghost use Rattle.sb_engine.specs.Drafts.{DraftsRow, copies_nothing};
ghost use Rattle.sb_engine.specs.Plans.{PlansRow};

use crate::Draft;
use crate::deliver::queueing::{has_room_in, is_on, open_in, queueing};
use crate::deliver::settling::settled;
use crate::find::claims::{check_session, claim_by};
use crate::find::heads::receivable_at_address;
use crate::find::leases::leased;
use crate::plan::drafting::planned;
use sb_entities::{EntityStore, SpaceStore};
use sb_fanout::Lasts;
use sb_machine::{Changes, How, Operation, Part, Path, Refusal, Reply, StoredCopy, Token, Which};
use sb_names::goes_with;
use sb_txn::OpenTransaction;
use std::alloc::{AllocError, Global};

fn settled_now(
    alloc: Global,
    space: &SpaceStore,
    moment: u64,
    entity: &EntityStore,
    part: Part,
    how: &How,
    copy: &StoredCopy,
) -> Result<Draft, AllocError>
    ensures row { DraftsRow result (answers Done (settlement.settled (namespace.listed (space_in space.now)) moment (entity_in entity.now) part copy.now how.now)) }
    ensures free { copies_nothing how.now ≡ true → IsOk result }
{
    let mut lasts = Lasts::new(alloc);
    let mut changes = Changes::new(alloc);
    let Ok(()) = settled(
        alloc,
        space,
        &mut lasts,
        &mut changes,
        moment,
        entity,
        part,
        copy,
        how,
    ) else {
        drop(changes);
        return Err(AllocError);
    };
    Ok(Draft {
        reply: Reply::Done,
        changes,
    })
}

/// A settlement as it is queued.
pub fn settle_of(
    from: &Path,
    number: u64,
    token: Token,
    session: Option<Token>,
    how: &How,
) -> Result<Operation, AllocError>
    ensures { IfOk result (λ o. o ≡ Settle from.now number token session how.now) }
{
    Ok(Operation::Settle {
        from: from.clone()?,
        number,
        token,
        session,
        how: how.clone()?,
    })
}

fn queued(
    alloc: Global,
    moment: u64,
    from: &Path,
    token: Token,
    session: Option<Token>,
    how: &How,
    number: u64,
    txn: &OpenTransaction,
) -> Result<Draft, AllocError>
    requires { moment ≤ max_moment }
    ensures { DraftsRow result (answers Queued (queueing.queueing moment txn.now.transaction (Settle from.now number token session how.now))) }
{
    let operation = settle_of(from, number, token, session, how)?;
    Ok(Draft::changing(alloc, Reply::Queued, queueing(moment, txn, operation)))
}

fn settled_or_queued(
    alloc: Global,
    space: &SpaceStore,
    moment: u64,
    entity: &EntityStore,
    from: &Path,
    token: Token,
    session: Option<Token>,
    how: &How,
    copy: &StoredCopy,
    txn: Option<&OpenTransaction>,
) -> Result<Draft, AllocError>
    requires { moment ≤ max_moment }
    ensures row { DraftsRow result (spec.settled_or_queued (space_in space.now) moment (entity_in entity.now) from.now token session how.now copy.now (option_map (λ o. o.now.transaction) txn.entry)) }
    ensures free { option_map (λ o. o.now.transaction) txn.entry ≡ None → copies_nothing how.now ≡ true → IsOk result }
{
    match txn {
        Some(txn) => queued(alloc, moment, from, token, session, how, copy.number, txn),
        None => settled_now(alloc, space, moment, entity, from.part, how, copy),
    }
}

// Whether no settlement of this lock is queued.
fn check_pending(space: &SpaceStore, lock: u64) -> Result<(), Refusal>
    ensures { MatchResult result (λ _. spec.pending (spec.pending_in lock (space_in space.now)) ≡ None) (λ r. spec.pending (spec.pending_in lock (space_in space.now)) ≡ Some r) }
{
    match space.txns().pending(lock) {
        Some(found) => Err(Refusal::TxnPending {
            txn: found.number(),
        }),
        None => Ok(()),
    }
}

fn settle_found(
    alloc: Global,
    space: &SpaceStore,
    moment: u64,
    entity: &EntityStore,
    from: &Path,
    token: Token,
    session: Option<Token>,
    how: &How,
    txn: Option<&OpenTransaction>,
    copy: Option<&StoredCopy>,
) -> Result<Draft, Refusal>
    requires { moment ≤ max_moment }
    ensures row { PlansRow result (spec.settle_found (space_in space.now) moment (entity_in entity.now) from.now token session how.now (option_map (λ o. o.now.transaction) txn.entry) (option_map (λ c. c.now) copy.entry)) }
    ensures free { option_map (λ o. o.now.transaction) txn.entry ≡ None → copies_nothing how.now ≡ true → IfErr result (λ r. spec.settle_found (space_in space.now) moment (entity_in entity.now) from.now token session how.now (option_map (λ o. o.now.transaction) txn.entry) (option_map (λ c. c.now) copy.entry) ≡ refuses r) }
{
    let Some(copy) = copy else {
        return Err(Refusal::LockLost);
    };
    check_pending(space, token.lock)?;
    if !has_room_in(txn, 1) {
        return Err(Refusal::TxnFull);
    }
    planned(settled_or_queued(
        alloc, space, moment, entity, from, token, session, how, copy, txn,
    ))
}

/// What settling a copy at `moment`, in ms since 1970, would do. To complete or defer it at once
/// memory is never wanting.
pub fn plan_settle(
    alloc: Global,
    space: &SpaceStore,
    moment: u64,
    from: &Path,
    which: &Which,
    token: Token,
    session: Option<Token>,
    how: &How,
    txn: Option<u64>,
) -> Result<Draft, Refusal>
    requires { moment ≤ max_moment }
    ensures row { PlansRow result (spec.settle_row (space_in space.now) moment from.now which.now token session how.now txn) }
    ensures free { txn ≡ None → copies_nothing how.now ≡ true → IfErr result (λ r. spec.settle_row (space_in space.now) moment from.now which.now token session how.now txn ≡ refuses r) }
{
    let entity = receivable_at_address(space, from)?;
    if !goes_with(how, from.part) {
        return Err(Refusal::WrongKind);
    }
    check_session(entity, from.part, session)?;
    let txn = open_in(space, txn)?;
    if !is_on(entity, txn) {
        return Err(Refusal::TxnScope);
    }
    let part = entity.part(from.part);
    claim_by(space, moment, part, session)?;
    let copy = leased(space, moment, token, which, part);
    settle_found(
        alloc, space, moment, entity, from, token, session, how, txn, copy,
    )
}
