// Locks: which there are, that each is one that was given, and that no two are the same.
ghost use Rattle.std.specs.Prelude.{◌≡◌, ◌++◌, ◌&&◌, nat_le, nat_lt, OnOk, IfOk};
ghost use Rattle.std.specs.List.{flat_map, list_all};
ghost use Rattle.sb_machine.specs.Consistent as consistent;
ghost use Rattle.sb_machine.specs.Ends.{lock_in};
ghost use Rattle.sb_judge.specs.Verdicts.{differ, pairs};

use crate::sorted::{Ordered, is_on};
use sb_machine::{Entity, Leaf, Operation, Session, Space, Standing, StoredCopy, Transaction};
use std::alloc::{AllocError, Global};

impl Ordered for u64 {
    ghost before = { λ a b. nat_lt a b };

    fn is_before(&self, other: &u64) -> bool {
        *self < *other
    }
}

/// Whether no two of these are the same.
pub(crate) fn are_distinct(locks: Vec<u64>) -> bool
    ensures { result ≡ (pairs locks.items differ).0 }
{
    let mut sorted = locks;
    sorted.sort_unstable();
    is_on(sorted.as_slice())
}

/// Whether each of these was given: from 1 to the last one.
#[tactic(auto, using(crate::proofs::Distinct::all_of_both))]
pub(crate) fn are_both_given(locks: &[u64], queued: &[u64], last: u64) -> bool
    ensures { result ≡ list_all (λ l. nat_lt 0 l && nat_le l last) (locks.now ++ queued.now) }
{
    are_given(locks, last) && are_given(queued, last)
}

fn are_given(locks: &[u64], last: u64) -> bool
    ensures { result ≡ list_all (λ l. nat_lt 0 l && nat_le l last) locks.now }
{
    locks.iter().all(|lock| 0 < *lock && *lock <= last)
}

/// The locks of copies and of sessions' holders.
pub(crate) fn locks_of(alloc: Global, space: &Space) -> Result<Vec<u64>, AllocError>
    ensures { IfOk result (λ locks. locks.items ≡ consistent.locks_of space.now) }
{
    let mut locks = Vec::new(alloc);
    put_locks_of_all(space.entities.as_slice(), &mut locks)?;
    Ok(locks)
}

/// The locks under which open transactions settle.
pub(crate) fn queued_locks(alloc: Global, space: &Space) -> Result<Vec<u64>, AllocError>
    ensures { IfOk result (λ locks. locks.items ≡ consistent.queued_locks space.now) }
{
    let mut locks = Vec::new(alloc);
    put_queued_of_all(space.transactions.as_slice(), &mut locks)?;
    Ok(locks)
}

/// Adds the locks of sessions' holders.
pub(crate) fn put_holder_locks(space: &Space, out: &mut Vec<u64>) -> Result<(), AllocError>
    ensures { OnOk result (out.new.items ≡ out.old.items ++ consistent.holder_locks space.now) }
{
    put_holders_of_all(space.entities.as_slice(), out)
}

// ---- of parts

fn put_copies(copies: &[StoredCopy], out: &mut Vec<u64>) -> Result<(), AllocError>
    ensures { OnOk result (out.new.items ≡ out.old.items ++ flat_map (λ c. lock_in c.standing) copies.now) }
{
    for copy in copies {
        put_copy(copy, out)?;
    }
    Ok(())
}

fn put_copy(copy: &StoredCopy, out: &mut Vec<u64>) -> Result<(), AllocError>
    ensures { OnOk result (out.new.items ≡ out.old.items ++ lock_in copy.now.standing) }
{
    if let Standing::Held { lock, .. } = copy.standing {
        out.push(lock)?;
    }
    Ok(())
}

fn put_holders(sessions: &[Session], out: &mut Vec<u64>) -> Result<(), AllocError>
    ensures { OnOk result (out.new.items ≡ out.old.items ++ flat_map consistent.holder_lock sessions.now) }
{
    for session in sessions {
        put_holder(session, out)?;
    }
    Ok(())
}

fn put_holder(session: &Session, out: &mut Vec<u64>) -> Result<(), AllocError>
    ensures { OnOk result (out.new.items ≡ out.old.items ++ consistent.holder_lock session.now) }
{
    if let Some(holder) = session.holder {
        out.push(holder.lock)?;
    }
    Ok(())
}

fn put_locks_in(leaf: &Leaf, out: &mut Vec<u64>) -> Result<(), AllocError>
    ensures { OnOk result (out.new.items ≡ out.old.items ++ consistent.locks_in leaf.now) }
{
    put_copies(leaf.copies.as_slice(), out)?;
    put_holders(leaf.sessions.as_slice(), out)?;
    Ok(())
}

// ---- of entities

fn put_locks(entity: &Entity, out: &mut Vec<u64>) -> Result<(), AllocError>
    ensures { OnOk result (out.new.items ≡ out.old.items ++ (consistent.locks_in entity.now.main ++ consistent.locks_in entity.now.dead ++ consistent.locks_in entity.now.transfer)) }
{
    put_locks_in(&entity.main, out)?;
    put_locks_in(&entity.dead, out)?;
    put_locks_in(&entity.transfer, out)?;
    Ok(())
}

fn put_locks_of_all(entities: &[Entity], out: &mut Vec<u64>) -> Result<(), AllocError>
    ensures { OnOk result (out.new.items ≡ out.old.items ++ flat_map (λ e. consistent.locks_in e.main ++ consistent.locks_in e.dead ++ consistent.locks_in e.transfer) entities.now) }
{
    for entity in entities {
        put_locks(entity, out)?;
    }
    Ok(())
}

fn put_holders_of(entity: &Entity, out: &mut Vec<u64>) -> Result<(), AllocError>
    ensures { OnOk result (out.new.items ≡ out.old.items ++ (flat_map consistent.holder_lock entity.now.main.sessions ++ flat_map consistent.holder_lock entity.now.dead.sessions ++ flat_map consistent.holder_lock entity.now.transfer.sessions)) }
{
    put_holders(entity.main.sessions.as_slice(), out)?;
    put_holders(entity.dead.sessions.as_slice(), out)?;
    put_holders(entity.transfer.sessions.as_slice(), out)?;
    Ok(())
}

fn put_holders_of_all(entities: &[Entity], out: &mut Vec<u64>) -> Result<(), AllocError>
    ensures { OnOk result (out.new.items ≡ out.old.items ++ flat_map (λ e. flat_map consistent.holder_lock e.main.sessions ++ flat_map consistent.holder_lock e.dead.sessions ++ flat_map consistent.holder_lock e.transfer.sessions) entities.now) }
{
    for entity in entities {
        put_holders_of(entity, out)?;
    }
    Ok(())
}

// ---- of transactions

fn put_queued(operation: &Operation, out: &mut Vec<u64>) -> Result<(), AllocError>
    ensures { OnOk result (out.new.items ≡ out.old.items ++ consistent.queued_lock operation.now) }
{
    if let Operation::Settle { token, .. } = operation {
        out.push(token.lock)?;
    }
    Ok(())
}

fn put_queued_in(operations: &[Operation], out: &mut Vec<u64>) -> Result<(), AllocError>
    ensures { OnOk result (out.new.items ≡ out.old.items ++ flat_map consistent.queued_lock operations.now) }
{
    for operation in operations {
        put_queued(operation, out)?;
    }
    Ok(())
}

fn put_queued_of_all(transactions: &[Transaction], out: &mut Vec<u64>) -> Result<(), AllocError>
    ensures { OnOk result (out.new.items ≡ out.old.items ++ flat_map (λ x. flat_map consistent.queued_lock x.operations) transactions.now) }
{
    for transaction in transactions {
        put_queued_in(transaction.operations.as_slice(), out)?;
    }
    Ok(())
}
