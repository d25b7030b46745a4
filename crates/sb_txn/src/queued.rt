// The locks whose settlements are queued, in an index: by lock, and of one lock by transaction.
ghost use Rattle.std.specs.Prelude.{◌≡◌, ◌≤◌, ◌<◌, ◌+◌, ◌^◌, ℕ, ◌==◌, ◌&&◌, ◌||◌, length, not, IfOk, OnOk};
ghost use Rattle.std.specs.List.{list_any};
ghost use Rattle.sb_index.specs.Rows.{is_at};
ghost use Rattle.sb_machine.specs.Each.{Each};
ghost use Rattle.sb_txn.specs.Queued as spec;

use crate::OpenTransaction;
use sb_index::{Index, Row};
use sb_machine::{Operation, Transaction};
use std::alloc::{AllocError, Global};

// How far the keys of one lock stand from those of the next.
const LOCK_STRIDE: u128 = 1 << 64;

/// An operation is queued in the transaction of this number; where it is a settlement whose key
/// isn't there yet, that takes a promised node.
pub fn note(index: &mut Index, number: u64, operation: &Operation)
    requires room { 1 ≤ index.old.spare }
    ensures keys { (k : ℕ) → list_any (is_at k) index.new.rows ≡ (spec.is_keyed number k operation.now || list_any (is_at k) index.old.rows) }
    ensures spare { index.old.spare ≤ index.new.spare + 1 }
{
    match operation {
        Operation::Send { .. } => {}
        Operation::Settle { token, .. } => mark(index, key_of(token.lock, number)),
    }
}

/// These are queued in the transaction of this number.
#[tactic(auto, using(crate::proofs::Keys::noted_one))]
fn note_each(index: &mut Index, number: u64, operations: &[Operation])
    requires room { length operations.now ≤ index.old.spare }
    ensures keys { (k : ℕ) → list_any (is_at k) index.new.rows ≡ (list_any (spec.is_keyed number k) operations.now || list_any (is_at k) index.old.rows) }
{
    for operation in operations {
        note(index, number, operation);
    }
}

/// A transaction is open, with what is queued in it.
fn note_open(index: &mut Index, transaction: &Transaction) -> Result<(), AllocError>
    ensures keys { OnOk result ((k : ℕ) → list_any (is_at k) index.new.rows ≡ (spec.is_keyed_in k transaction.now || list_any (is_at k) index.old.rows)) }
    ensures number { OnOk result (transaction.now.number < 2 ^ 64) }
{
    index.reserve(transaction.operations.len())?;
    note_each(index, transaction.number, transaction.operations.as_slice());
    Ok(())
}

/// All of these are open.
#[tactic(auto, using(crate::proofs::Keys::noted_one))]
fn note_all(index: &mut Index, transactions: &[Transaction]) -> Result<(), AllocError>
    ensures keys { OnOk result ((k : ℕ) → list_any (is_at k) index.new.rows ≡ (list_any (spec.is_keyed_in k) transactions.now || list_any (is_at k) index.old.rows)) }
    ensures numbers { OnOk result (Each (λ x. x.number < 2 ^ 64) transactions.now) }
{
    for transaction in transactions {
        note_open(index, transaction)?;
    }
    Ok(())
}

/// An index with the keys of all that is queued in these.
pub fn index_of(alloc: Global, transactions: &[Transaction]) -> Result<Index, AllocError>
    ensures keys { IfOk result (λ i. (k : ℕ) → list_any (is_at k) i.rows ≡ list_any (spec.is_keyed_in k) transactions.now) }
    ensures numbers { IfOk result (λ i. Each (λ x. x.number < 2 ^ 64) transactions.now) }
{
    let mut index = Index::new(alloc);
    note_all(&mut index, transactions)?;
    Ok(index)
}

/// A transaction is open no more.
pub fn forget(index: &mut Index, row: &OpenTransaction)
    ensures keys { (k : ℕ) → list_any (is_at k) index.new.rows ≡ (not (spec.has_keyed k row.now) && list_any (is_at k) index.old.rows) }
    ensures spare { index.new.spare ≡ index.old.spare }
{
    forget_each(index, row.number(), row.operations());
}

/// All that are on this entity are open no more.
#[tactic(auto, using(crate::proofs::Keys::forgot_one))]
pub fn forget_of(index: &mut Index, rows: &[OpenTransaction], entity: u64)
    ensures keys { (k : ℕ) → list_any (is_at k) index.new.rows ≡ (not (list_any (spec.has_keyed_on entity k) rows.now) && list_any (is_at k) index.old.rows) }
    ensures spare { index.new.spare ≡ index.old.spare }
{
    for row in rows {
        forget_on(index, row, entity);
    }
}

/// The number of the first transaction in which a settlement of this lock is queued.
#[tactic(auto, using(crate::proofs::Keys::found_from))]
pub fn first_number(index: &Index, lock: u64) -> Option<u64>
    ensures { result ≡ spec.first_number lock index.now.rows }
{
    let least = u128::from(lock) * LOCK_STRIDE;
    let Some(row) = index.first_from(least) else {
        return None;
    };
    let past = row.key - least;
    if past < LOCK_STRIDE {
        Some(past as u64)
    } else {
        None
    }
}

fn key_of(lock: u64, number: u64) -> u128
    ensures { result ≡ spec.key_of lock number }
{
    u128::from(lock) * LOCK_STRIDE + u128::from(number)
}

#[tactic(auto, using(crate::proofs::Keys::any_found, crate::proofs::Keys::any_missed, crate::proofs::Keys::noted_there, crate::proofs::Keys::noted_new))]
fn mark(index: &mut Index, key: u128)
    requires room { 1 ≤ index.old.spare }
    ensures keys { (k : ℕ) → list_any (is_at k) index.new.rows ≡ ((k == key) || list_any (is_at k) index.old.rows) }
    ensures spare { index.old.spare ≤ index.new.spare + 1 }
{
    if index.get(key).is_some() {
        return;
    }
    index.insert(Row {
        key,
        value: 0,
        marked: false,
        due: u64::MAX,
    });
}

#[tactic(auto, using(crate::proofs::Keys::noted_without))]
fn unmark(index: &mut Index, key: u128)
    ensures keys { (k : ℕ) → list_any (is_at k) index.new.rows ≡ (not (k == key) && list_any (is_at k) index.old.rows) }
    ensures spare { index.new.spare ≡ index.old.spare }
{
    let _ = index.remove(key);
}

fn forget_one(index: &mut Index, number: u64, operation: &Operation)
    ensures keys { (k : ℕ) → list_any (is_at k) index.new.rows ≡ (not (spec.is_keyed number k operation.now) && list_any (is_at k) index.old.rows) }
    ensures spare { index.new.spare ≡ index.old.spare }
{
    match operation {
        Operation::Send { .. } => {}
        Operation::Settle { token, .. } => unmark(index, key_of(token.lock, number)),
    }
}

#[tactic(auto, using(crate::proofs::Keys::forgot_one))]
fn forget_each(index: &mut Index, number: u64, operations: &[Operation])
    ensures keys { (k : ℕ) → list_any (is_at k) index.new.rows ≡ (not (list_any (spec.is_keyed number k) operations.now) && list_any (is_at k) index.old.rows) }
    ensures spare { index.new.spare ≡ index.old.spare }
{
    for operation in operations {
        forget_one(index, number, operation);
    }
}

fn forget_on(index: &mut Index, row: &OpenTransaction, entity: u64)
    ensures keys { (k : ℕ) → list_any (is_at k) index.new.rows ≡ (not (spec.has_keyed_on entity k row.now) && list_any (is_at k) index.old.rows) }
    ensures spare { index.new.spare ≡ index.old.spare }
{
    if row.entity() == entity {
        forget(index, row);
    }
}
