// Open transactions as rows: where one stands, and what changes there, with the index of the locks
// that are queued in them.
ghost use Rattle.std.specs.Prelude.{◌≡◌, ◌≤◌, ◌<◌, ◌+◌, ◌^◌, max, [], ◌∷◌, length, filter, find, map, position, sum_by, IfOk, IfSome, OnOk, OnErr, slice_set, vec_len, vec_capacity, Some};
ghost use Rattle.std.specs.List.{slice_get, remove, list_any, prefix_len};
ghost use Rattle.std.specs.Option.{option_map};
ghost use Rattle.sb_machine.specs.Changes.{is_transaction, with_operation};
ghost use Rattle.sb_machine.specs.Keyed.{changed};
ghost use Rattle.sb_machine.specs.SettleRow.{settles};
ghost use Rattle.sb_txn.specs.Queued as spec;
ghost use Rattle.sb_txn.specs.Queued.{is_earlier, slots_of, spare_of, AreKeyed, AreNumbered, IsKept};
ghost use Rattle.sb_txn.specs.Txns.{full, transactions_of, has_txn, with_less_room, with_queued, with_room, is_elsewhere};

use crate::{OpenTransaction, queued};
use sb_index::Index;
use sb_machine::{Operation, Transaction};
use sb_model::Rows;
use std::alloc::{AllocError, Global};

// ---- places

// How many stand before the transaction of this number.
fn entry_of(rows: &[OpenTransaction], number: u64) -> usize
    requires { AreNumbered rows.now }
    ensures { result ≡ prefix_len (is_earlier number) rows.now }
{
    rows.partition_point(|r| r.number() < number)
}

fn place_of(rows: &[OpenTransaction], number: u64) -> Option<usize>
    requires { AreNumbered rows.now }
    ensures { result ≡ position (has_txn number) rows.now }
{
    let place = entry_of(rows, number);
    let Some(row) = rows.get(place) else {
        return None;
    };
    if row.number() == number {
        Some(place)
    } else {
        None
    }
}

// ---- searches

pub fn numbered(rows: &[OpenTransaction], number: u64) -> Option<&OpenTransaction>
    requires { AreNumbered rows.now }
    ensures row { option_map (λ r. r.now) result ≡ find (has_txn number) rows.now }
    ensures transaction { option_map (λ r. r.now.transaction) result ≡ find (is_transaction number) (transactions_of rows.now) }
{
    match place_of(rows, number) {
        Some(place) => Some(&rows[place]),
        None => None,
    }
}

pub fn settling<'a>(
    rows: &'a [OpenTransaction],
    keys: &Index,
    lock: u64,
) -> Option<&'a OpenTransaction>
    requires numbered { AreNumbered rows.now }
    requires keyed { AreKeyed rows.now keys.now.rows }
    ensures { option_map (λ r. r.now.transaction) result ≡ find (λ x. list_any (settles lock) x.operations) (transactions_of rows.now) }
{
    keys.rises();
    match queued::first_number(keys, lock) {
        Some(number) => numbered(rows, number),
        None => None,
    }
}

// ---- changes

fn reserve_at(rows: &mut Vec<OpenTransaction>, place: usize, count: usize) -> Result<(), AllocError>
    requires { place < length rows.old.items }
    ensures ok { OnOk result (IfSome (slice_get rows.old.items place) (λ r. rows.new.items ≡ slice_set rows.old.items place (with_room count r))) }
    ensures err { OnErr result (rows.new.items ≡ rows.old.items) }
    ensures len { vec_len rows.new ≡ vec_len rows.old }
    ensures capacity { vec_capacity rows.new ≡ vec_capacity rows.old }
{
    let row = &mut rows[place];
    row.reserve(count)
}

fn spare_at(rows: &[OpenTransaction], place: usize) -> usize
    requires { place < length rows.now }
    ensures { IfSome (slice_get rows.now place) (λ r. result ≡ r.spare) }
{
    rows[place].spare()
}

// How many slots all have together once the one that had so many has so many at least, if 64 bits
// hold that.
fn slots_with(slots: usize, had: usize, count: usize) -> Option<usize>
    requires { had ≤ slots }
    ensures { IfSome result (λ n. n + had ≡ slots + max had count) }
{
    (slots - had).checked_add(had.max(count))
}

// The nodes of the index are promised before the slots, so that each slot has one.
pub fn reserve_row(
    rows: &mut Vec<OpenTransaction>,
    keys: &mut Index,
    slots: &mut usize,
    number: u64,
    count: usize,
) -> Result<(), AllocError>
    requires kept { IsKept rows.old.items keys.old }
    requires slots { slots.old ≡ slots_of rows.old.items }
    ensures ok { OnOk result (rows.new.items ≡ changed (has_txn number) (λ r. with_room count r ∷ []) rows.old.items) }
    ensures transactions { transactions_of rows.new.items ≡ transactions_of rows.old.items }
    ensures err { OnErr result (rows.new.items ≡ rows.old.items) }
    ensures kept { IsKept rows.new.items keys.new }
    ensures slots { slots.new ≡ slots_of rows.new.items }
    ensures len { vec_len rows.new ≡ vec_len rows.old }
    ensures capacity { vec_capacity rows.new ≡ vec_capacity rows.old }
{
    let Some(place) = place_of(rows, number) else {
        return Ok(());
    };
    let had = spare_at(rows, place);
    let Some(wanted) = slots_with(*slots, had, count) else {
        return Err(AllocError);
    };
    keys.reserve(wanted)?;
    reserve_at(rows, place, count)?;
    *slots = wanted;
    Ok(())
}

fn release_at(rows: &mut Vec<OpenTransaction>, place: usize) -> usize
    requires { place < length rows.old.items }
    ensures rows { IfSome (slice_get rows.old.items place) (λ r. rows.new.items ≡ slice_set rows.old.items place (with_less_room r)) }
    ensures slots { IfSome (slice_get rows.old.items place) (λ r. (with_less_room r).spare + result ≡ r.spare) }
    ensures len { vec_len rows.new ≡ vec_len rows.old }
    ensures capacity { vec_capacity rows.new ≡ vec_capacity rows.old }
{
    let row = &mut rows[place];
    row.release()
}

// Answers how many slots that gives back. The nodes of the index stay.
pub fn release_row(rows: &mut Vec<OpenTransaction>, keys: &Index, number: u64) -> usize
    requires kept { IsKept rows.old.items keys.now }
    ensures rows { rows.new.items ≡ changed (has_txn number) (λ r. with_less_room r ∷ []) rows.old.items }
    ensures transactions { transactions_of rows.new.items ≡ transactions_of rows.old.items }
    ensures kept { IsKept rows.new.items keys.now }
    ensures slots { slots_of rows.new.items + result ≡ slots_of rows.old.items }
    ensures len { vec_len rows.new ≡ vec_len rows.old }
    ensures capacity { vec_capacity rows.new ≡ vec_capacity rows.old }
{
    match place_of(rows, number) {
        Some(place) => release_at(rows, place),
        None => 0,
    }
}

fn queue_at(rows: &mut Vec<OpenTransaction>, place: usize, deadline: u64, operation: Operation)
    requires within { place < length rows.old.items }
    requires room { IfSome (slice_get rows.old.items place) (λ r. 1 ≤ r.spare) }
    ensures rows { IfSome (slice_get rows.old.items place) (λ r. rows.new.items ≡ slice_set rows.old.items place (with_queued deadline operation r)) }
    ensures len { vec_len rows.new ≡ vec_len rows.old }
    ensures capacity { vec_capacity rows.new ≡ vec_capacity rows.old }
{
    let row = &mut rows[place];
    row.queue(deadline, operation);
}

// Answers how many slots that takes: none where there is no such transaction.
pub fn queue_row(
    rows: &mut Vec<OpenTransaction>,
    keys: &mut Index,
    number: u64,
    deadline: u64,
    operation: Operation,
) -> usize
    requires kept { IsKept rows.old.items keys.old }
    requires room { IfSome (find (has_txn number) rows.old.items) (λ r. 1 ≤ r.spare) }
    ensures rows { rows.new.items ≡ changed (has_txn number) (λ r. with_queued deadline operation r ∷ []) rows.old.items }
    ensures transactions { transactions_of rows.new.items ≡ changed (is_transaction number) (λ x. with_operation deadline operation x ∷ []) (transactions_of rows.old.items) }
    ensures kept { IsKept rows.new.items keys.new }
    ensures slots { slots_of rows.new.items + result ≡ slots_of rows.old.items }
    ensures len { vec_len rows.new ≡ vec_len rows.old }
    ensures capacity { vec_capacity rows.new ≡ vec_capacity rows.old }
{
    match place_of(rows, number) {
        Some(place) => {
            queue_in(rows, keys, place, number, deadline, operation);
            1
        }
        None => 0,
    }
}

// In the transaction of this number, which stands there.
fn queue_in(
    rows: &mut Vec<OpenTransaction>,
    keys: &mut Index,
    place: usize,
    number: u64,
    deadline: u64,
    operation: Operation,
)
    requires found { Some place ≡ position (has_txn number) rows.old.items }
    requires kept { IsKept rows.old.items keys.old }
    requires room { IfSome (find (has_txn number) rows.old.items) (λ r. 1 ≤ r.spare) }
    ensures rows { rows.new.items ≡ changed (has_txn number) (λ r. with_queued deadline operation r ∷ []) rows.old.items }
    ensures kept { IsKept rows.new.items keys.new }
    ensures slots { slots_of rows.new.items + 1 ≡ slots_of rows.old.items }
    ensures len { vec_len rows.new ≡ vec_len rows.old }
    ensures capacity { vec_capacity rows.new ≡ vec_capacity rows.old }
{
    queued::note(keys, number, &operation);
    queue_at(rows, place, deadline, operation);
}

pub fn take_row(
    rows: &mut Vec<OpenTransaction>,
    keys: &mut Index,
    number: u64,
) -> Option<OpenTransaction>
    requires kept { IsKept rows.old.items keys.old }
    ensures taken { result ≡ find (has_txn number) rows.old.items }
    ensures transaction { option_map (λ r. r.transaction) result ≡ find (is_transaction number) (transactions_of rows.old.items) }
    ensures rows { rows.new.items ≡ changed (has_txn number) (λ r. []) rows.old.items }
    ensures transactions { transactions_of rows.new.items ≡ changed (is_transaction number) (λ x. []) (transactions_of rows.old.items) }
    ensures kept { IsKept rows.new.items keys.new }
    ensures slots { slots_of rows.new.items + spare_of result ≡ slots_of rows.old.items }
    ensures len { vec_len rows.new ≤ vec_len rows.old }
    ensures capacity { vec_capacity rows.new ≡ vec_capacity rows.old }
{
    let Some(place) = place_of(rows, number) else {
        return None;
    };
    let row = rows.remove(place);
    queued::forget(keys, &row);
    Some(row)
}

// Answers how many slots were promised to those that go.
pub fn remove_rows(rows: &mut Vec<OpenTransaction>, keys: &mut Index, entity: u64) -> usize
    requires kept { IsKept rows.old.items keys.old }
    requires within { slots_of rows.old.items < 2 ^ 64 }
    ensures rows { rows.new.items ≡ filter (λ r. is_elsewhere entity r.transaction) rows.old.items }
    ensures transactions { transactions_of rows.new.items ≡ filter (is_elsewhere entity) (transactions_of rows.old.items) }
    ensures kept { IsKept rows.new.items keys.new }
    ensures slots { slots_of rows.new.items + result ≡ slots_of rows.old.items }
    ensures len { vec_len rows.new ≤ vec_len rows.old }
    ensures capacity { vec_capacity rows.new ≡ vec_capacity rows.old }
{
    queued::forget_of(keys, rows, entity);
    let slots = slots_on(rows, entity);
    rows.retain(|r| r.entity() != entity);
    slots
}

// How many slots are promised to those on this entity.
#[tactic(auto, using(crate::proofs::Kept::slots_more))]
fn slots_on(rows: &[OpenTransaction], entity: u64) -> usize
    requires { sum_by (spec.slots_on entity) rows.now < 2 ^ 64 }
    ensures { result ≡ sum_by (spec.slots_on entity) rows.now }
{
    let mut slots = 0;
    for row in rows {
        slots += spare_on(row, entity);
    }
    slots
}

fn spare_on(row: &OpenTransaction, entity: u64) -> usize
    ensures { result ≡ spec.slots_on entity row.now }
{
    if row.entity() == entity {
        row.spare()
    } else {
        0
    }
}

// ---- those that are open already

/// These, with no slots for more.
pub fn rows_of(
    alloc: Global,
    transactions: Rows<Transaction>,
) -> Result<Vec<OpenTransaction>, AllocError>
    ensures { IfOk result (λ v. v.items ≡ map full transactions) }
{
    let mut rows = Vec::with_capacity(alloc, transactions.len())?;
    'open: for transaction in transactions.into_vec() {
        rows.push(OpenTransaction::of(transaction))?;
    }
    Ok(rows)
}
