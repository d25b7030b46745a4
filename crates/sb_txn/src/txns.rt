// The open transactions of a namespace, in the order in which they were begun.
ghost use Rattle.std.specs.Prelude.{◌≡◌, ◌≤◌, ◌<◌, ◌-◌, max, [], ◌∷◌, ◌++◌, length, filter, find, map, OnOk, OnErr, IfOk, IfSome};
ghost use Rattle.std.specs.List.{list_any};
ghost use Rattle.std.specs.Option.{option_map};
ghost use Rattle.sb_machine.specs.Changes.{is_transaction, with_operation};
ghost use Rattle.sb_machine.specs.Each.{Each, Pairs};
ghost use Rattle.sb_machine.specs.Keyed.{changed};
ghost use Rattle.sb_machine.specs.SettleRow.{settles};
ghost use Rattle.sb_txn.specs.Txns.{transactions_of, has_txn, begun, full, with_less_room, with_queued, with_room, is_elsewhere};

use crate::{OpenTransaction, queued, rows};
use sb_index::Index;
use sb_machine::{Operation, Transaction};
use sb_model::Rows;
use std::alloc::{AllocError, Global};
use std::marker::Model;

/// The open transactions of a namespace.
#[derive(Drop)]
pub struct Txns {
    alloc: Global,
    rows: Vec<OpenTransaction>,
    spare: usize,
    // the locks that are queued in them
    keys: Index,
    // how many slots are promised to their operations
    slots: usize,
}

impl Model for Txns {
    ghost use Rattle.std.specs.Prelude.{◌≡◌, ◌+◌, ◌≤◌, vec_len, vec_capacity};
    ghost use Rattle.sb_txn.specs.Queued.{slots_of, IsKept};
    ghost use Rattle.sb_txn.specs.Txns.{Table};

    ghost Value = { Table };

    ghost view = { λ s. record { rows = s.rows.items; spare = s.spare } };

    ghost invariant = { λ s. (vec_len s.rows + s.spare ≤ vec_capacity s.rows) × (s.slots ≡ slots_of s.rows.items) × IsKept s.rows.items s.keys };
}

impl Txns {
    /// None yet; takes no memory.
    pub fn new(alloc: Global) -> Txns
        ensures rows { result.rows ≡ [] }
        ensures spare { result.spare ≡ 0 }
    {
        Txns {
            alloc,
            rows: Vec::new(alloc),
            spare: 0,
            keys: Index::new(alloc),
            slots: 0,
        }
    }

    /// These, in rising numbers, with no slots for more.
    pub fn from_rows(alloc: Global, transactions: Rows<Transaction>) -> Result<Txns, AllocError>
        requires { Pairs (λ x y. x.number < y.number) transactions }
        ensures rows { IfOk result (λ t. t.rows ≡ map full transactions) }
        ensures transactions { IfOk result (λ t. transactions_of t.rows ≡ transactions) }
        ensures spare { IfOk result (λ t. t.spare ≡ 0) }
    {
        let keys = queued::index_of(alloc, transactions.as_slice())?;
        let rows = rows::rows_of(alloc, transactions)?;
        Ok(Txns {
            alloc,
            rows,
            spare: 0,
            keys,
            slots: 0,
        })
    }

    // ---- room

    /// How many slots are promised to further transactions.
    pub fn spare(&self) -> usize
        ensures { result ≡ self.now.spare }
    {
        self.spare
    }

    /// Promises at least so many slots to transactions; where memory is wanting, all stays.
    pub fn reserve(&mut self, count: usize) -> Result<(), AllocError>
        ensures rows { self.new.rows ≡ self.old.rows }
        ensures spare { OnOk result (self.new.spare ≡ max self.old.spare count) }
        ensures err { OnErr result (self.new.spare ≡ self.old.spare) }
    {
        self.rows.reserve(count)?;
        if self.spare < count {
            self.spare = count;
        }
        Ok(())
    }

    /// Promises at least so many slots to the operations of the transaction of this number; where
    /// memory is wanting, all stays.
    pub fn reserve_operations(&mut self, number: u64, count: usize) -> Result<(), AllocError>
        ensures rows { OnOk result (self.new.rows ≡ changed (has_txn number) (λ r. with_room count r ∷ []) self.old.rows) }
        ensures transactions { transactions_of self.new.rows ≡ transactions_of self.old.rows }
        ensures spare { self.new.spare ≡ self.old.spare }
        ensures err { OnErr result (self.new.rows ≡ self.old.rows) }
    {
        rows::reserve_row(
            &mut self.rows,
            &mut self.keys,
            &mut self.slots,
            number,
            count,
        )
    }

    /// Gives one slot back that was promised to transactions; where none is promised, nothing. Its
    /// memory stays, and serves the next promise.
    pub fn release(&mut self)
        ensures rows { self.new.rows ≡ self.old.rows }
        ensures spare { self.new.spare ≡ self.old.spare - 1 }
    {
        self.spare = self.spare.saturating_sub(1);
    }

    /// Gives one slot back that was promised to the operations of the transaction of this number;
    /// where none is promised, or there is no such transaction, nothing. Its memory stays, and
    /// serves the next promise.
    pub fn release_operation(&mut self, number: u64)
        ensures rows { self.new.rows ≡ changed (has_txn number) (λ r. with_less_room r ∷ []) self.old.rows }
        ensures transactions { transactions_of self.new.rows ≡ transactions_of self.old.rows }
        ensures spare { self.new.spare ≡ self.old.spare }
    {
        self.slots -= rows::release_row(&mut self.rows, &self.keys, number);
    }

    // ---- reading

    pub fn size(&self) -> usize
        ensures { result ≡ length self.now.rows }
    {
        self.rows.len()
    }

    pub fn as_slice(&self) -> &[OpenTransaction]
        ensures { result.now ≡ self.now.rows }
    {
        self.rows.as_slice()
    }

    /// The open transaction of this number.
    pub fn get(&self, number: u64) -> Option<&OpenTransaction>
        ensures row { option_map (λ r. r.now) result ≡ find (has_txn number) self.now.rows }
        ensures transaction { option_map (λ r. r.now.transaction) result ≡ find (is_transaction number) (transactions_of self.now.rows) }
    {
        rows::numbered(&self.rows, number)
    }

    /// The one in which a settlement of this lock is queued.
    pub fn pending(&self, lock: u64) -> Option<&OpenTransaction>
        ensures { option_map (λ r. r.now.transaction) result ≡ find (λ x. list_any (settles lock) x.operations) (transactions_of self.now.rows) }
    {
        rows::settling(&self.rows, &self.keys, lock)
    }

    // ---- changes

    /// Opens a transaction on an entity, with nothing queued, in a slot that was promised. Its
    /// number is above those of all that are open, its deadline in ms since 1970.
    pub fn begin(&mut self, number: u64, entity: u64, deadline: u64)
        requires room { 1 ≤ self.old.spare }
        requires rises { Each (λ r. r.transaction.number < number) self.old.rows }
        ensures rows { self.new.rows ≡ self.old.rows ++ record { transaction = begun number entity deadline; spare = 0 } ∷ [] }
        ensures transactions { transactions_of self.new.rows ≡ transactions_of self.old.rows ++ begun number entity deadline ∷ [] }
        ensures spare { self.new.spare ≡ self.old.spare - 1 }
    {
        let row = OpenTransaction::begin(self.alloc, number, entity, deadline);
        self.rows.push_reserved(row);
        self.spare -= 1;
    }

    /// Queues an operation in the transaction of this number, in a slot that was promised to it,
    /// and sets its deadline, in ms since 1970.
    pub fn queue(&mut self, number: u64, deadline: u64, operation: Operation)
        requires room { IfSome (find (has_txn number) self.old.rows) (λ r. 1 ≤ r.spare) }
        ensures rows { self.new.rows ≡ changed (has_txn number) (λ r. with_queued deadline operation r ∷ []) self.old.rows }
        ensures transactions { transactions_of self.new.rows ≡ changed (is_transaction number) (λ x. with_operation deadline operation x ∷ []) (transactions_of self.old.rows) }
        ensures spare { self.new.spare ≡ self.old.spare }
    {
        self.slots -= rows::queue_row(&mut self.rows, &mut self.keys, number, deadline, operation);
    }

    /// Takes the transaction of this number out, with its operations.
    pub fn drop_txn(&mut self, number: u64) -> Option<Transaction>
        ensures taken { result ≡ find (is_transaction number) (transactions_of self.old.rows) }
        ensures rows { self.new.rows ≡ changed (has_txn number) (λ r. []) self.old.rows }
        ensures transactions { transactions_of self.new.rows ≡ changed (is_transaction number) (λ x. []) (transactions_of self.old.rows) }
        ensures spare { self.new.spare ≡ self.old.spare }
    {
        let Some(row) = rows::take_row(&mut self.rows, &mut self.keys, number) else {
            return None;
        };
        self.slots -= row.spare();
        Some(row.into_transaction())
    }

    /// Takes out all that are on this entity.
    pub fn remove_of(&mut self, entity: u64)
        ensures rows { self.new.rows ≡ filter (λ r. is_elsewhere entity r.transaction) self.old.rows }
        ensures transactions { transactions_of self.new.rows ≡ filter (is_elsewhere entity) (transactions_of self.old.rows) }
        ensures spare { self.new.spare ≡ self.old.spare }
    {
        self.slots -= rows::remove_rows(&mut self.rows, &mut self.keys, entity);
    }
}
