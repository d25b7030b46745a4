// One open transaction, with room for its operations.
ghost use Rattle.std.specs.Prelude.{◌≡◌, ◌+◌, ◌≤◌, OnOk, OnErr};
ghost use Rattle.sb_txn.specs.Txns.{Opened, begun, full, with_less_room, with_queued, with_room};

use sb_machine::{Operation, Transaction};
use sb_model::Rows;
use std::alloc::{AllocError, Global};
use std::marker::Model;

/// An open transaction.
#[derive(Drop)]
pub struct OpenTransaction {
    number: u64,
    entity: u64,
    deadline: u64,
    operations: Vec<Operation>,
    spare: usize,
}

impl Model for OpenTransaction {
    ghost use Rattle.std.specs.Prelude.{◌+◌, ◌≤◌, vec_len, vec_capacity};
    ghost use Rattle.sb_txn.specs.Txns.{Opened};

    ghost Value = { Opened };

    ghost view = { λ s. record { transaction = record { number = s.number; entity = s.entity; deadline = s.deadline; operations = s.operations.items }; spare = s.spare } };

    ghost invariant = { λ s. vec_len s.operations + s.spare ≤ vec_capacity s.operations };
}

impl OpenTransaction {
    /// From 1, never reused.
    pub fn number(&self) -> u64
        ensures { result ≡ self.now.transaction.number }
    {
        self.number
    }

    /// The number of the entity that it is on.
    pub fn entity(&self) -> u64
        ensures { result ≡ self.now.transaction.entity }
    {
        self.entity
    }

    /// When it is dropped, in ms since 1970.
    pub fn deadline(&self) -> u64
        ensures { result ≡ self.now.transaction.deadline }
    {
        self.deadline
    }

    /// What is queued in it, in order.
    pub fn operations(&self) -> &[Operation]
        ensures { result.now ≡ self.now.transaction.operations }
    {
        self.operations.as_slice()
    }

    /// How many slots are promised to further operations.
    pub fn spare(&self) -> usize
        ensures { result ≡ self.now.spare }
    {
        self.spare
    }

    // ---- within this crate

    pub(crate) fn begin(alloc: Global, number: u64, entity: u64, deadline: u64) -> OpenTransaction
        ensures transaction { result.transaction ≡ begun number entity deadline }
        ensures spare { result.spare ≡ 0 }
    {
        OpenTransaction {
            number,
            entity,
            deadline,
            operations: Vec::new(alloc),
            spare: 0,
        }
    }

    // With the list of its operations as it is.
    pub(crate) fn of(transaction: Transaction) -> OpenTransaction
        ensures { result ≡ full transaction }
    {
        OpenTransaction {
            number: transaction.number,
            entity: transaction.entity,
            deadline: transaction.deadline,
            operations: transaction.operations.into_vec(),
            spare: 0,
        }
    }

    pub(crate) fn reserve(&mut self, count: usize) -> Result<(), AllocError>
        ensures ok { OnOk result (self.new ≡ with_room count self.old) }
        ensures err { OnErr result (self.new ≡ self.old) }
    {
        self.operations.reserve(count)?;
        if self.spare < count {
            self.spare = count;
        }
        Ok(())
    }

    // Answers how many slots that gives back: one, or none where none is promised.
    pub(crate) fn release(&mut self) -> usize
        ensures row { self.new ≡ with_less_room self.old }
        ensures slots { self.new.spare + result ≡ self.old.spare }
    {
        if self.spare == 0 {
            return 0;
        }
        self.spare -= 1;
        1
    }

    pub(crate) fn queue(&mut self, deadline: u64, operation: Operation)
        requires { 1 ≤ self.old.spare }
        ensures { self.new ≡ with_queued deadline operation self.old }
    {
        self.deadline = deadline;
        self.operations.push_reserved(operation);
        self.spare -= 1;
    }

    pub(crate) fn into_transaction(self) -> Transaction
        ensures { result ≡ self.transaction }
    {
        Transaction {
            number: self.number,
            entity: self.entity,
            deadline: self.deadline,
            operations: Rows::from_vec(self.operations),
        }
    }
}
