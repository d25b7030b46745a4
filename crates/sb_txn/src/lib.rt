//! The open transactions of a namespace, and what is queued in each.
//!
//! [`Txns`] stands on the model and on `sb_index`: contracts see it as the list of its transactions,
//! each with the number of slots that are promised to its operations, and the number of slots that
//! are promised to further transactions. Each finder is the model's word on the list of
//! transactions, and each change is the case of the model's `after` that it carries out. To begin a
//! transaction and to queue an operation take a slot that was promised before, and so can't fail.
//!
//! Numbers rise in the order of the list, so a transaction is found by bisection. The locks whose
//! settlements are queued stand in an [`Index`](sb_index::Index), by lock and then by number, so
//! that the first transaction that has one queued is found there; its nodes are promised with the
//! slots of the operations.
//!
//! ```text
//! let mut txns = Txns::new(alloc);
//! txns.reserve(1)?;
//! txns.begin(number, entity, deadline);              // this can't fail
//! txns.reserve_operations(number, 1)?;
//! txns.queue(number, deadline, operation);           // nor can this
//! let ended = txns.drop_txn(number);                 // with its operations, to be carried out
//! ```
#![tactic(auto)]

mod open;
mod queued;
mod rows;
mod txns;

pub use open::OpenTransaction;
pub use txns::Txns;
