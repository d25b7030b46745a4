//! A whole state of the namespace as bytes: one spelling a state, read back exactly.
//!
//! The bytes are the base of a journal's file, behind which its records stand. They say all that a
//! state holds but for the namespace's salt, which the file's head has. The crate stands on
//! `sb_machine`, whose states these are, and on `sb_codec`, whose forms of messages, acts and
//! descriptions stand here too.
//!
//! [`one_base`] says that a state that has a spelling (`specs/Base`) has one of its own, which begins
//! no other, and that bytes are read as a state exactly where they spell it. What a base lists has a
//! piece of each kind, with a writer and a reader; [`put_leaf_head`], [`put_session`] and
//! [`put_transaction_head`] write from what a store holds, in the place of a whole value.
//!
//! [`read_state`] reads a whole base. It doesn't judge whether the state is consistent.
//!
//! ```text
//! CopyPiece::put(&copy, &mut out)?;               // its bytes stand behind those of `out`
//! let (copy, rest) = CopyPiece::take(alloc, bytes)?; // the copy at the front, and what is behind it
//! let state = read_state(alloc, salt, &bytes)?;    // Some(state) where all bytes spell one
//! ```
#![tactic(auto)]

mod clients;
mod coded;
mod copies;
mod counted;
mod entities;
mod gathering;
mod laws;
mod leaves;
mod parts;
mod reading;
mod replies;
mod rules;
mod sessions;
mod shown;
mod step_replies;
mod texts;
mod transactions;
mod worked;

pub use clients::KeptPiece;
pub use copies::CopyPiece;
pub use entities::{AboutPiece, AcceptedPiece, HeadPiece};
pub use laws::{consistent_is_written, one_base};
pub use leaves::{LeafPiece, put_leaf_head};
pub use parts::{EntityHead, Parts, PlacedLeaf, PlacedSession};
pub use reading::read_state;
pub use rules::RulePiece;
pub use sessions::{KeyPiece, SessionPiece, put_session};
pub use transactions::{OperationPiece, TransactionPiece, put_transaction_head};
pub use worked::worked_bases;
