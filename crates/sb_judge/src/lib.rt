//! Whether a state of the namespace is consistent.
//!
//! A base that is read from a file may spell any state; a namespace goes on only from one that calls
//! could have led to. [`judge`] tells them apart: it answers true exactly where `IsConsistent` of
//! `sb_machine` holds. The crate stands on `sb_machine`, on the limits of `sb_names`, and on
//! `sb_sqltext`, which reads the filters and actions of calls that are remembered.
//!
//! `specs/Decided` is the same as a definition, by tests that carry the proof of what they test
//! (`specs/Verdicts`). Nothing that is judged costs the square of how much there is: lists in order are
//! judged by neighbours, what must differ is sorted, and addresses are found by a hash.
//!
//! ```text
//! if judge(alloc, &state)? {
//!     // the namespace may go on from it
//! }
//! ```
#![tactic(auto)]

mod calls;
mod clients;
mod copies;
mod entities;
mod held;
mod ids;
mod locks;
mod messages;
mod places;
mod rules;
mod sorted;
mod transactions;
mod whole;
mod worked;

pub use whole::judge;
pub use worked::worked_states;
