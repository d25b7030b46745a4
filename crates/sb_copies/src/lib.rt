//! The copies that one part of an entity holds.
//!
//! A [`Shelf`] stands on the model and on `sb_index`: contracts see it as the list of its copies
//! and a number of slots that are promised. Each finder is the model's word on that list, and each
//! change is the case of the model's `leaf_after` that it carries out. Numbers rise, since a copy
//! that is added has one above all others. The copies stand in the slots of a slab, and an index by
//! number leads to each: so it is found, and taken out, without a look at those before it, and no
//! other is moved. What adds a copy or has one held takes a slot that was promised before, and so
//! can't fail. The copies that are held under a lock are found by that, without a look at any other;
//! so are those that are held under a session's lock, and those whose lock has ended.
//!
//! ```text
//! let mut shelf = Shelf::new(alloc, true);               // copies expire there
//! shelf.reserve(1)?;                                   // a slot is promised
//! shelf.push(copy);                                    // and taken: this can't fail
//! shelf.reserve_locks(1)?;                             // so is one for holding
//! if let Some(first) = shelf.first_ready() {
//!     let number = first.number;
//!     shelf.hold(number, lock, Hold::Until(moment));   // it is handed out
//! }
//! let ended = shelf.take(number);                      // it is settled, and goes
//! ```
#![tactic(auto)]

mod dues;
mod groups;
mod heads;
mod locks;
mod looks;
mod names;
mod numbers;
mod places;
mod rows;
mod searches;
mod session_locks;
mod sessions;
mod shelf;
mod standings;
mod tally;

pub use dues::{expiry, hold_deadline, standing_due};
pub use shelf::Shelf;
pub use standings::{
    has_come, has_ended, is_deferred, is_living, is_over, is_ready, is_scheduled, is_under_session,
    is_until, lasts, was_deferred,
};
