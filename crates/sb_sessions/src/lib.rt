//! The sessions that one part of an entity remembers: who holds each, and its state.
//!
//! [`Sessions`] stands on the model alone: contracts see it as the list of its sessions and a
//! number of slots that are promised. Each finder is the model's word on that list, and each change
//! is the case of the model's `leaf_after` that it carries out. To open a session takes a slot that
//! was promised before, and so can't fail.
//!
//! The list is in rising ids, as the model puts them, so a session is found by bisection. When the
//! first of their locks ends is kept as they change, so a tick looks at none of them.
//!
//! ```text
//! let mut sessions = Sessions::new(alloc);
//! sessions.reserve(1)?;                          // a slot is promised
//! sessions.open(id, lock, moment);               // and taken: this can't fail
//! sessions.write(lock, Some(bytes));             // its holder leaves a state
//! sessions.close(lock);                          // nobody holds it; its state stays
//! ```
#![tactic(auto)]

mod ends;
mod rows;
mod sessions;

pub use sessions::Sessions;
