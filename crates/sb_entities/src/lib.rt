//! The whole namespace in memory: its entities with what lies in them, and its open transactions.
//!
//! Contracts see a [`SpaceStore`] as the model's `Space`, by the words of `specs/Stores`. Its
//! finders are the model's words on that space, and it is the `Directory` that delivery reads. A
//! list of changes is carried out in two steps: `reserve` takes all memory that they need, or none
//! where it is wanting, and `carry_out` makes the space the model's `after_all` of them, takes no
//! memory, and so can't fail.
//! How many copies live and how many numbers were made, a space keeps as it changes: `live` and
//! `made` look at no entity. So is when something of each entity comes due, in an index: `due_by`
//! looks only at those that are due, and `least_due` at none. Who an address names, and what is
//! under a topic, it finds by two indexes of hashes, which cost the logarithm of what is there.
//! `from_space` makes one of a space that a state has, at once.
//!
//! ```text
//! let mut space = SpaceStore::new(alloc, salt);
//! space.reserve(&changes)?;                        // where memory is wanting, all stays
//! space.carry_out(moment, changes);                // this can't fail
//! if let Some(entity) = space.at(&path) {
//!     let first = entity.part(path.part).copies().first_ready();
//! }
//! ```
#![tactic(auto)]

mod asked;
mod carrying;
mod change;
mod directory;
mod dues;
mod entities;
mod entity;
mod finding;
mod hashes;
mod heads;
mod listing;
mod part;
mod place;
mod releasing;
mod reserving;
mod rows;
mod session_list;
mod shown;
mod slots;
mod space;
mod tally;
mod txn_list;
mod whole;

pub use entity::EntityStore;
pub use part::PartStore;
pub use space::SpaceStore;
