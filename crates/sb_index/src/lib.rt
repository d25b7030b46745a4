//! Rows in rising keys, in a tree whose nodes are promised before they are needed.
//!
//! An [`Index`] stands on std alone: contracts see it as the list of its rows and a number of nodes
//! that are promised. What is looked for (the row of a key, the first that is marked, the first that
//! is due) is std's `find` on that list, and costs the logarithm of its length. To put a row in
//! takes a node that was promised, to take one out or to change one takes none, so none of these can
//! fail.
//!
//! [`hash_of`] makes a text a number, for rows that are found by a text.
//!
//! ```text
//! let mut index = Index::new(alloc);
//! index.reserve(1)?;                                   // a node is promised
//! index.insert(Row { key, value, marked, due });       // and taken: this can't fail
//! index.change(key, true, moment);                     // marked now, and due at this moment
//! let row = index.first_marked(0, u128::MAX);          // the first that is
//! let gone = index.remove(key);                        // its node goes back to the allocator
//! ```
#![tactic(auto)]

mod changing;
mod collecting;
mod hash;
mod index;
mod row;
mod searching;
mod tree;
mod turning;
mod wanted;
mod worked;

pub use hash::hash_of;
pub use index::Index;
pub use row::Row;
pub use worked::worked_rows;
