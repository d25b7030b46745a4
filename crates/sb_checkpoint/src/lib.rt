//! The base of a namespace's state, written out of the stores that hold it.
//!
//! A journal's file begins with a state in bytes, as `sb_snapshot` spells it. This crate stands on the stores of
//! `sb_entities` and `sb_repeats`, and makes no copy of what they hold: [`write_base`] hands the bytes on an item
//! after another, to whoever takes them ([`Pieces`]), and [`base_length`] says how many there will be, which stands
//! in the file before them. Both walk the same way, so the second is the first with bytes that are counted alone.
//!
//! ```text
//! let held = Held { moment, clients: &clients, space: &space };
//! let length = base_length(alloc, &held)?;   // Some(n): so many bytes
//! write_base(alloc, &held, &mut out)?;       // and `out` has them behind what it had
//! ```
#![tactic(auto)]

mod base;
mod clients;
mod counting;
mod heads;
mod held;
mod items;
mod leaves;
mod pieces;
mod sessions;
mod transactions;

pub use base::{base_length, write_base};
pub use held::Held;
pub use pieces::{Pieces, Unput};
