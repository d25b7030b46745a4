//! SQL filters and actions from text to tree (Microsoft Learn, Service Bus, "SQL filter syntax").
//!
//! `parse_filter` and `parse_action` give the tree that the grammar spells, or the exact place of
//! the fault. A text is cut into tokens (`sb_sqltokens`), which a parser reads by recursive descent: one
//! function for each production of the grammar (`sb_sqlgrammar`), with the nesting as its only recursion.
//!
//! ```rust
//! let filter = parse_filter(alloc, "color = 'red' AND size > 3")?;
//! let action = parse_action(alloc, "SET size = size + 1; REMOVE color")?;
//! assert!(rt; parse_filter(alloc, "color = AND").err() == Some(ParseFault::At(7)));
//! ```
#![tactic(auto)]

mod actions;
mod expressions;
mod laws;
mod missed;
mod names;
mod parsing;
mod steps;
mod texts;
mod worked;

pub use laws::texts_are_read_exactly;
use missed::Missed;
pub use parsing::{MAX_CHARACTERS, MAX_DEPTH, parse_action, parse_filter};
pub use texts::ParseFault;
pub use worked::worked_texts;
