//! Which copies a subscription takes of a message.
//!
//! It stands on `sb_sqleval`, which evaluates filters and carries actions out. Rules stand in order
//! of name. All true rules without action give one copy, each true rule with an action gives one of
//! its own; a rule that fails decides for all. Its one contract: `copies` answers what the
//! definitions of `sb_machine` select (`selected`), or memory was wanting.
//!
//! ```text
//! match copies(alloc, subscription, &message)? {
//!     Outcome::Copies(messages) => ..,
//!     Outcome::Dead => ..,
//!     Outcome::Dropped => ..,
//! }
//! ```
#![tactic(auto)]

mod conditions;
mod taken;

pub use taken::copies;
