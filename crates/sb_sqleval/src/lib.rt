//! What a filter comes to on a message, and what an action makes of it (Microsoft Learn, Service Bus,
//! "Subscription rule SQL filter syntax" and "SQL action syntax").
//!
//! A filter is a tree; its value is found by going down the tree, left before right, and all parts
//! are evaluated. A comparison with what isn't there is unknown, and a filter matches only where
//! it is true. An action's statements change the message one after another. Both functions give what
//! the definitions of `sb_model` say, or want of memory.
//!
//! ```rust
//! let filter = parse_filter(alloc, "size > 3 OR color = 'red'")?;
//! let truth = eval(alloc, &filter, &message)?;
//! let action = parse_action(alloc, "SET size = size + 1; REMOVE color")?;
//! let changed = run_action(alloc, &action, message)?;
//! ```
#![tactic(auto)]

mod action;
mod changes;
mod compare;
mod evaluate;
mod likes;
mod numbers;
mod operators;
mod properties;
mod property;
mod sizes;
mod steps;
mod value;

pub use action::run_action;
pub use evaluate::eval;
pub use likes::like;
pub use property::with_property;
pub use steps::Steps;
use value::{Evaluated, Value};
