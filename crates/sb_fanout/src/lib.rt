//! How a message is delivered: through topics, subscriptions and forwards, at most four of them.
//!
//! It stands on `sb_rules`, which finds the copies that a subscription takes, and on any
//! `Directory`, by which it reads the entities of a namespace. Its one contract: `deliver`,
//! `hand_on` and `bury` add to a plan exactly the changes that delivery is in the namespace that
//! the directory stands for, and `Lasts` goes on to stand for the numbers given.
//!
//! ```text
//! let mut lasts = Lasts::new(alloc);
//! let mut changes = Changes::new(alloc);
//! for message in messages {
//!     deliver(alloc, &namespace, &mut lasts, &mut changes, topic, message)?;
//! }
//! ```
#![tactic(auto)]

mod course;
mod delivery;
mod lasts;
mod laws;
mod messages;
mod tally;
mod worked;

pub use delivery::{bury, deliver, hand_on};
pub use lasts::Lasts;
pub use laws::{hops_stay_within, numbers_stand, visits_are_there, visits_count};
pub use messages::{cut_to, description_text, for_reason, has_session, reason_text, with_reason};
pub use worked::{delivery_rows, selection_rows, visit_rows};
