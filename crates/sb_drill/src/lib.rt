//! The calls of a drill: what a seed asks of a namespace, call by call.
//!
//! A drill tries a namespace with calls that nobody wrote. The first five set it up: two queues, a topic,
//! a subscription and its rule. What each later one is, a word says that the kit's generator PCG32 gives
//! for a seed: a send, a receive, a settlement, or that a session is accepted. Two of them use what was
//! answered before, the message last received under a lock and the session last accepted, which a
//! [`Memory`] keeps. So the same seed over the same namespace asks the same. `specs/Calls` has each call;
//! `sb_app` has a namespace answer them.
//!
//! ```text
//! let mut memory = Memory::nothing();
//! for n in 0..calls_for(count) {
//!     let asked = call_at(alloc, seed, n, memory)?;
//!     let answer = node.step(asked.reading, &asked.call);
//!     memory = heard(seed, n, memory, &answer);
//! }
//! ```
#![tactic(auto)]

mod acts;
mod calls;
mod choice;
mod drawing;
mod memory;
mod messages;
mod setup;
mod worked;

pub use calls::{call_at, calls_for};
pub use choice::Choice;
pub use memory::{Memory, Received, heard};
pub use worked::worked_words;
