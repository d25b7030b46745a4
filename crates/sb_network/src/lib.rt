//! The real doors of a server: connections that are watched, many in one thread.
//!
//! A hall is one thread's. It has the seats of that thread's workers and one wait for all of them, in
//! which the system says who may go on. What the system does is trusted: nothing is told of content, and
//! no clause says when a worker is woken.
#![tactic(auto)]

mod arrivals;
mod caller;
mod entrance;
mod files;
mod hall;
mod halls;
mod place;
mod queue;
mod rounds;
mod seat;
mod span;

pub use caller::Caller;
pub use files::{files_allowed, limit_in, places_within};
pub use halls::{Halls, open_halls};
pub use place::Place;
pub use queue::Queue;
