//! Which path names which messages of a queue, or which session of it, as the REST interface of Service Bus
//! has its paths (Microsoft Learn, Service Bus REST API reference, "Service Bus runtime REST"); those of
//! sessions are added to it, and those that an operator asks for.
//!
//! `specs/Routes` has the table: a row for each route, with what it names. A path is looked up by the
//! kit's `matchit` with its ASCII letters folded and `%24` read as `$`; what its segments stand for is
//! taken from the path as it was sent, so `segment` counts the slashes there. It stands on `sb_machine`
//! for the parts of a queue.
//!
//! ```rust
//! let routes = Routes::new(alloc)?;
//! let route = routes.of(alloc, b"/Orders/messages/head")?;
//! assert_eq!(rt; route, Some(Route::Head(Address::Entity(Part::Main))));
//! assert_eq!(rt; segment(b"/Orders/messages/head", 1), b"Orders");
//! ```
#![tactic(auto)]

mod path;
mod routes;
mod worked;

pub use path::{cut, segment, text_of};
pub use routes::{Address, Route, Routes};
pub use worked::worked_routes;
