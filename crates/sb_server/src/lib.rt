//! Connections of HTTP over one history: what a broker does between its sockets and its desk.
//!
//! [`serve_connection`] takes the requests of one connection, makes their calls at one pass of a desk,
//! and writes their responses, until it ends; `specs/Talks` says what was written and why it ended.
//! [`serve`] gives each door a worker, which serves its connections one after the other. The workers of a thread post
//! their calls at the desk; once none of them may go on without an answer, they collect all that were posted, which
//! the desk carries out together. So the calls of many connections share one sync.
//! [`receive_waiting`] is a call that waits: a receive, or the accept of a session. It stands on `sb_desk` for calls,
//! `sb_http` for the bytes of requests and responses, `sb_rest` and `sb_lines` for what they ask for,
//! and `sb_outside` for connections and the clock. A connection whose other side is slower than its
//! [`Limits`] is ended; nothing is said of how long a worker waits. Connections, calls and what waits are counted
//! on the desk's board (`sb_numbers`), whose numbers the responses show that are asked for them; nothing is said of
//! these either.
//!
//! ```text
//! let routes = Routes::new(alloc)?;
//! let access = Access::unlocked(alloc);
//! let limits = Limits { request_ms: 60_000, idle_ms: 600_000 };
//! let (pass, ending) =
//!     serve_connection(&rt, alloc, &routes, &access, limits, &desk, pass, &clock, &mut conn);
//! ```
#![tactic(auto)]

mod answer;
mod arrivals;
mod ask;
mod body;
mod caller;
mod came;
mod connection;
mod counting;
mod doing;
mod doors;
mod ending;
mod head;
mod inbox;
mod job;
mod laws;
mod limits;
mod lines;
mod patience;
mod pending;
mod reader;
mod script;
mod seat;
mod stage;
mod step;
mod telling;
mod waiting;
mod work;
mod worked;

pub use connection::serve_connection;
pub use doors::serve;
pub use ending::{Ending, ServeEnding};
pub use laws::{lines_are_the_body, unwelcome_makes_no_entry};
pub use limits::Limits;
pub use waiting::receive_waiting;
pub use work::{Stop, serve_door};
pub use worked::{worked_bodies, worked_connections};
