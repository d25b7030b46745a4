//! The whole program over whatever it is handed: threads, disks, streams, a clock, doors, a link
//! and a watcher.
//!
//! A run cuts its input into script lines, has each answered by a namespace over its journal
//! (`sb_node`), and writes the reply line (`sb_lines`). A server has the requests of connections
//! answered by one namespace (`sb_server`, over a desk). A drill makes the calls that a seed draws
//! (`sb_drill`), and tells their counts. [`top`] does what its words name, and its one
//! contract says what a call does to all that it is handed (`IsCall` in `specs/Calls.antt`,
//! `IsNamedServer` in `specs/Servings.antt`); [`top_alone`] waits for nobody. The program `sb_bus` makes
//! the real disks, streams, clock, doors and link, and calls it.
//!
//! ```text
//! let words = ["run", "--data", "data"];
//! let (status, disk_a, disk_b) =
//!     top_alone(alloc, &words, disk_a, disk_b, salt, &clock, &mut input, &mut output, &mut link);
//! ```
#![tactic(auto)]

mod alone;
mod checking;
mod checkpointing;
mod client;
mod dispatch;
mod drilling;
mod ending;
mod final_line;
mod jump;
mod looking;
mod notices;
mod opening;
mod program;
mod running;
mod script_line;
mod serving;
mod task;
mod worked;

pub use notices::{NoWatcher, Notice, Watcher};
pub use program::{top, top_alone};
pub use worked::{worked_commits, worked_jumps};
