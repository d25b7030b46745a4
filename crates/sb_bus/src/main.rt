//! The program `bus`: a message broker over a journal in a folder.
//!
//! What it does is said of `top` (`sb_app`), over whatever threads, disks, streams, clock, doors and
//! link that is handed; `outside` makes the real ones, and calls it.
//!
//! ```text
//! $ mkdir -p data && ./bus run --data data < examples/first.script
//! {"ok":"done"}
//! {"numbers":[1,2],"ok":"sent"}
//! ```
#![tactic(auto)]

mod endings;
mod key;
mod looking;
mod outside;
mod watcher;

use std::process::ExitCode;

fn main(rt: HostRuntime) -> ExitCode {
    ExitCode::from(outside::status(&rt, &rt))
}
