//! The numbers of a running server: what it has done, how long that took, and what it does now.
//!
//! A [`Board`] has them while the server runs; threads share it, and whoever does something tells it. What it shows of
//! them is [`Numbers`]. No clause says what they are: nothing that the namespace does depends on them.
//!
//! ```text
//! let board = Board::new(alloc)?;
//! board.opened();
//! board.called(Kind::Send, Outcome::Done, 240); // it took so many microseconds
//! board.ended();
//! let numbers = board.numbers(alloc, now_ms)?;
//! ```
#![tactic(auto)]

mod board;
mod kind;
mod numbers;
mod words;

pub use board::Board;
pub use kind::{Kind, Outcome};
pub use numbers::{Bucket, Counted, JournalSizes, Numbers};

/// The version of the program.
pub const VERSION: &str = "0.1.0";
