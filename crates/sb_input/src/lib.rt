//! Lines out of a source, in whatever pieces it comes.
//!
//! A line ends at its line feed or at the source's end. Of one that is longer than `MAX_LINE` it is kept alone whether it
//! is blank. Which lines a text has is a function (`specs/Lines`); `Reader::next_line` reads the next of them, and says
//! what was taken of the source however it ends.
#![tactic(auto)]

mod limits;
mod partial_line;
mod reader;

pub use limits::{MAX_INPUT, MAX_LINE, MAX_PIECE};
pub use partial_line::{PartialLine, is_blank_line};
pub use reader::{ReadEnd, Reader};
