//! What the words that the program is called with ask for.
//!
//! It stands on `clap`, whose command line is a definition, and so are the faults and the matches that it
//! has for words (`specs/Words`): words are a form where there is no fault, and what is found for the
//! options of a command is in range. `read_form` gives the form, `asked_text` the help or the version,
//! which are no form, and `fault_text` says what is wrong with words. Words are `BadWords` only where they are no form. A port is read as `sb_http` reads
//! a length.
//!
//! ```rust
//! let words = ["serve", "--data", "data", "--port=8080"];
//! let form = read_form(alloc, &words)?;
//! assert_eq!(rt; form.command, Command::Serve);
//! assert_eq!(rt; (form.folder, form.port, form.workers), ("data", 8080, 4));
//! ```
#![tactic(auto)]

mod command;
mod command_line;
mod faults;
pub mod laws;
mod words;

pub use command::{Command, Form, WordsFault};
pub use faults::fault_text;
pub use words::{asked_text, read_form};
