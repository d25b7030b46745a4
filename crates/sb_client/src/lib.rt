//! The client: asks a server over HTTP for what script lines ask for.
//!
//! `run_script` takes the lines of a source. Each that isn't blank goes over a link as the request
//! `POST /$script` (`specs/Requests`), and the reply line of its response goes to a sink. What is taken as a response with
//! a reply line stands in `specs/Replies`, how one line is answered in `specs/Answers`, and how a run goes, by each of its
//! endings, in `specs/Runs`.
#![tactic(auto)]

mod asking;
mod ending;
mod reply;
mod request;
mod running;
mod worked;

pub use ending::ClientEnding;
pub use request::request_of;
pub use running::run_script;
pub use worked::worked_replies;
