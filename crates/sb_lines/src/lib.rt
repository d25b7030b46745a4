//! Script lines of all acts: from the text of a line to a call, and from an answer to the line of a reply.
//!
//! Each line is one JSON object and asks for one act; each reply is one compact JSON object with
//! its keys in byte order, and a line feed. `specs/Lines` says which call a text spells and, where
//! it spells none, which key is the first at fault; `specs/Replies` says which bytes answer. Each
//! of the two functions gives exactly that, or want of memory. What requests of HTTP spell alike is
//! public, too: tokens, system texts, times to live, properties, refusals.
//!
//! It stands on `sb_machine`, on `sb_names` for addresses, on `sb_sqleval` for setting a property, on
//! `sb_amqp` for messages in the bytes of AMQP, and on the kit's `serde_json`, `hex` and `uuid`.
//!
//! ```rust
//! let line = "{\"do\":\"peek\",\"from\":\"orders\",\"start\":1,\"count\":10}";
//! let Line { timed, form, .. } = read_line(alloc, line)?;
//! let text = reply_line(alloc, form, &Ok(Answered::New(Reply::Done)))?;
//! assert_eq!(rt; text.as_str(), "{\"ok\":\"done\"}\n");
//! ```
#![tactic(auto)]

mod acts;
mod compact;
mod descriptions;
mod fault;
mod fields;
mod form;
mod in_line;
mod keys;
mod laws;
mod line;
mod looks;
mod members;
mod messages;
mod properties;
mod refusals;
mod replies;
mod reply;
mod settlements;
mod shown;
mod steps;
mod table;
mod texts;
mod token;
mod views;
mod worked;

pub use fault::{KeyFault, LineFault, bad, refusal_of};
pub use form::Form;
pub use laws::each_is_one_line;
pub use line::{Line, read_line};
pub use properties::{property_value, put_property};
pub use refusals::refusal_value;
pub use reply::{disk_fault_line, out_of_memory_line, reply_line, reply_text};
pub use shown::{message_text, property_data};
pub use steps::together_of;
pub use texts::{Nulls, broker_texts, lifetime_at};
pub use token::{token_of, token_text};
pub use worked::{worked_clients, worked_looks, worked_together, worked_views, worked_waits};
