//! Messages in the bytes of AMQP 1.0 (OASIS AMQP 1.0, part 3, section 3.2), read and written.
//!
//! Systems around the broker keep and exchange messages as the sections of that format. The crate
//! stands on `sb_model` alone. [`read_message`] gives a message exactly where the grammar of
//! `specs/Values` and `specs/Sections` spells one, and else the fault with its place (`specs/Reads`), which
//! is what `specs/Found` computes; [`write_message`] gives the one spelling of `specs/Written`. The bytes are gone over twice: are
//! they sections in their order (`order.rt`), and what do those say that are used (`read.rt`).
//!
//! ```text
//! let message = read_message(alloc, &bytes)?; // 005370c00803404070000005dc005375a0026869: `hi`, 2 s to live
//! let bytes = write_message(alloc, &message)?;
//! ```
#![tactic(auto)]

mod draft;
mod fault;
mod fields;
mod gathered;
mod items;
mod laws;
mod numbers;
mod order;
mod properties;
mod put;
mod read;
mod taken;
mod texts;
mod unread;
mod values;
mod worked;
mod write;

pub use fault::AmqpFault;
pub use gathered::Gathered;
pub use laws::written_is_read;
pub use read::read_message;
pub use worked::worked_messages;
pub use write::{write_message, write_scheduled};
