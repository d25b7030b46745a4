//! Journal events as bytes: one spelling a value, read back exactly.
//!
//! What a journal record holds is one event: time went on, or a call acted. The crate stands on
//! `sb_model` and `sb_machine`. Its one contract: [`encode_event`] and [`write_event`] give the bytes
//! that `specs/EventBytes` says, and [`decode_event`] gives an event exactly where bytes spell one.
//!
//! A *form* (`specs/Forms`) says of one kind of values how they are spelled, how they are read,
//! which of them have a spelling and how long it is; a piece (`piece.rt`) is a form in code. Forms
//! are put together, and an act is one line: in `specs/Acts` and in the table of `acts.rt`. The pieces
//! are public, so that a crate above spells what else it keeps in the same way.
//!
//! ```text
//! let bytes = encode_event(alloc, &EventRef::Tick { moment: 9 })?; // 00, and 9 in 8 bytes
//! let event = decode_event(alloc, &bytes)?; // Some(Event::Tick { moment: 9 })
//! ```
#![tactic(auto)]

mod acts;
mod choices;
mod coded;
mod decode;
mod encode;
mod events;
mod fields;
mod groups;
mod laws;
mod lists;
mod messages;
mod piece;
mod pieces;
mod steps;
mod unread;
mod worked;

pub use acts::ActPiece;
pub use choices::HowPiece;
pub use decode::decode_event;
pub use encode::{encode_event, write_event};
pub use fields::{Blob, Number32, Number64, Opt, Truth, Words};
pub use groups::{Both, put_five, put_four, put_six, put_three, put_two};
pub use laws::{journaled_calls, one_spelling};
pub use lists::{Item, Listed, items_of, put_items};
pub use messages::{ConditionsPiece, MessagePiece};
pub use piece::Piece;
pub use pieces::{DescriptionPiece, PartPiece, PathPiece, TokenPiece};
pub use unread::Unread;
pub use worked::worked_bytes;
