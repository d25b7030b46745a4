//! Names of entities and rules, addresses, what a description may hold, and the limits of calls.
//!
//! A name is made of small letters, digits, `.`, `-` and `_`; an address is a name, or a
//! subscription's under its topic, and may name a part of the entity. Texts are folded to ASCII lower
//! case as they are read; a [`Name`](sb_model::Name) that wasn't read from text may be anything, and is
//! judged here. It stands on `sb_machine`, whose `specs/Names` and `specs/Descriptions` say
//! what a good name and a good description are. `specs/Fields` and `specs/Messages` there say which
//! fields and sizes of a call are out of their ranges: `bad_field` and `large_size` find the first,
//! and `large_steps` that of operations that act together (`specs/Together`).
//!
//! ```text
//! let path = read_address(alloc, "Orders/Subscriptions/Lamps/$DeadLetterQueue")?;
//! // the dead-letter queue of subscription `lamps` of topic `orders`
//! if !is_address(&path) { /* BadName */ }
//! ```
#![tactic(auto)]

mod address;
mod description;
mod fields;
pub mod limits;
mod name;
mod ranges;
mod settlement;
mod sizes;
mod steps;
mod worked;

pub use address::{is_address, is_main, is_same_entity, read_address};
pub use description::check_desc;
pub use fields::{
    bad_field, bad_in_how, bad_in_messages, bad_in_texts, bad_part, forgets_itself, takes_number,
};
pub use name::{BadName, NameKind, check_name, fold_name, is_name, is_rule_name, is_short_name};
pub use ranges::{is_between, is_between_or_none, is_client_name, is_id, is_number};
pub use settlement::goes_with;
pub use sizes::{
    conditions_size, large_size, properties_size, property_bytes, property_size, texts_size,
    value_size,
};
pub use steps::{are_addressed, are_few, large_steps, unaddressed};
pub use worked::worked_addresses;
