//! Messages, texts and the filter language as data.
//!
//! Here are the values that all layers pass and, in `specs/`, the definitions: what a text of the
//! filter language is read as, and what a filter or an action comes to on a message. Contracts see
//! each list type as a list, so the same records serve code and definitions. The laws are public
//! functions with an empty body: each carries a statement over all filters, actions and messages.
#![tactic(auto)]

mod body;
mod effects;
mod evaluation;
mod expression;
mod laws;
mod likes;
mod message;
mod rows;
mod text;
mod token;
mod truth;
mod worked;

pub use body::Body;
pub use effects::effect_rows;
pub use evaluation::EvalFault;
pub use expression::{
    Action, BinaryOperator, Expression, Filter, Items, PropertyName, Statement, UnaryOperator,
};
pub use laws::{actions_keep_messages, filters_fail_only_so};
pub use likes::like_rows;
pub use message::{Message, Name, Property, PropertyValue, SystemName, SystemText, is_same_word};
pub use rows::Rows;
pub use text::Text;
pub use token::{Kind, Role};
pub use truth::Truth;
pub use worked::worked_filters;
