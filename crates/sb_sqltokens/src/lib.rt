//! The tokens of SQL filters and actions (Microsoft Learn, Service Bus, "SQL filter syntax"):
//! at each place the longest, with the place in bytes at which it ends.
#![tactic(auto)]

mod bytes;
mod laws;
mod numbers;
mod quotes;
mod symbols;
mod tokens;
mod words;

pub use laws::tokens_are_longest;
pub use tokens::{Tokens, tokens_of};
