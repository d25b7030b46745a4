//! The grammar of SQL filters and actions (Microsoft Learn, Service Bus, "SQL filter syntax").
//!
//! Here is what the parser above is proved against, and no code that runs: the tokens, in
//! `specs/` the relations that say which tokens spell which tree, a function that reads tokens
//! and answers the tree or the place that fits nowhere, and as laws that the two agree. A
//! law is a public function with an empty body, whose contract is the statement.
#![tactic(auto)]

mod laws;

pub use laws::{reading_actions_is_exact, reading_filters_is_exact, worked_readings};
