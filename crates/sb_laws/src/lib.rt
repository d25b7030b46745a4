//! Laws of the namespace machine, over all its states, calls and histories.
//!
//! It stands on the model alone and has no code: each law is a public function without effect
//! whose contract is one statement of `specs/Laws`. A crate above calls such a function where it
//! needs the law, as `nothing_due_after();`, and has the statement behind the call.
#![tactic(auto)]

mod consistent;
mod laws;
mod once;
mod worked;

pub use consistent::{histories_consistent, stays_consistent, ticks_consistent};
pub use laws::{
    act_in_turn, answers_legally, answers_no_fault, consistent_is_orderly, each_answered,
    gathers_as_read, goes_on, is_due_exactly, keeps_time, moves_change, nothing_due_after,
    orderly_is_sweepable, same_act_exactly, starts_consistent, stays_orderly, tick_as_found,
    ticks_orderly,
};
pub use once::{
    done_settles, ends_once, fronts_join, in_order, once_ids, once_numbers, one_holder, sent_notes,
    spent_lived, spent_once, thin_same, undecided_joins,
};
pub use worked::{worked_failures, worked_forgetting, worked_histories, worked_together};
