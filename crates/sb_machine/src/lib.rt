//! The namespace machine: what each of its 25 acts is answered in each state, what it changes, what
//! falls due as time goes on, and which histories are legal.
//!
//! Here are the types that all layers above pass (calls, replies, refusals, the state, changes,
//! entries of a history) and, in `specs/`, the definitions, over lists. An act answers a reply and a
//! list of [`Change`]s, and the state after it is the fold of these changes, each of which takes the
//! numbers that it gives from the state as it finds it (`specs/Changes`). So a plan of the same
//! changes carries an act out. It stands on `sb_model`, which has messages, texts and the filter
//! language; contracts see each list type as a list, so the same records serve code and definitions.
//!
//! ```text
//! let mut plan = Changes::new(alloc);        // takes no memory, nor does the first change
//! plan.push(Change::Drops { txn: 7 })?;      // the state after it is `after t (Drops 7) s.space`
//! ```
#![tactic(auto)]

mod call;
mod change;
mod changes;
mod copies;
mod directory;
mod history;
mod look;
mod lookups;
mod parts;
mod reason;
mod reply;
mod rule;
mod state;

pub use call::{
    Act, By, Call, Description, Event, EventRef, FilterText, How, Mode, Part, Path, Step,
    TimedCall, Token, Which,
};
pub use change::{Cause, Change, Fresh, LeafChange, LeafKey};
pub use changes::Changes;
pub use directory::Directory;
pub use history::Entry;
pub use look::{
    ClientShown, Described, EntityShown, Look, PartShown, RuleShown, SessionShown,
    TransactionShown, View,
};
pub use lookups::{has_text_of, is_living_holder, text_of};
pub use parts::{at_part, at_part_or_whole};
pub use reason::DeadReason;
pub use reply::{
    Answer, Answered, CopyShown, CopyState, PartRefusal, Receipt, Refusal, Reply, Showing,
    StepReply,
};
pub use rule::{Condition, Conditions, Effect, Outcome, Rule, RuleFilter};
pub use state::{
    AcceptedId, Entity, EntityKind, Hold, Holder, Kept, Leaf, Listed, Operation, Session, Space,
    Standing, State, StoredCopy, Transaction,
};
