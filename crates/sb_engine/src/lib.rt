//! A whole namespace in memory: what a call would do, the room for it, and doing it.
//!
//! It stands on `sb_entities`, which holds the entities. Each act is planned by one function of
//! `acts`, whose one clause is that what it came to is the act's row: a `Draft` of the reply and of
//! the changes that carry it out, or the row's refusal. Before it stand the tests of the call's
//! number and fields, behind it the test of the numbers that it gives, and what it asks of clients,
//! which are remembered beside the namespace; planning only reads. So [`Engine::plan`] gives what the
//! machine makes of a call, or its refusal. `reserve` takes all memory that the [`Plan`] needs, and
//! `commit` takes none and can't fail.
//!
//! Where something is due at a moment, a tick comes before the call: `plan_tick` finds all that is
//! due in the namespace as it is, and its plan is reserved and committed as each other.
//!
//! ```text
//! let plan = engine.plan(moment, &call)?;          // nothing is changed yet
//! if plan.is_changing() {
//!     engine.reserve(&plan)?;                      // where memory is wanting, all stays
//!     let answered = engine.commit(moment, plan);
//! }
//! ```
#![tactic(auto)]

mod acts;
mod deliver;
mod engine;
mod find;
mod plan;
mod summary;
mod time;

pub use deliver::arrivals::mark_of;
pub use engine::Engine;
pub use plan::Plan;
use plan::draft::Draft;
pub use summary::Summary;
