//! One namespace that many seats use in turn, and one history of it that all of them share.
//!
//! A [`Desk`] holds a value that answers calls, anything that is [`Served`], and deals out passes to
//! it; a [`Pass`] is a seat, from which calls are made one after the other, on whatever thread. A call is
//! posted at a pass, which is away as a [`Posted`] until its answer is collected. Calls that wait together are
//! carried out as one group and made safe at once: who collects first carries out all that wait, and the others
//! find their answers. Nothing is said of who that is, nor which calls are together.
//!
//! Contracts see a pass as the entries that it has seen. Each call gives a longer list, which begins
//! with the old one, is a legal history of the state in which the desk began, and ends with this
//! call and the answer that was handed out (`Calls` in `specs/Desks`). `close` gives the value back
//! with one history that all these lists begin and in which nobody else has an entry. A call that the
//! value spares is in none of them answered with want of memory (`specs/Spared`). It stands on
//! the machine, whose `specs/History` says which histories are legal, and on the kit's
//! `atomic_table`: one slot for the value and the posts beside it, and three words by which seats take turns,
//! under a rule that each step keeps (`specs/Rule`); beside it words on which seats sleep, of which who leaves rings
//! the one of the next ticket. Nothing is said of who comes first, nor that anybody is
//! served. A group also tells, as hints, for which entities something came and when the next thing comes
//! due; whoever waits for a message may ask the desk for that. What its calls and connections come to in numbers
//! stands on its board, for who looks after them.
//!
//! ```text
//! let (desk, passes) = Desk::new(alloc, namespace, 8)?;
//! let (pass, call, answer) = desk.call(&rt, pass, reading, call);   // waits for its turn
//! let posted = desk.post(&rt, pass, reading, call);                 // leaves the call with the desk
//! let (pass, call, answer) = desk.collect(&rt, posted);             // its answer, once it is safe
//! let (one, other) = desk.tell(one, other);                         // both have seen the longer list
//! let (namespace, report) = desk.close(passes)?;                    // all eight passes are given back
//! ```
#![tactic(auto)]

mod arrivals;
mod bells;
mod beside;
mod closing;
mod desk;
mod groups;
mod notes;
mod opening;
mod pass;
mod plays;
mod post;
mod posted;
mod report;
mod served;
mod turns;
mod view;

pub use desk::{CloseFault, Desk, NewFault};
pub use pass::Pass;
pub use post::{Post, Went};
pub use posted::Posted;
pub use report::{DiskMoment, DiskOrigin, Origin, Report};
pub use served::{Served, Stepped};
