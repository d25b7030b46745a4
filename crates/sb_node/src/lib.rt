//! A namespace over its journal: each change is on the disk before it is answered.
//!
//! `Node` joins the engine, which plans, reserves and commits in memory, with the journal, in which each event
//! is staged between planning and committing (`ahead`). A step makes one call: where something is due at its moment,
//! time goes on first, as an event of its own, and then the call acts; its events are made safe by one sealing of the
//! journal before it is answered. So are those of several calls that are made one behind another (`grouping`): a crash
//! leaves all of them or none, and where the disk fails each is answered so. What a journal says is
//! carried out again (`replay`) as it is opened, from the state for which its base stands; `look` does that too,
//! tells the numbers, and does nothing to the disks. A checkpoint writes the state as the base of a new file on the
//! other disk, with which the journal goes on (`checkpointing`).
//!
//! It is a `Served`: as it was opened it stands for an empty history, and each group of calls adds its entries to
//! the one for which it stands. Whatever a crash leaves of its disks leads to the state after that
//! history, or, once a disk has failed, to the one with the events that the failed calls may have
//! left (`specs/Serving`). Where it is told to (`go_on_after`), its journal goes on with a new file by itself
//! before a group, once it has grown.
//!
//! ```text
//! let mut node = Node::open(alloc, disk_a, disk_b, salt)?;
//! let answer = node.step(1_700_000_000_000, &call); // safe on the disk, once it is answered
//! let turned = node.checkpoint()?; // what was before needn't be carried out again
//! let (disk_a, disk_b) = node.close();
//! ```
#![tactic(auto)]

mod ahead;
mod checkpointing;
mod counting;
mod grouping;
mod growth;
mod laws;
mod looking;
mod node;
mod recovering;
mod refusing;
mod replay;
mod serving;

pub use laws::{
    goes_on_by_groups, recovers_consistent, runs_together, worked_base, worked_journal,
    worked_spared,
};
pub use looking::look;
pub use node::Node;
pub use sb_engine::Summary;
