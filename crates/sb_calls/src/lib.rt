//! Whole calls of the program over disks, streams and doors in memory, and nodes over such disks, as the tests of the
//! crates above make them: what a call is made over is made here and lent to it, and what it leaves comes back.
//!
//! ```text
//! let mut output = sink_of(alloc, 4096, &[])?;
//! let (status, disk) = ran(alloc, &["run", "--data", "."], (&ONE_EVENT, &[]), script, &mut output)?;
//! let left = bytes_of(alloc, disk)?;
//! ```
#![tactic(auto)]

mod calls;
mod fault;
mod journals;
mod nodes;
mod serving;

pub use calls::{
    bytes_of, called, called_alone, called_in, called_over, connection_of, disks_of, doors_of, ran,
    ran_on_both, ran_over, sink_of, source_of,
};
pub use fault::CallFault;
pub use journals::{ONE_EVENT, SALT};
pub use nodes::{closed, found_behind, found_in, node_over};
pub use serving::{Ended, SERVE, door_of, is_answered, lone_door, served, served_in, served_to};
