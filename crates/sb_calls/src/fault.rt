// Why a call of a test has no outcome.
use std::alloc::AllocError;

/// Why there is no outcome.
#[derive(Debug, Drop)]
pub enum CallFault {
    OutOfMemory,
    /// The call didn't leave disk b as empty as it was.
    WrittenB,
    /// The call kept its disks.
    NoDisks,
    /// A node wasn't opened.
    Unopened,
}

impl From<AllocError> for CallFault {
    fn from(_: AllocError) -> CallFault {
        CallFault::OutOfMemory
    }
}
