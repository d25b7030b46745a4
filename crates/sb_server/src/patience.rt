// A call that waits.
use crate::ask::Waiter;
use sb_machine::Answer;

/// A call that waits: what asks for it, whether the connection ends with its response, the readings
/// at which its first call and its last were made, and the answer of the last.
#[derive(Drop)]
pub(crate) struct Patience {
    pub(crate) waiter: Waiter,
    pub(crate) limit_ms: u64,
    pub(crate) closes: bool,
    pub(crate) first_ms: u64,
    pub(crate) asked_ms: u64,
    pub(crate) answer: Answer,
}
