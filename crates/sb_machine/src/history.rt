use crate::{Answer, Call};

/// One entry of a history.
#[derive(Drop)]
pub enum Entry {
    /// At this seat time went on to a moment.
    Ticked {
        seat: u64,
        moment: u64,
    },
    /// At this seat a call was made at a reading of the clock, and answered.
    Answered {
        seat: u64,
        reading: u64,
        call: Call,
        answer: Answer,
    },
}
