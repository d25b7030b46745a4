// The numbers of a server, as the responses of a table show them.
use sb_numbers::{Bucket, Counted, JournalSizes, Kind, Numbers, Outcome};
use std::alloc::{AllocError, Global};

/// Those of one that has run for 12 seconds: no two that stand beside each other are the same.
pub fn server_numbers(alloc: Global) -> Result<Numbers, AllocError> {
    let calls = vec![in alloc; SENDS, RECEIVES]?;
    let spent = vec![in alloc; SHORT, LONGER]?;
    Ok(Numbers {
        uptime_ms: 12_345,
        threads: 4,
        workers: 16,
        connections: 2,
        waiting: 1,
        journal: JournalSizes {
            records: 7,
            bytes: 1_234,
            syncs: 14,
        },
        calls,
        spent,
        spent_micros: 61,
        called: 4,
    })
}

const SENDS: Counted = Counted {
    kind: Kind::Send,
    outcome: Outcome::Done,
    count: 3,
};

const RECEIVES: Counted = Counted {
    kind: Kind::Receive,
    outcome: Outcome::Empty,
    count: 1,
};

const SHORT: Bucket = Bucket { most: 10, count: 1 };

const LONGER: Bucket = Bucket { most: 25, count: 3 };
