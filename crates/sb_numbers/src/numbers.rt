// What is shown of the numbers of a server.
use crate::{Kind, Outcome};
use std::alloc::Global;

/// What the journal of a namespace has.
#[derive(Clone, Copy, PartialEq, Eq, Drop)]
pub struct JournalSizes {
    /// The number of its last record: all that were ever written count.
    pub records: u64,
    /// How many bytes its file has.
    pub bytes: u64,
    /// How often its records were synced since the server began, two times a group of them; a checkpoint's own syncs don't
    /// count.
    pub syncs: u64,
}

/// So many calls of a kind were answered so.
#[derive(Clone, Copy, PartialEq, Eq, Drop)]
pub struct Counted {
    pub kind: Kind,
    pub outcome: Outcome,
    pub count: u64,
}

/// So many calls took at most so long.
#[derive(Clone, Copy, PartialEq, Eq, Drop)]
pub struct Bucket {
    /// In microseconds.
    pub most: u64,
    /// With those of lesser buckets.
    pub count: u64,
}

/// The numbers of a server at some moment. Those that others change meanwhile may be of slightly different moments.
#[derive(Drop)]
pub struct Numbers {
    /// For how long it has run, in ms.
    pub uptime_ms: u64,
    /// How many threads serve connections.
    pub threads: u64,
    /// How many connections it serves at once, at most.
    pub workers: u64,
    /// How many connections there are now.
    pub connections: u64,
    /// How many calls wait for a message, or for a session.
    pub waiting: u64,
    pub journal: JournalSizes,
    /// The kinds and outcomes of which there were calls.
    pub calls: Vec<Counted>,
    /// How long calls took, by rising bounds.
    pub spent: Vec<Bucket>,
    /// How long all calls took together, in microseconds.
    pub spent_micros: u64,
    /// How many calls there were.
    pub called: u64,
}

impl Numbers {
    /// All of them 0, for who shows none. It takes no memory.
    pub fn none(alloc: Global) -> Numbers {
        Numbers {
            uptime_ms: 0,
            threads: 0,
            workers: 0,
            connections: 0,
            waiting: 0,
            journal: JournalSizes {
                records: 0,
                bytes: 0,
                syncs: 0,
            },
            calls: Vec::new(alloc),
            spent: Vec::new(alloc),
            spent_micros: 0,
            called: 0,
        }
    }
}
