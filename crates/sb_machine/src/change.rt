// The few changes of which everything that the namespace does is made.
use crate::{Description, EntityKind, Hold, Operation, Part, Path, Rule, Standing};
use sb_model::{Message, Name, Rows, Text};

/// One of an entity's three queues of copies.
#[derive(Clone, Copy, PartialEq, Eq)]
pub struct LeafKey {
    /// The number of the entity.
    pub entity: u64,
    pub part: Part,
}

/// A copy as it enters; the part gives it its number, the step its moment.
#[derive(Drop)]
pub struct Fresh {
    /// EnqueuedSequenceNumber; none takes the number.
    pub seq: Option<u64>,
    pub hops: u8,
    pub standing: Standing,
    pub message: Message,
}

/// Why a number ended.
#[derive(Clone, Copy, PartialEq, Eq)]
pub enum Cause {
    Fanned,
    Forwarded,
    DeadLettered,
    Expired,
    Received,
    Completed,
    Cancelled,
    Activated,
    /// With its entity.
    Removed,
}

/// What changes in one part.
#[derive(Drop)]
pub enum LeafChange {
    /// The next number is given to a copy, which stays.
    Enters(Fresh),
    /// The next number is given, and ends at once.
    Passes(Cause),
    /// The copy of this number goes; `settled` where a settlement of its lock did it.
    Ends {
        number: u64,
        settled: bool,
        cause: Cause,
    },
    /// The copy of this number is held under the next lock number.
    Holds {
        number: u64,
        hold: Hold,
    },
    /// The copy of this number stands so; `settled` where a settlement of its lock did it.
    Stands {
        number: u64,
        settled: bool,
        count: u32,
        standing: Standing,
    },
    /// The lock of the copy of this number lives until then.
    Renews {
        number: u64,
        until: u64,
    },
    /// A session that nobody holds is held under the next lock number.
    Opens {
        id: Text,
        until: u64,
    },
    /// The session that is held under this lock is held no more.
    Closes {
        lock: u64,
    },
    /// The lock of a session lives until then.
    Prolongs {
        lock: u64,
        until: u64,
    },
    /// The session that is held under this lock remembers these bytes, or none.
    Writes {
        lock: u64,
        state: Option<Rows<u8>>,
    },
}

/// What changes in a namespace. Each change takes the numbers that it gives from the namespace as
/// it finds it.
#[derive(Drop)]
pub enum Change {
    InLeaf {
        key: LeafKey,
        change: LeafChange,
    },
    /// The id of a message is accepted under the window of this entity; ids past it are forgotten.
    Notes {
        entity: u64,
        id: Text,
    },
    /// The next entity number is given.
    Makes {
        kind: EntityKind,
        path: Path,
        description: Description,
        rules: Rows<Rule>,
    },
    /// The entity of this number goes with its parts and its transactions.
    Removes {
        entity: u64,
    },
    AddsRule {
        entity: u64,
        rule: Rule,
    },
    DropsRule {
        entity: u64,
        name: Name,
    },
    /// The next transaction number is given.
    Begins {
        entity: u64,
        deadline: u64,
    },
    Queues {
        txn: u64,
        deadline: u64,
        operation: Operation,
    },
    /// The transaction of this number is open no more.
    Drops {
        txn: u64,
    },
}
