use crate::{Conditions, Look};
use sb_model::{Message, Name, Rows, Text};

/// Which of an entity's three queues is meant.
#[derive(Clone, Copy, PartialEq, Eq)]
pub enum Part {
    /// Where messages arrive.
    Main,
    /// The dead-letter queue.
    Dead,
    /// The transfer dead-letter queue.
    Transfer,
}

/// An address: an entity, or a subscription of a topic, and a part of it.
#[derive(Clone, Drop)]
pub struct Path {
    pub name: Name,
    pub subscription: Option<Name>,
    pub part: Part,
}

/// A lock token: the UUID whose upper 64 bits are the namespace's salt and whose lower 64 bits
/// are the lock's number.
#[derive(Clone, Copy, PartialEq, Eq)]
pub struct Token {
    pub salt: u64,
    pub lock: u64,
}

/// How a message is received: under a lock (peek-lock), or with deletion (receive and delete).
#[derive(Clone, Copy, PartialEq, Eq)]
pub enum Mode {
    Lock,
    Delete,
}

/// What an entity is set to do. A field that its kind lacks holds its default.
#[derive(Clone, Drop)]
pub struct Description {
    /// How long a lock lives, in s: 1 to 300, by default 60.
    pub lock: u64,
    /// The longest time to live, in s; by default none.
    pub ttl: Option<u64>,
    /// From how many deliveries on a message is dead-lettered: 1 to 2,000, by default 10.
    pub max_delivery: u64,
    /// How long ids are kept to detect duplicates, in s: 20 to 604,800, by default not at all.
    pub window: Option<u64>,
    pub requires_session: bool,
    /// Whether an expired message is dead-lettered; by default it is dropped.
    pub dead_on_expiry: bool,
    /// Whether a message is dead-lettered for which a rule fails; by default it is.
    pub dead_on_fault: bool,
    pub forward_to: Option<Name>,
    pub forward_dead_to: Option<Name>,
}

/// How a copy under a lock is named: by its number, or by a text that is its MessageId or prints
/// its number.
#[derive(Clone, Drop)]
pub enum Which {
    Number(u64),
    Id(Text),
}

/// What becomes of a copy under a lock.
#[derive(Clone, Drop)]
pub enum How {
    Complete,
    Abandon,
    Defer,
    DeadLetter {
        reason: Option<Text>,
        description: Option<Text>,
    },
}

/// The filter of a rule as it is asked for.
#[derive(Clone, Drop)]
pub enum FilterText {
    Sql(Text),
    Correlation(Conditions),
}

/// One of the operations that act together.
#[derive(Drop)]
pub enum Step {
    /// Sends messages, in order, to the entity itself or by way of it to another.
    Send {
        to: Path,
        messages: Rows<Message>,
    },
    /// Settles a copy of the entity that is held under a lock.
    Settle {
        from: Path,
        which: Which,
        token: Token,
        session: Option<Token>,
        how: How,
    },
    /// Sets the bytes that a session of the entity remembers, or clears them.
    SessionSet {
        from: Path,
        session: Token,
        state: Option<Rows<u8>>,
    },
}

/// What is asked of the namespace.
#[derive(Drop)]
pub enum Act {
    CreateQueue {
        name: Name,
        description: Description,
    },
    CreateTopic {
        name: Name,
        description: Description,
    },
    CreateSubscription {
        topic: Name,
        name: Name,
        description: Description,
    },
    CreateRule {
        topic: Name,
        subscription: Name,
        name: Name,
        filter: FilterText,
        action: Option<Text>,
    },
    /// Removes an entity with all that it holds.
    Delete {
        entity: Path,
    },
    DeleteRule {
        topic: Name,
        subscription: Name,
        name: Name,
    },
    /// Sends up to 100 messages, in order.
    Send {
        to: Path,
        messages: Rows<Message>,
        txn: Option<u64>,
    },
    /// Takes back a scheduled message.
    Cancel {
        from: Path,
        number: u64,
    },
    /// Receives the message of least number.
    Receive {
        from: Path,
        mode: Mode,
        session: Option<Token>,
    },
    /// Receives the deferred message of this number.
    ReceiveDeferred {
        from: Path,
        number: u64,
        mode: Mode,
        session: Option<Token>,
    },
    /// Settles a copy that is held under a lock.
    Settle {
        from: Path,
        which: Which,
        token: Token,
        session: Option<Token>,
        how: How,
        txn: Option<u64>,
    },
    /// Makes a lock live longer.
    Renew {
        from: Path,
        which: Which,
        token: Token,
    },
    /// Takes the lock of a session, or of the next one that nobody holds.
    Accept {
        from: Path,
        id: Option<Text>,
    },
    SessionRenew {
        from: Path,
        session: Token,
    },
    SessionClose {
        from: Path,
        session: Token,
    },
    /// Sets the bytes that a session remembers, or clears them.
    SessionSet {
        from: Path,
        session: Token,
        state: Option<Rows<u8>>,
    },
    SessionState {
        from: Path,
        session: Token,
    },
    /// Opens a transaction on an entity.
    Begin {
        entity: Path,
    },
    Commit {
        txn: u64,
    },
    Rollback {
        txn: u64,
    },
    /// What a transaction on an entity would do that is begun, filled with these 1 to 100 operations
    /// and committed at one moment.
    Together {
        entity: Path,
        steps: Rows<Step>,
    },
    /// Forgets the last numbered call of a client, which may act again as a new one.
    ForgetClient {
        client: Text,
    },
    /// Shows up to `count` copies (1 to 100) from the number `start` (1 to 2^63 - 1) on.
    Peek {
        from: Path,
        start: u64,
        count: u64,
    },
    /// Tells how many copies an entity's parts hold.
    Counts {
        entity: Path,
    },
    /// Shows what an operator asks for.
    Look {
        what: Look,
    },
}

/// Who asks, and the number that lets a repeated call act once.
#[derive(Clone, Drop)]
pub struct By {
    pub client: Text,
    pub number: u64,
}

/// One call of the namespace.
#[derive(Clone, Drop)]
pub struct Call {
    pub by: Option<By>,
    pub act: Act,
}

/// A call and the reading of the clock at which it is made, in ms since 1970.
#[derive(Clone, Drop)]
pub struct TimedCall {
    pub reading: u64,
    pub call: Call,
}

/// What a journal record says: time went on, or a call acted, at a moment in ms since 1970.
#[derive(Clone, Drop)]
pub enum Event {
    Tick { moment: u64 },
    Called { moment: u64, call: Call },
}

/// An event that borrows its call, so that journaling a call takes no copy of it.
#[derive(Clone, Copy)]
pub enum EventRef<'a> {
    Tick { moment: u64 },
    Called { moment: u64, call: &'a Call },
}
