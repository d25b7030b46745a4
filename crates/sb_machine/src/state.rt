use crate::{Act, Description, How, Part, Path, Reply, Rule, Token};
use sb_model::{Message, Rows, Text};

/// How long a lock holds a copy.
#[derive(Clone, Copy, PartialEq, Eq)]
pub enum Hold {
    /// Up to this moment, in ms since 1970.
    Until(u64),
    /// As long as its session is held by the lock of this number.
    Session(u64),
}

/// What may be done with a copy.
#[derive(Clone, Copy, PartialEq, Eq)]
pub enum Standing {
    /// It may be received.
    Ready,
    /// It may be received by its number.
    Deferred,
    /// It was handed out under the lock of this number.
    Held {
        lock: u64,
        hold: Hold,
        deferred: bool,
    },
    /// It enters at this moment, in ms since 1970.
    Scheduled(u64),
}

/// A copy that an entity holds.
#[derive(Drop)]
pub struct StoredCopy {
    /// SequenceNumber, from 1, never reused.
    pub number: u64,
    /// EnqueuedSequenceNumber.
    pub enqueued_seq: u64,
    /// When it was enqueued, in ms since 1970.
    pub enqueued: u64,
    /// How often a hand-out came back.
    pub count: u32,
    /// How often it was forwarded.
    pub hops: u8,
    pub standing: Standing,
    pub message: Message,
}

/// Who holds a session: the number of its lock, and the moment up to which it lives.
#[derive(Clone, Copy, PartialEq, Eq)]
pub struct Holder {
    pub lock: u64,
    pub until: u64,
}

/// A session is remembered while it has a holder or a state.
#[derive(Drop)]
pub struct Session {
    pub id: Text,
    pub state: Option<Rows<u8>>,
    pub holder: Option<Holder>,
}

/// One part of an entity: the last number given there, its copies in rising number, its sessions
/// by id.
#[derive(Drop)]
pub struct Leaf {
    pub last: u64,
    pub copies: Rows<StoredCopy>,
    pub sessions: Rows<Session>,
}

#[derive(Clone, Copy, PartialEq, Eq)]
pub enum EntityKind {
    Queue,
    Topic,
    Subscription,
}

/// An entity without what lies in it.
#[derive(Drop)]
pub struct Listed {
    pub number: u64,
    pub kind: EntityKind,
    /// Of part Main.
    pub path: Path,
    pub description: Description,
    /// Of a subscription, by name; of others none.
    pub rules: Rows<Rule>,
}

/// A MessageId that was accepted under a window.
#[derive(Drop)]
pub struct AcceptedId {
    pub moment: u64,
    pub id: Text,
}

/// An entity with its three parts.
#[derive(Drop)]
pub struct Entity {
    pub about: Listed,
    /// By moment, then id.
    pub ids: Rows<AcceptedId>,
    pub main: Leaf,
    pub dead: Leaf,
    pub transfer: Leaf,
}

/// What a transaction has queued.
#[derive(Drop)]
pub enum Operation {
    Send {
        to: Path,
        messages: Rows<Message>,
    },
    Settle {
        from: Path,
        number: u64,
        token: Token,
        session: Option<Token>,
        how: How,
    },
}

/// An open transaction.
#[derive(Drop)]
pub struct Transaction {
    pub number: u64,
    /// The number of its entity.
    pub entity: u64,
    pub deadline: u64,
    pub operations: Rows<Operation>,
}

/// All that acts speak of.
#[derive(Drop)]
pub struct Space {
    /// Fixed at creation; the upper half of each lock token.
    pub salt: u64,
    /// The last entity number given.
    pub last_entity: u64,
    /// The last lock number given.
    pub last_lock: u64,
    /// The last transaction number given.
    pub last_txn: u64,
    /// The sum of the last numbers of the parts that were removed.
    pub removed: u64,
    /// By number.
    pub entities: Rows<Entity>,
    /// By number.
    pub transactions: Rows<Transaction>,
}

/// The last numbered call of a client that was accepted, and its reply.
#[derive(Drop)]
pub struct Kept {
    pub client: Text,
    pub number: u64,
    pub act: Act,
    pub reply: Reply,
}

/// A whole namespace.
#[derive(Drop)]
pub struct State {
    /// The moment up to which time has come, in ms since 1970.
    pub now: u64,
    /// By name in byte order.
    pub clients: Rows<Kept>,
    pub space: Space,
}
