use crate::{Part, Token, View};
use sb_model::{Message, Rows, Text};

/// The state in which a copy is seen when it is looked at.
#[derive(Clone, Copy, PartialEq, Eq)]
pub enum CopyState {
    /// It may be received.
    Ready,
    /// It may be received by its number.
    Deferred,
    /// It is under a lock.
    Held,
    /// It enters at this moment, in ms since 1970.
    Scheduled(u64),
}

/// How a copy came to be shown.
#[derive(Clone, Copy, PartialEq, Eq)]
pub enum Showing {
    /// It was received with deletion.
    Removed,
    /// It was received under this lock, which lives until this moment, in ms since 1970.
    Locked { token: Token, until: u64 },
    /// It was looked at, and stays in this state.
    Browsed(CopyState),
}

/// A copy of a message as a reply shows it.
#[derive(Clone, Drop)]
pub struct CopyShown {
    pub number: u64,
    /// EnqueuedSequenceNumber: the number under which the message first entered the namespace.
    pub enqueued_seq: u64,
    /// When it was enqueued, in ms since 1970.
    pub enqueued: u64,
    /// DeliveryCount: how often it was handed out, this time included.
    pub delivery: u64,
    pub message: Message,
    pub showing: Showing,
}

/// What became of one message of a send.
#[derive(Clone, Copy, PartialEq, Eq)]
pub enum Receipt {
    /// It has this number.
    Number(u64),
    /// An equal MessageId was accepted inside the window: it was dropped.
    Duplicate,
}

/// What one of the operations that acted together is answered.
#[derive(Clone, Drop)]
pub enum StepReply {
    Done,
    /// One receipt for each message, in order.
    Sent(Rows<Receipt>),
}

/// What an accepted call is answered.
#[derive(Drop)]
pub enum Reply {
    Done,
    /// One receipt for each message, in order.
    Sent(Rows<Receipt>),
    Message(CopyShown),
    /// There is nothing to receive.
    Empty,
    Copies(Rows<CopyShown>),
    /// The deferred copy of this number had expired.
    Expired {
        number: u64,
    },
    /// A session is held under this token until this moment, in ms since 1970.
    Session {
        id: Text,
        session: Token,
        until: u64,
    },
    /// The lock lives until this moment, in ms since 1970.
    Renewed {
        until: u64,
    },
    /// What a session remembers.
    State(Option<Rows<u8>>),
    /// The number of the transaction.
    Begun {
        txn: u64,
    },
    Queued,
    Committed,
    /// The lock of this copy had ended: nothing was done, and the transaction is dropped.
    Aborted {
        part: Part,
        number: u64,
    },
    /// One reply for each operation, in order.
    Together(Rows<StepReply>),
    Counts {
        main: u64,
        dead: u64,
        transfer: u64,
    },
    /// What a look shows.
    Seen(View),
}

/// What an accepted call is answered: its reply, or that of the equal call that acted before.
#[derive(Drop)]
pub enum Answered {
    New(Reply),
    Kept(Reply),
}

/// Why one of the operations that act together is refused: by a test of its own, as a call that asks for it
/// alone is. The order of the tests is in `docs/ACTS.md`.
#[derive(Drop)]
pub enum PartRefusal {
    /// A field is outside its written form or range.
    BadCall { key: Text },
    EntityNotFound,
    BadName,
    /// The operation doesn't go with this kind of entity, or with this part of it.
    WrongKind,
    /// A size in bytes passed its limit.
    TooLarge { size: u64 },
    SessionRequired,
    SessionNotAllowed,
    /// The token isn't the living holder of a session there.
    SessionLost,
    /// No copy that is named so has that living lock.
    LockLost,
    /// A settlement of that lock is queued in this transaction.
    TxnPending { txn: u64 },
    /// It is on another entity than the one whose operations act together.
    TxnScope,
    TxnFull,
}

/// Why a call is refused. The order of the tests is in `docs/ACTS.md`.
#[derive(Drop)]
pub enum Refusal {
    /// A field is outside its written form or range.
    BadCall { key: Text },
    EntityNotFound,
    EntityExists,
    BadName,
    /// A field of a description is outside its range.
    BadDescription { field: Text },
    /// A filter or an action can't be read from this place on, in bytes.
    BadFilter { at: u64 },
    /// The act doesn't go with this kind of entity, or with this part of it.
    WrongKind,
    /// A size in bytes passed its limit.
    TooLarge { size: u64 },
    /// So many copies live, and the call would add so many.
    QuotaExceeded { copies: u64, adds: u64 },
    SessionRequired,
    SessionNotAllowed,
    /// The session's lock lives until this moment.
    SessionHeld { until: u64 },
    /// The token isn't the living holder of a session there.
    SessionLost,
    /// No copy that is named so has that living lock.
    LockLost,
    /// That number isn't a deferred copy.
    NotDeferred,
    /// That number isn't a scheduled copy.
    NotScheduled,
    TxnNotFound,
    /// A settlement of that lock is queued in this transaction.
    TxnPending { txn: u64 },
    /// The settlement is on another entity than the transaction.
    TxnScope,
    TxnFull,
    /// The number is below the one that is kept.
    StaleNumber { kept: u64 },
    /// The number that is kept, with another act.
    NumberReused,
    ClientsFull,
    /// Nothing is remembered of a client of that name.
    ClientNotFound,
    TxnsFull,
    /// A number would pass 2^63 - 1.
    Exhausted,
    /// Of the operations that act together the one at this place, from 0, is refused.
    InPart { part: u64, why: PartRefusal },
    /// A disk call failed in this step.
    DiskFault,
    /// An earlier step answered DiskFault; the failed disk's count of faults then.
    Stopped { faults: u64 },
    /// Want of memory: nothing was changed.
    OutOfMemory,
}

pub type Answer = Result<Answered, Refusal>;
