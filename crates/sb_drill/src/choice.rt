/// What a word of the generator asks for.
#[derive(Clone, Copy, PartialEq, Eq)]
pub enum Choice {
    /// A send to the queue `d0`.
    SendPlain,
    /// A send to the topic `dt`.
    SendTopic,
    /// A send to the queue of sessions `d1`.
    SendSession,
    /// A receive from `d0` under a lock.
    LockPlain,
    /// A receive from the subscription `s0` with deletion.
    TakeTopic,
    /// That what was last received from `d0` is completed.
    CompletePlain,
    /// The next session of `d1`.
    AcceptSession,
    /// A receive from `d1` under a lock, in the session that was last accepted.
    LockSession,
    /// A receive from the dead-letter queue of `d0` with deletion.
    TakeDead,
}
