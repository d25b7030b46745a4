// What kinds of calls there are, and how they are answered.

/// What a call asks for: as the word that its script line has at `do`.
#[derive(Clone, Copy, PartialEq, Eq, Drop)]
pub enum Kind {
    CreateQueue,
    CreateTopic,
    CreateSubscription,
    CreateRule,
    Delete,
    DeleteRule,
    Send,
    Cancel,
    Receive,
    ReceiveDeferred,
    Complete,
    Abandon,
    Defer,
    DeadLetter,
    Renew,
    Accept,
    SessionRenew,
    SessionClose,
    SessionSet,
    SessionState,
    Begin,
    Commit,
    Rollback,
    Together,
    ForgetClient,
    Peek,
    Counts,
    List,
    Describe,
    Sessions,
    Transactions,
    Clients,
}

/// How a call was answered.
#[derive(Clone, Copy, PartialEq, Eq, Drop)]
pub enum Outcome {
    /// It was carried out.
    Done,
    /// There was nothing to receive, or no session to accept.
    Empty,
    /// By the reply that its number was given before.
    Kept,
    /// It was refused.
    Refused,
}
