// What is counted of calls: what they ask for, how they are answered, and those that wait.
use crate::doing::Begun;
use sb_machine::{Act, Answer, Answered, How, Look, Reply};
use sb_numbers::{Board, Kind, Outcome};

/// The kind of a call that asks for this.
pub(crate) fn kind_of(act: &Act) -> Kind {
    match act {
        Act::CreateQueue { .. } => Kind::CreateQueue,
        Act::CreateTopic { .. } => Kind::CreateTopic,
        Act::CreateSubscription { .. } => Kind::CreateSubscription,
        Act::CreateRule { .. } => Kind::CreateRule,
        Act::Delete { .. } => Kind::Delete,
        Act::DeleteRule { .. } => Kind::DeleteRule,
        Act::Send { .. } => Kind::Send,
        Act::Cancel { .. } => Kind::Cancel,
        Act::Receive { .. } => Kind::Receive,
        Act::ReceiveDeferred { .. } => Kind::ReceiveDeferred,
        Act::Settle { how, .. } => kind_of_settle(how),
        Act::Renew { .. } => Kind::Renew,
        Act::Accept { .. } => Kind::Accept,
        Act::SessionRenew { .. } => Kind::SessionRenew,
        Act::SessionClose { .. } => Kind::SessionClose,
        Act::SessionSet { .. } => Kind::SessionSet,
        Act::SessionState { .. } => Kind::SessionState,
        Act::Begin { .. } => Kind::Begin,
        Act::Commit { .. } => Kind::Commit,
        Act::Rollback { .. } => Kind::Rollback,
        Act::Together { .. } => Kind::Together,
        Act::ForgetClient { .. } => Kind::ForgetClient,
        Act::Peek { .. } => Kind::Peek,
        Act::Counts { .. } => Kind::Counts,
        Act::Look { what } => kind_of_look(what),
    }
}

/// How a call was answered.
pub(crate) fn outcome_of(answer: &Answer) -> Outcome {
    match answer {
        Ok(Answered::New(Reply::Empty)) => Outcome::Empty,
        Ok(Answered::New(_)) => Outcome::Done,
        Ok(Answered::Kept(_)) => Outcome::Kept,
        Err(_) => Outcome::Refused,
    }
}

/// Counts a call that waits from its first answer on, until it waits no longer.
pub(crate) fn asked(board: &Board, again: bool, begun: &Begun) {
    let waits = matches!(begun, Begun::Waits(_));
    if waits && !again {
        board.waits();
    }
    if again && !waits {
        board.goes_on();
    }
}

fn kind_of_settle(how: &How) -> Kind {
    match how {
        How::Complete => Kind::Complete,
        How::Abandon => Kind::Abandon,
        How::Defer => Kind::Defer,
        How::DeadLetter { .. } => Kind::DeadLetter,
    }
}

fn kind_of_look(what: &Look) -> Kind {
    match what {
        Look::Entities { .. } => Kind::List,
        Look::Entity { .. } => Kind::Describe,
        Look::Sessions { .. } => Kind::Sessions,
        Look::Transactions => Kind::Transactions,
        Look::Clients { .. } => Kind::Clients,
    }
}
