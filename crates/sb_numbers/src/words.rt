// The words by which kinds and outcomes are shown.
ghost use Rattle.std.specs.Prelude.{◌≡◌};
ghost use Rattle.sb_numbers.specs.Words as words;

use crate::{Kind, Outcome};

impl Kind {
    /// The word that a script line has at `do` for such a call.
    pub fn word(&self) -> &'static str
        ensures { result.now ≡ words.kind_word self.now }
    {
        match self {
            Kind::CreateQueue => "create-queue",
            Kind::CreateTopic => "create-topic",
            Kind::CreateSubscription => "create-subscription",
            Kind::CreateRule => "create-rule",
            Kind::Delete => "delete",
            Kind::DeleteRule => "delete-rule",
            Kind::Send => "send",
            Kind::Cancel => "cancel",
            Kind::Receive => "receive",
            Kind::ReceiveDeferred => "receive-deferred",
            Kind::Complete => "complete",
            Kind::Abandon => "abandon",
            Kind::Defer => "defer",
            Kind::DeadLetter => "dead-letter",
            Kind::Renew => "renew",
            Kind::Accept => "accept",
            Kind::SessionRenew => "session-renew",
            Kind::SessionClose => "session-close",
            Kind::SessionSet => "session-set",
            Kind::SessionState => "session-state",
            Kind::Begin => "begin",
            Kind::Commit => "commit",
            Kind::Rollback => "rollback",
            Kind::Together => "together",
            Kind::ForgetClient => "forget-client",
            Kind::Peek => "peek",
            Kind::Counts => "counts",
            Kind::List => "list",
            Kind::Describe => "describe",
            Kind::Sessions => "sessions",
            Kind::Transactions => "transactions",
            Kind::Clients => "clients",
        }
    }
}

impl Outcome {
    pub fn word(&self) -> &'static str
        ensures { result.now ≡ words.outcome_word self.now }
    {
        match self {
            Outcome::Done => "done",
            Outcome::Empty => "empty",
            Outcome::Kept => "kept",
            Outcome::Refused => "refused",
        }
    }
}
