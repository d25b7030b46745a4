// What a call or a tick would do.
ghost use Rattle.std.specs.Prelude.{◌≡◌, [], Some, None, is_some};
ghost use Rattle.sb_machine.specs.declared.reply.Answered.TheVariants.{New};
ghost use Rattle.sb_machine.specs.declared.reply.Reply.TheVariants.{Done};
ghost use Rattle.sb_engine.specs.Engines.{is_changing};

pub mod calls;
pub mod clients;
pub mod draft;
pub mod drafting;
pub mod numbers;
pub mod planning;
pub mod quota;

use sb_machine::{Answered, Changes, Kept, Reply};
use sb_model::Text;
use std::alloc::Global;
use std::marker::Model;

/// What a call or a tick would do; all that it keeps is in it.
#[derive(Drop)]
pub struct Plan {
    changes: Changes,
    answered: Answered,
    // The client of whom nothing is remembered any more.
    forgets: Option<Text>,
    kept: Option<Kept>,
}

impl Model for Plan {
    ghost use Rattle.sb_engine.specs.Planned.{Planned};

    ghost Value = { Planned };

    ghost view = { λ p. record { changes = p.changes; answered = p.answered; forgets = p.forgets; kept = p.kept } };
}

impl Plan {
    /// These changes, answered so; what is kept takes the place of the client's last.
    pub(crate) fn new(changes: Changes, answered: Answered, kept: Option<Kept>) -> Plan
        ensures { result ≡ record { changes = changes; answered = answered; forgets = None; kept = kept } }
    {
        Plan {
            changes,
            answered,
            forgets: None,
            kept,
        }
    }

    /// Nothing is remembered of this client any more; what is kept is so behind that.
    pub(crate) fn forgetting(alloc: Global, client: Text, kept: Option<Kept>) -> Plan
        ensures { result ≡ record { changes = []; answered = New Done; forgets = Some client; kept = kept } }
    {
        Plan {
            changes: Changes::new(alloc),
            answered: Answered::New(Reply::Done),
            forgets: Some(client),
            kept,
        }
    }

    /// Whether it changes the namespace.
    pub fn is_changing(&self) -> bool
        ensures { result ≡ is_changing self.now }
    {
        self.kept.is_some() || self.forgets.is_some() || !self.changes.is_empty()
    }

    pub fn into_answered(self) -> Answered
        ensures { result ≡ self.answered }
    {
        let Plan {
            changes,
            answered,
            forgets,
            kept,
        } = self;
        drop(changes);
        drop(forgets);
        drop(kept);
        answered
    }

    // ---- within this crate

    pub(crate) fn changes(&self) -> &Changes
        ensures { result.now ≡ self.now.changes }
    {
        &self.changes
    }

    pub(crate) fn is_kept(&self) -> bool
        ensures { result ≡ is_some self.now.kept }
    {
        self.kept.is_some()
    }

    pub(crate) fn into_parts(self) -> (Changes, Answered, Option<Text>, Option<Kept>)
        ensures changes { result.0 ≡ self.changes }
        ensures answered { result.1 ≡ self.answered }
        ensures forgets { result.2 ≡ self.forgets }
        ensures kept { result.3 ≡ self.kept }
    {
        (self.changes, self.answered, self.forgets, self.kept)
    }
}
