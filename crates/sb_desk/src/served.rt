//! What a desk serves.
ghost use Rattle.std.specs.Prelude.{◌≡◌, ℕ, Bool, List, ◌++◌, map, is_some, true};
ghost use Rattle.std.specs.List.{All};
ghost use Rattle.sb_machine.specs.Consistent.{IsConsistent};
ghost use Rattle.sb_machine.specs.History.{IsLegal};
ghost use Rattle.sb_machine.specs.Ordered.{IsActInOrder};
ghost use Rattle.sb_machine.specs.declared.call.Call.{Call};
ghost use Rattle.sb_machine.specs.declared.history.Entry.{Entry};
ghost use Rattle.sb_machine.specs.declared.state.State.{State};
ghost use Rattle.sb_desk.specs.Entries.{IsReport};
ghost use Rattle.sb_desk.specs.Posts.{asked_of, group_entries};
ghost use Rattle.sb_desk.specs.Spared.{Spares};
ghost use Rattle.sb_desk.specs.declared.report.Origin.{Origin};

use crate::{Post, Report};
use sb_machine::{Call, Path};
use sb_numbers::JournalSizes;

/// What stands behind a group of calls. All of it are hints: no clause says anything of them.
#[derive(Clone, Copy)]
pub struct Stepped {
    /// The marks ([`Served::mark_of`]) of the parts in which there may be something to receive, or a
    /// free session, that wasn't there before these calls.
    pub entered: u64,
    /// Nothing comes due by itself before this moment, in ms since 1970; `u64::MAX` where nothing does.
    pub soonest: u64,
    /// What its journal has.
    pub sizes: JournalSizes,
}

/// A namespace that answers calls, each by one entry of a history and at most a tick before it. What several calls
/// change is made safe at once.
pub trait Served {
    /// The state that it holds.
    ghost state: { Self → State };

    /// It stands for this history from this state.
    ghost stands: { Self → State → List Entry → Type 0 };

    /// What it found as it was opened, and how it uses its disks. No call changes it.
    ghost origin: { Self → Origin };

    /// Whether a call at this moment and in this state is never refused for want of memory.
    ghost spared: { ℕ → Call → State → Bool };

    /// The mark of a part of an entity: some of 64 bits, by its path alone. Others may have the same; marks
    /// of several are joined, and a part is among them where all its bits are.
    fn mark_of(path: &Path) -> u64;

    /// Makes these calls one behind another, each at its reading of the clock, and says in each what it came to.
    fn step_group(&mut self, posts: &mut [Post]) -> Stepped
        requires order { All (λ p. IsActInOrder p.call.act) posts.old }
        ensures stands { (from : State) (h : List Entry) → stands self.old from h → stands self.new from (h ++ group_entries posts.new) }
        ensures asked { map asked_of posts.new ≡ map asked_of posts.old }
        ensures went { All (λ p. is_some p.went ≡ true) posts.new }
        ensures origin { origin self.new ≡ origin self.old };

    /// The numbers of the history.
    fn tally(&self) -> Report
        ensures { (from : State) (h : List Entry) → stands self.now from h → IsReport from h result };

    /// It stands for legal histories of consistent states alone.
    ghost legal: { (v : Self) (from : State) (h : List Entry) → stands v from h → IsConsistent from × IsLegal from h };

    /// In those no call that is spared is answered with want of memory.
    ghost spares: { (v : Self) (from : State) (h : List Entry) → stands v from h → Spares spared from h };
}
