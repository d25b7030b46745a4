ghost use Rattle.std.specs.Prelude.{◌≡◌, ◌+◌, ◌++◌, true, List, [], Err, is_some};
ghost use Rattle.sb_machine.specs.Namespace.{default_description};
ghost use Rattle.sb_machine.specs.declared.history.Entry.{Entry};
ghost use Rattle.sb_machine.specs.declared.state.State.{State};
ghost use Rattle.sb_desk.specs.Entries.{counted};
ghost use Rattle.sb_desk.specs.Posts.{asked_of, post_entries};
ghost use Rattle.sb_desktests.specs.Namespaces.{creation, no_disks, none_spared, state_at, StandsFor, GoesOn};

use sb_desk::{Post, Report, Served, Stepped, Went};
use sb_machine::{Act, Answer, Answered, Call, Description, Path, Refusal, Reply};
use sb_numbers::JournalSizes;

/// The begin of 9999-12-31, in ms since 1970: the last moment that counts.
const MAX_MOMENT: u64 = 253_402_214_400_000;

/// A namespace that is empty at first, and makes one queue `q` of the default description. It
/// answers all other calls with want of memory.
#[derive(Drop)]
pub(crate) struct OneQueue {
    /// When the queue was made.
    made: Option<u64>,
    numbers: Report,
}

impl OneQueue {
    /// It takes no memory.
    pub(crate) fn new() -> OneQueue
        ensures { StandsFor result.made result.numbers (state_at result.made) [] }
    {
        OneQueue {
            made: None,
            numbers: Report {
                entries: 0,
                changing: 0,
                refused: 0,
            },
        }
    }

    // Makes the call of a post, and says in it what it came to.
    fn step(&mut self, post: &mut Post)
        ensures stands { (from : State) (h : List Entry) → StandsFor self.old.made self.old.numbers from h → StandsFor self.new.made self.new.numbers from (h ++ post_entries post.new) }
        ensures asked { asked_of post.new ≡ asked_of post.old }
        ensures went { is_some post.new.went ≡ true }
    {
        let answer = self.answer(post.reading, &post.call);
        let before = post.went.replace(Went { answer, tick: None });
        drop(before);
    }

    fn answer(&mut self, reading: u64, call: &Call) -> Answer
        ensures { GoesOn self.old.made self.old.numbers reading call.now result self.new.made self.new.numbers }
    {
        if !is_creation(call) {
            return self.refuse(Refusal::OutOfMemory);
        }
        if self.made.is_some() {
            return self.refuse(Refusal::EntityExists);
        }
        self.made = Some(reading.min(MAX_MOMENT));
        self.numbers.entries = self.numbers.entries.saturating_add(1);
        self.numbers.changing = self.numbers.changing.saturating_add(1);
        Ok(Answered::New(Reply::Done))
    }

    fn refuse(&mut self, refusal: Refusal) -> Answer
        ensures answer { result ≡ Err refusal }
        ensures same { (self.new.made ≡ self.old.made) × (self.new.numbers.changing ≡ self.old.numbers.changing) }
        ensures counted { (self.new.numbers.entries ≡ counted (self.old.numbers.entries + 1)) × (self.new.numbers.refused ≡ counted (self.old.numbers.refused + 1)) }
    {
        self.numbers.entries = self.numbers.entries.saturating_add(1);
        self.numbers.refused = self.numbers.refused.saturating_add(1);
        Err(refusal)
    }
}

impl Served for OneQueue {
    ghost state = { λ q. state_at q.made };

    ghost stands = { λ q from h. StandsFor q.made q.numbers from h };

    ghost origin = { λ q. no_disks };

    // It spares no call.
    ghost spared = { none_spared };

    fn mark_of(_path: &Path) -> u64 {
        0
    }

    fn step_group(&mut self, posts: &mut [Post]) -> Stepped {
        for index in 0..posts.len() {
            self.step(&mut posts[index]);
        }
        Stepped {
            entered: 0,
            soonest: u64::MAX,
            sizes: JournalSizes {
                records: 0,
                bytes: 0,
                syncs: 0,
            },
        }
    }

    fn tally(&self) -> Report {
        self.numbers
    }

    ghost legal = { λ v from h s. (s.consistent, s.legal) };

    ghost spares = { λ v from h s. s.spares };
}

// Whether this is the call that makes the queue.
fn is_creation(call: &Call) -> bool
    ensures { result ≡ true → call.now ≡ creation }
{
    match &call.act {
        Act::CreateQueue { name, description } => {
            call.by.is_none() && name.as_str() == "q" && is_default(description)
        }
        _ => false,
    }
}

fn is_default(description: &Description) -> bool
    ensures { result ≡ true → description.now ≡ default_description }
{
    matches!(
        description,
        Description {
            lock: 60,
            ttl: None,
            max_delivery: 10,
            window: None,
            requires_session: false,
            dead_on_expiry: false,
            dead_on_fault: true,
            forward_to: None,
            forward_dead_to: None,
        }
    )
}
