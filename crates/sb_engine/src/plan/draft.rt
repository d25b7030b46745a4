// What an act would do.
ghost use Rattle.std.specs.Prelude.{◌≡◌, [], ◌∷◌};

use sb_machine::{Change, Changes, Reply};
use std::alloc::Global;

/// A reply, and the changes that it stands for; nothing is changed yet.
#[derive(Drop)]
pub struct Draft {
    pub reply: Reply,
    pub changes: Changes,
}

impl Draft {
    /// A reply that changes nothing; takes no memory.
    pub fn unchanging(alloc: Global, reply: Reply) -> Draft
        ensures reply { result.reply ≡ reply }
        ensures changes { result.changes ≡ [] }
    {
        Draft {
            reply,
            changes: Changes::new(alloc),
        }
    }

    /// A reply with one change; takes no memory.
    pub fn changing(alloc: Global, reply: Reply, change: Change) -> Draft
        ensures reply { result.reply ≡ reply }
        ensures changes { result.changes ≡ change ∷ [] }
    {
        let mut changes = Changes::new(alloc);
        let Ok(()) = changes.push(change) else {
            unreachable!()
        };
        Draft { reply, changes }
    }
}
