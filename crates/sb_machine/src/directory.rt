// The entities of a namespace as delivery reads them.
ghost use Rattle.std.specs.Prelude.{◌≡◌, List, ℕ, map, option_map, IfOk};
ghost use Rattle.sb_machine.specs.Visits as visits;
ghost use Rattle.sb_machine.specs.declared.change.LeafKey.{LeafKey as Key};
ghost use Rattle.sb_machine.specs.declared.state.Listed.{Listed as About};

use crate::{LeafKey, Listed};
use std::alloc::{AllocError, Global};

/// Where delivery looks up what is listed of entities, and the last numbers of their parts.
pub trait Directory {
    /// What is listed of the entities, in order.
    ghost listed: { Self → List About };

    /// The last number given in a part; 0 where no such entity is.
    ghost last_of: { Self → Key → ℕ };

    /// The queue or topic of this name.
    fn destination(&self, name: &str) -> Option<&Listed>
        ensures { option_map (λ e. e.now) result ≡ visits.destination (listed self.now) name.now };

    /// A topic's subscriptions, in order of name.
    fn subscriptions_of(&self, alloc: Global, topic: &str) -> Result<Vec<&Listed>, AllocError>
        ensures { IfOk result (λ v. map (λ e. e.now) v.items ≡ visits.subscriptions_of (listed self.now) topic.now) };

    /// The last number given in a part; 0 where no such entity is.
    fn last(&self, key: LeafKey) -> u64
        ensures { result ≡ last_of self.now key };
}
