// The namespace as delivery reads it.
use crate::space::SpaceStore;
use sb_machine::{Directory, LeafKey, Listed};
use std::alloc::{AllocError, Global};

impl Directory for SpaceStore {
    ghost use Rattle.sb_machine.specs.Namespace as spec;
    ghost use Rattle.sb_entities.specs.Stores.{space_in};

    ghost listed = { λ s. spec.listed (space_in s) };

    ghost last_of = { λ s key. spec.last_at key (space_in s) };

    fn destination(&self, name: &str) -> Option<&Listed> {
        self.entities.destination(name)
    }

    fn subscriptions_of(&self, alloc: Global, topic: &str) -> Result<Vec<&Listed>, AllocError> {
        self.entities.subscriptions_of(alloc, topic)
    }

    fn last(&self, key: LeafKey) -> u64 {
        match self.entity(key.entity) {
            Some(entity) => entity.part(key.part).last(),
            None => 0,
        }
    }
}
