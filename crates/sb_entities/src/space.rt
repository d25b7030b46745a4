// The whole namespace.
ghost use Rattle.std.specs.Prelude.{◌≡◌, ◌+◌, ◌≤◌, sum_by};
ghost use Rattle.sb_machine.specs.Namespace.{live_in, made_in};
ghost use Rattle.sb_entities.specs.Transactions.{AreOpened};
ghost use Rattle.sb_entities.specs.Views.{entities_in};

use crate::entities::Entities;
use crate::entity::EntityStore;
use sb_machine::Path;
use sb_txn::Txns;
use std::alloc::Global;

/// A namespace in memory.
#[derive(Drop)]
pub struct SpaceStore {
    pub(crate) alloc: Global,
    pub(crate) salt: u64,
    pub(crate) last_lock: u64,
    pub(crate) last_txn: u64,
    pub(crate) removed: u64,
    // The copies that live, and all numbers that were ever given to copies.
    pub(crate) live: u64,
    pub(crate) made: u64,
    pub(crate) entities: Entities,
    pub(crate) txns: Txns,
    ghost opened: { AreOpened last_txn txns.rows },
    ghost living: { live ≡ sum_by live_in (entities_in entities.rows) },
    ghost given: { made ≡ removed + sum_by made_in (entities_in entities.rows) },
    ghost numbered: { live ≤ made },
}

impl SpaceStore {
    ghost use Rattle.std.specs.Prelude.{map};
    ghost use Rattle.std.specs.Option.{option_map};
    ghost use Rattle.sb_machine.specs.Keyed.{AreRising};
    ghost use Rattle.sb_machine.specs.Namespace as spec;
    ghost use Rattle.sb_txn.specs.Txns.{transactions_of};
    ghost use Rattle.sb_entities.specs.Stores.{space_in, entity_in};

    /// With nothing in it; takes no memory.
    pub fn new(alloc: Global, salt: u64) -> SpaceStore
        ensures { space_in result ≡ spec.empty_space salt }
    {
        SpaceStore {
            alloc,
            salt,
            last_lock: 0,
            last_txn: 0,
            removed: 0,
            live: 0,
            made: 0,
            entities: Entities::new(alloc),
            txns: Txns::new(alloc),
        }
    }

    // ---- numbers

    /// The upper half of each lock token.
    pub fn salt(&self) -> u64
        ensures { result ≡ (space_in self.now).salt }
    {
        self.salt
    }

    /// The last entity number given.
    pub fn last_entity(&self) -> u64
        ensures { result ≡ (space_in self.now).last_entity }
    {
        self.entities.last()
    }

    /// The last lock number given.
    pub fn last_lock(&self) -> u64
        ensures { result ≡ (space_in self.now).last_lock }
    {
        self.last_lock
    }

    /// The last transaction number given.
    pub fn last_txn(&self) -> u64
        ensures { result ≡ (space_in self.now).last_txn }
    {
        self.last_txn
    }

    /// The sum of the last numbers of the parts that were removed.
    pub fn removed(&self) -> u64
        ensures { result ≡ (space_in self.now).removed }
    {
        self.removed
    }

    // ---- counts

    /// The copies that live.
    pub fn live(&self) -> u64
        ensures { result ≡ spec.live (space_in self.now) }
    {
        self.live
    }

    /// All copy numbers that were ever given.
    pub fn made(&self) -> u64
        ensures { result ≡ spec.made (space_in self.now) }
    {
        self.made
    }

    // ---- what is in it

    /// In order of number.
    pub fn entities(&self) -> &[EntityStore]
        ensures { map entity_in result.now ≡ (space_in self.now).entities }
    {
        self.entities.as_slice()
    }

    /// The entity that an address names, whatever its part.
    pub fn at(&self, path: &Path) -> Option<&EntityStore>
        ensures { option_map (λ e. entity_in e.now) result ≡ spec.entity_at path.now (space_in self.now) }
    {
        self.entities.at(path)
    }

    /// The entity of this number.
    pub fn entity(&self, number: u64) -> Option<&EntityStore>
        ensures { option_map (λ e. entity_in e.now) result ≡ spec.entity_of number (space_in self.now) }
    {
        self.entities.numbered(number)
    }

    /// Entities and open transactions stand in rising number, up to the last that was given.
    pub fn is_in_order(&self)
        ensures entities { AreRising (λ e. e.about.number) 0 (space_in self.now).last_entity (space_in self.now).entities }
        ensures transactions { AreRising (λ x. x.number) 0 (space_in self.now).last_txn (space_in self.now).transactions }
    {
        self.entities.are_in_order();
    }

    /// The open transactions.
    pub fn txns(&self) -> &Txns
        ensures { transactions_of result.now.rows ≡ (space_in self.now).transactions }
    {
        &self.txns
    }
}
