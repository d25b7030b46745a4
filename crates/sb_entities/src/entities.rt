// The entities of a namespace, in the order in which they were made.
ghost use Rattle.std.specs.Prelude.{◌≡◌, ◌+◌, ◌-◌, ◌≤◌, ◌++◌, ◌∷◌, [], find, map, not, filter, IfOk, OnOk, OnErr};
ghost use Rattle.std.specs.Option.{option_map};
ghost use Rattle.sb_machine.specs.Names as names;
ghost use Rattle.sb_machine.specs.Namespace.{is_entity};
ghost use Rattle.sb_machine.specs.Visits as visits;
ghost use Rattle.sb_entities.specs.EntityDues.{due_entities, least_due_of};
ghost use Rattle.sb_entities.specs.Released.{entry_shrunk};
ghost use Rattle.sb_entities.specs.Stocks.{has_number, entry_after, entry_grown, given_in, on_entry, IsReadyAt};
ghost use Rattle.sb_entities.specs.Stores.{entity_in, entries_in, entities_in};
ghost use Rattle.sb_entities.specs.Tables.{number_of};
ghost use Rattle.sb_entities.specs.Tallies.{TellsOfAll};

use crate::change::EntityChange;
use crate::entity::EntityStore;
use crate::place::EntityPlace;
use crate::slots::one_more;
use crate::tally::Tally;
use crate::{dues, finding, hashes, rows};
use sb_index::Index;
use sb_machine::{Listed, Path};
use std::alloc::{AllocError, Global};
use std::marker::Model;

/// The entities of a namespace, in rising number.
#[derive(Drop)]
pub struct Entities {
    rows: Vec<EntityStore>,
    spare: usize,
    last: u64,
    // When something of each comes due, by number.
    dues: Index,
    // By the hash of the address, then by number.
    by_path: Index,
    // Those of subscriptions by the hash of the topic's name, then by number.
    by_topic: Index,
}

impl Model for Entities {
    ghost use Rattle.std.specs.Prelude.{◌+◌, ◌≤◌, vec_len, vec_capacity};
    ghost use Rattle.sb_machine.specs.Keyed.{AreRising};
    ghost use Rattle.sb_entities.specs.ByHash.{hash_of_path, hash_of_topic, HoldsBy};
    ghost use Rattle.sb_entities.specs.DueRows.{HoldsDues};
    ghost use Rattle.sb_entities.specs.Tables.{number_of, Tabled};
    ghost use Rattle.sb_entities.specs.Views.{entities_in};

    ghost Value = { Tabled };

    ghost view = { λ s. record { rows = s.rows.items; spare = s.spare; last = s.last } };

    ghost invariant = { λ s. AreRising number_of 0 s.last (entities_in s.rows.items) × (vec_len s.rows + s.spare ≤ vec_capacity s.rows) × HoldsDues s.spare s.dues (entities_in s.rows.items) × (s.spare ≤ s.by_path.spare) × (s.spare ≤ s.by_topic.spare) × HoldsBy hash_of_path s.by_path.rows (entities_in s.rows.items) × HoldsBy hash_of_topic s.by_topic.rows (entities_in s.rows.items) };
}

impl Entities {
    ghost use Rattle.sb_machine.specs.Keyed.{AreRising};

    /// None yet; takes no memory.
    pub fn new(alloc: Global) -> Entities
        ensures rows { result.rows ≡ [] }
        ensures spare { result.spare ≡ 0 }
        ensures last { result.last ≡ 0 }
    {
        Entities {
            rows: Vec::new(alloc),
            spare: 0,
            last: 0,
            dues: Index::new(alloc),
            by_path: Index::new(alloc),
            by_topic: Index::new(alloc),
        }
    }

    pub fn as_slice(&self) -> &[EntityStore]
        ensures { result.now ≡ self.now.rows }
    {
        self.rows.as_slice()
    }

    /// The last number given to one.
    pub fn last(&self) -> u64
        ensures { result ≡ self.now.last }
    {
        self.last
    }

    /// The entity of this number.
    pub fn numbered(&self, number: u64) -> Option<&EntityStore>
        ensures { option_map (λ e. entity_in e.now) result ≡ find (is_entity number) (entities_in self.now.rows) }
    {
        rows::numbered(&self.rows, number)
    }

    /// They stand in rising number.
    pub fn are_in_order(&self)
        ensures { AreRising number_of 0 self.now.last (entities_in self.now.rows) }
    {
        self.rows.len();
    }

    // ---- when they come due

    /// Those of which something has come due by `moment`, in ms since 1970, in rising number.
    pub fn due_by(&self, alloc: Global, moment: u64) -> Result<Vec<&EntityStore>, AllocError>
        ensures { IfOk result (λ found. map (λ e. entity_in e.now) found.items ≡ due_entities moment (entities_in self.now.rows)) }
    {
        let numbers = self.dues.due_values(moment)?;
        dues::entities_of(alloc, &self.rows, &numbers)
    }

    /// The least moment at which something of one comes due, in ms since 1970; `u64::MAX` where
    /// nothing ever does.
    pub fn least_due(&self) -> u64
        ensures { result ≡ least_due_of (entities_in self.now.rows) }
    {
        match self.dues.least_due() {
            Some(due) => due,
            None => dues::NEVER,
        }
    }

    // ---- by address

    /// The entity that an address names.
    pub fn at(&self, path: &Path) -> Option<&EntityStore>
        ensures { option_map (λ e. entity_in e.now) result ≡ find (λ e. names.is_same_entity e.about.path path.now) (entities_in self.now.rows) }
    {
        finding::entity_at(&self.rows, &self.by_path, path)
    }

    /// What is listed of the queue or topic of this name.
    pub fn destination(&self, name: &str) -> Option<&Listed>
        ensures { option_map (λ e. e.now) result ≡ visits.destination (map (λ e. e.about) (entities_in self.now.rows)) name.now }
    {
        finding::destination(&self.rows, &self.by_path, name)
    }

    /// What is listed of a topic's subscriptions, in order of name.
    pub fn subscriptions_of(&self, alloc: Global, topic: &str) -> Result<Vec<&Listed>, AllocError>
        ensures { IfOk result (λ v. map (λ e. e.now) v.items ≡ visits.subscriptions_of (map (λ e. e.about) (entities_in self.now.rows)) topic.now) }
    {
        finding::subscriptions_of(alloc, &self.rows, &self.by_topic, topic)
    }

    // ---- room

    /// Promises a slot to one entity more; where memory is wanting, all stays.
    pub fn reserve(&mut self) -> Result<(), AllocError>
        ensures rows { self.new.rows ≡ self.old.rows }
        ensures ok { OnOk result (self.new.spare ≡ self.old.spare + 1) }
        ensures err { OnErr result (self.new.spare ≡ self.old.spare) }
        ensures last { self.new.last ≡ self.old.last }
    {
        let count = one_more(self.spare)?;
        self.dues.reserve(count)?;
        self.by_path.reserve(count)?;
        self.by_topic.reserve(count)?;
        self.rows.reserve(count)?;
        self.spare = count;
        Ok(())
    }

    /// Promises one slot more in the entity of this number; where memory is wanting, all stays.
    pub fn reserve_in(&mut self, number: u64, place: EntityPlace) -> Result<(), AllocError>
        ensures ok { OnOk result (entries_in self.new.rows ≡ on_entry number (entry_grown place) (entries_in self.old.rows)) }
        ensures err { OnErr result (entries_in self.new.rows ≡ entries_in self.old.rows) }
        ensures entities { entities_in self.new.rows ≡ entities_in self.old.rows }
        ensures spare { self.new.spare ≡ self.old.spare }
        ensures last { self.new.last ≡ self.old.last }
    {
        rows::reserve_row(&mut self.rows, number, place)
    }

    /// Gives back a slot that was promised to one entity more; where none is promised, nothing. Its
    /// memory stays, and serves the next promise.
    pub fn release(&mut self)
        ensures rows { self.new.rows ≡ self.old.rows }
        ensures spare { self.new.spare ≡ self.old.spare - 1 }
        ensures last { self.new.last ≡ self.old.last }
    {
        self.spare = self.spare.saturating_sub(1);
    }

    /// Gives back one slot that was promised in the entity of this number; where none is promised
    /// there, or there is no such entity, nothing.
    pub fn release_in(&mut self, number: u64, place: EntityPlace)
        ensures rows { entries_in self.new.rows ≡ on_entry number (entry_shrunk place) (entries_in self.old.rows) }
        ensures entities { entities_in self.new.rows ≡ entities_in self.old.rows }
        ensures spare { self.new.spare ≡ self.old.spare }
        ensures last { self.new.last ≡ self.old.last }
    {
        rows::release_row(&mut self.rows, number, place);
    }

    // ---- changes

    /// Puts an entity of the next number behind all others, in a slot that was promised.
    pub fn push(&mut self, entity: EntityStore)
        requires room { 1 ≤ self.old.spare }
        requires next { number_of (entity_in entity) ≡ self.old.last + 1 }
        ensures rows { self.new.rows ≡ self.old.rows ++ entity ∷ [] }
        ensures spare { self.new.spare ≡ self.old.spare - 1 }
        ensures last { self.new.last ≡ self.old.last + 1 }
    {
        self.dues.insert(dues::row_of(&entity));
        let about = entity.about();
        let number = about.number;
        let hash = hashes::path_hash(&about.path);
        let topic = hashes::topic_hash(&about.path);
        self.by_path.rises();
        self.by_topic.rises();
        hashes::put(&mut self.by_path, Some(hash), number);
        hashes::put(&mut self.by_topic, topic, number);
        self.last = number;
        self.rows.push_reserved(entity);
        self.spare -= 1;
    }

    /// All numbers up to this one have been given, to entities that are there or are gone.
    #[tactic(auto, using(crate::proofs::Rising::rising_passed))]
    pub fn pass(&mut self, last: u64)
        requires { self.old.last ≤ last }
        ensures rows { self.new.rows ≡ self.old.rows }
        ensures spare { self.new.spare ≡ self.old.spare }
        ensures last { self.new.last ≡ last }
    {
        self.last = last;
    }

    /// Takes out those of this number.
    pub fn remove(&mut self, number: u64)
        ensures rows { entries_in self.new.rows ≡ filter (λ x. not (has_number number x)) (entries_in self.old.rows) }
        ensures spare { self.new.spare ≡ self.old.spare }
        ensures last { self.new.last ≡ self.old.last }
    {
        let _ = self.dues.remove(u128::from(number));
        let hash = hashes::path_hash_at(&self.rows, number);
        let topic = hashes::topic_hash_at(&self.rows, number);
        hashes::take(&mut self.by_path, hash, number);
        hashes::take(&mut self.by_topic, topic, number);
        rows::remove_rows(&mut self.rows, number);
    }

    /// Changes the entity of this number at `moment`, in ms since 1970.
    pub fn change(&mut self, number: u64, moment: u64, change: EntityChange) -> Tally
        requires { IsReadyAt number change (entries_in self.old.rows) }
        ensures rows { entries_in self.new.rows ≡ on_entry number (entry_after moment change) (entries_in self.old.rows) }
        ensures tally { TellsOfAll result (entities_in self.old.rows) (entities_in self.new.rows) }
        ensures given { result.given ≤ given_in change }
        ensures spare { self.new.spare ≡ self.old.spare }
        ensures last { self.new.last ≡ self.old.last }
    {
        let tally = rows::change_row(&mut self.rows, number, moment, change);
        dues::tell(&mut self.dues, &self.rows, number);
        tally
    }
}
