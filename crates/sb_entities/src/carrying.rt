// Carrying changes out, in memory that was taken before.
ghost use Rattle.std.specs.Prelude.{◌≡◌, ◌+◌, ◌<◌, ◌≤◌, ℕ, true};
ghost use Rattle.sb_machine.specs.Changes.{after_all, is_numbered, max_number};
ghost use Rattle.sb_machine.specs.Leaves as leaves;
ghost use Rattle.sb_machine.specs.Namespace.{made};
ghost use Rattle.sb_machine.specs.declared.change.Change.TheVariants.{InLeaf, Makes, Removes, Begins};
ghost use Rattle.sb_entities.specs.Numbers.{Fits};
ghost use Rattle.sb_entities.specs.Stocks.{entry_after, given_in, on_entry, stock_after, space_of, HasRoomFor, IsReadyAt};
ghost use Rattle.sb_entities.specs.Stores.{entries_in, space_in, stock_in, IsRoomFor};

use crate::change::EntityChange;
use crate::entity::EntityStore;
use crate::rows::{copies_in, numbers_in};
use crate::space::SpaceStore;
use sb_machine::{
    Change, Changes, Description, EntityKind, LeafChange, LeafKey, Listed, Path, Rule,
};
use sb_model::Rows;

impl SpaceStore {
    /// Carries out these changes at `moment`, in ms since 1970. It takes no memory.
    pub fn carry_out(&mut self, moment: u64, changes: Changes)
        requires room { IsRoomFor changes self.old }
        requires numbered { is_numbered moment changes (space_in self.old) ≡ true }
        ensures space { space_in self.new ≡ after_all moment changes (space_in self.old) }
    {
        let mut left = changes;
        while let Some(change) = left.take_first() {
            self.carry(moment, change);
        }
        drop(left);
    }

    fn carry(&mut self, moment: u64, change: Change)
        requires room { HasRoomFor change (stock_in self.old) }
        requires fits { Fits moment change (space_of (stock_in self.old)) }
        ensures { stock_in self.new ≡ stock_after moment change (stock_in self.old) }
    {
        match change {
            Change::InLeaf { key, change } => self.carry_leaf(moment, key, change),
            Change::Notes { entity, id } => {
                self.change_entity(entity, moment, EntityChange::NotesId(id));
            }
            Change::Makes {
                kind,
                path,
                description,
                rules,
            } => self.make(kind, path, description, rules),
            Change::Removes { entity } => self.remove(entity),
            Change::AddsRule { entity, rule } => {
                self.change_entity(entity, moment, EntityChange::GainsRule(rule));
            }
            Change::DropsRule { entity, name } => {
                self.change_entity(entity, moment, EntityChange::LosesRule(name));
            }
            Change::Begins { entity, deadline } => self.begin(entity, deadline),
            Change::Queues {
                txn,
                deadline,
                operation,
            } => self.txns.queue(txn, deadline, operation),
            Change::Drops { txn } => {
                drop(self.txns.drop_txn(txn));
            }
        }
    }

    fn carry_leaf(&mut self, moment: u64, key: LeafKey, change: LeafChange)
        requires room { HasRoomFor (InLeaf key change) (stock_in self.old) }
        requires fits { Fits moment (InLeaf key change) (space_of (stock_in self.old)) }
        ensures { stock_in self.new ≡ stock_after moment (InLeaf key change) (stock_in self.old) }
    {
        let lock = self.last_lock + 1;
        self.last_lock += locks_given(&change);
        let change = EntityChange::InPart {
            part: key.part,
            lock,
            change,
        };
        self.change_entity(key.entity, moment, change);
    }

    fn change_entity(&mut self, number: u64, moment: u64, change: EntityChange)
        requires ready { IsReadyAt number change (entries_in self.old.entities.rows) }
        requires fits { self.old.made + given_in change ≤ max_number }
        ensures { let stock = stock_in self.old in stock_in self.new ≡ record stock { entries = on_entry number (entry_after moment change) stock.entries } }
    {
        let tally = self.entities.change(number, moment, change);
        self.live = self.live + tally.entered - tally.ended;
        self.made += tally.given;
    }

    fn make(&mut self, kind: EntityKind, path: Path, description: Description, rules: Rows<Rule>)
        requires room { HasRoomFor (Makes kind path description rules) (stock_in self.old) }
        requires fits { self.old.entities.last < max_number }
        ensures { (t : ℕ) → stock_in self.new ≡ stock_after t (Makes kind path description rules) (stock_in self.old) }
    {
        let about = Listed {
            number: self.entities.last() + 1,
            kind,
            path,
            description,
            rules,
        };
        self.entities.push(EntityStore::new(self.alloc, about));
    }

    fn remove(&mut self, entity: u64)
        requires { made (space_of (stock_in self.old)) ≤ max_number }
        ensures { (t : ℕ) → stock_in self.new ≡ stock_after t (Removes entity) (stock_in self.old) }
    {
        self.live -= copies_in(self.entities.as_slice(), entity);
        self.removed += numbers_in(self.entities.as_slice(), entity);
        self.entities.remove(entity);
        self.txns.remove_of(entity);
    }

    fn begin(&mut self, entity: u64, deadline: u64)
        requires room { HasRoomFor (Begins entity deadline) (stock_in self.old) }
        requires fits { self.old.last_txn < max_number }
        ensures { (t : ℕ) → stock_in self.new ≡ stock_after t (Begins entity deadline) (stock_in self.old) }
    {
        self.last_txn += 1;
        self.txns.begin(self.last_txn, entity, deadline);
    }
}

// How many lock numbers a change gives.
fn locks_given(change: &LeafChange) -> u64
    ensures { result ≡ leaves.locks_given change.now }
{
    match change {
        LeafChange::Holds { .. } | LeafChange::Opens { .. } => 1,
        _ => 0,
    }
}
