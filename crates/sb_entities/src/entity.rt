// One entity with its three parts.
ghost use Rattle.std.specs.Prelude.{◌≡◌, ◌+◌, true, false, OnOk, OnErr};
ghost use Rattle.sb_entities.specs.Expiring.{expires_in};

use crate::change::EntityChange;
use crate::listing::Listing;
use crate::part::PartStore;
use crate::place::{EntityPlace, PartPlace};
use crate::slots::one_more;
use crate::tally::{NOTHING, Tally, change_part};
use sb_machine::{Entity, LeafChange, Listed, Part};
use sb_repeats::Window;
use std::alloc::{AllocError, Global};

/// An entity.
#[derive(Drop)]
pub struct EntityStore {
    listing: Listing,
    ids: Window,
    main: PartStore,
    dead: PartStore,
    transfer: PartStore,
    // In its main part alone messages expire.
    ghost expiring: { expires_in main ≡ true },
    ghost lasting_dead: { expires_in dead ≡ false },
    ghost lasting_transfer: { expires_in transfer ≡ false },
}

impl EntityStore {
    ghost use Rattle.std.specs.Prelude.{◌≡◌, ◌+◌, ◌≤◌, IfOk, OnOk, OnErr};
    ghost use Rattle.sb_machine.specs.Changes.{max_number};
    ghost use Rattle.sb_machine.specs.Leaves.{copies_given};
    ghost use Rattle.sb_machine.specs.Namespace.{leaf_of, live_in, made_in};
    ghost use Rattle.sb_entities.specs.EntityDues.{entity_due};
    ghost use Rattle.sb_entities.specs.Released.{entry_shrunk};
    ghost use Rattle.sb_entities.specs.Rooms.{HasPartRoom, part_room};
    ghost use Rattle.sb_entities.specs.Stocks.{new_entry, entry_after, entry_grown, given_in, IsReady};
    ghost use Rattle.sb_entities.specs.Stores.{leaf_in, entity_in, room_in, entry_in};
    ghost use Rattle.sb_entities.specs.Tallies.{TellsOfEntity};
    ghost use Rattle.sb_entities.specs.Whole.{IsOrdered};
    ghost use Rattle.sb_entities.specs.declared.change.EntityChange.TheVariants.{InPart};
    ghost use Rattle.sb_entities.specs.declared.place.EntityPlace.TheVariants.{OfPart};

    /// What is listed of it.
    pub fn about(&self) -> &Listed
        ensures { result.now ≡ (entity_in self.now).about }
    {
        self.listing.about()
    }

    /// The ids that it accepted.
    pub fn ids(&self) -> &Window
        ensures { result.now.ids ≡ (entity_in self.now).ids }
    {
        &self.ids
    }

    pub fn part(&self, part: Part) -> &PartStore
        ensures { leaf_in result.now ≡ leaf_of part (entity_in self.now) }
    {
        match part {
            Part::Main => &self.main,
            Part::Dead => &self.dead,
            Part::Transfer => &self.transfer,
        }
    }

    // ---- within this crate

    pub(crate) fn new(alloc: Global, about: Listed) -> EntityStore
        ensures { entry_in result ≡ new_entry about }
    {
        EntityStore {
            listing: Listing::new(alloc, about),
            ids: Window::new(alloc),
            main: PartStore::new(alloc, true),
            dead: PartStore::new(alloc, false),
            transfer: PartStore::new(alloc, false),
        }
    }

    // As an entity stands, with no slots.
    pub(crate) fn from_entity(alloc: Global, entity: Entity) -> Result<EntityStore, AllocError>
        requires { IsOrdered entity }
        ensures { IfOk result (λ e. entity_in e ≡ entity) }
    {
        let Entity {
            about,
            ids,
            main,
            dead,
            transfer,
        } = entity;
        let Ok(ids) = Window::from_rows(alloc, ids) else {
            drop((about, main, dead, transfer));
            return Err(AllocError);
        };
        let Ok(main) = PartStore::from_leaf(alloc, true, main) else {
            drop((about, ids, dead, transfer));
            return Err(AllocError);
        };
        let Ok(dead) = PartStore::from_leaf(alloc, false, dead) else {
            drop((about, ids, main, transfer));
            return Err(AllocError);
        };
        let Ok(transfer) = PartStore::from_leaf(alloc, false, transfer) else {
            drop((about, ids, main, dead));
            return Err(AllocError);
        };
        Ok(EntityStore {
            listing: Listing::new(alloc, about),
            ids,
            main,
            dead,
            transfer,
        })
    }

    // The copy numbers given in its parts.
    pub(crate) fn numbers(&self) -> u64
        requires { made_in (entity_in self.now) ≤ max_number }
        ensures { result ≡ made_in (entity_in self.now) }
    {
        self.main.last() + self.dead.last() + self.transfer.last()
    }

    // The copies that live in its parts.
    pub(crate) fn copies(&self) -> u64
        requires { live_in (entity_in self.now) ≤ max_number }
        ensures { result ≡ live_in (entity_in self.now) }
    {
        let main = self.main.copies().size() as u64;
        let dead = self.dead.copies().size() as u64;
        let transfer = self.transfer.copies().size() as u64;
        main + dead + transfer
    }

    // When something of it comes due, in ms since 1970.
    pub(crate) fn due(&self) -> u64
        ensures { result ≡ entity_due (entity_in self.now) }
    {
        let others = self.dead.due().min(self.transfer.due());
        self.main.due().min(others)
    }

    // Promises one slot more; where memory is wanting, all stays.
    pub(crate) fn reserve(&mut self, place: EntityPlace) -> Result<(), AllocError>
        ensures ok { OnOk result (entry_in self.new ≡ entry_grown place (entry_in self.old)) }
        ensures err { OnErr result (entry_in self.new ≡ entry_in self.old) }
    {
        match place {
            EntityPlace::OfPart(part, place) => self.reserve_in_part(part, place),
            EntityPlace::Ids => promise_id(&mut self.ids),
            EntityPlace::Rules => self.listing.reserve(),
        }
    }

    fn reserve_in_part(&mut self, part: Part, place: PartPlace) -> Result<(), AllocError>
        ensures ok { OnOk result (entry_in self.new ≡ entry_grown (OfPart part place) (entry_in self.old)) }
        ensures err { OnErr result (entry_in self.new ≡ entry_in self.old) }
    {
        match part {
            Part::Main => self.main.reserve(place),
            Part::Dead => self.dead.reserve(place),
            Part::Transfer => self.transfer.reserve(place),
        }
    }

    // Gives one promised slot back; where none is promised, nothing.
    pub(crate) fn release(&mut self, place: EntityPlace)
        ensures { entry_in self.new ≡ entry_shrunk place (entry_in self.old) }
    {
        match place {
            EntityPlace::OfPart(part, place) => self.release_in_part(part, place),
            EntityPlace::Ids => self.ids.release(),
            EntityPlace::Rules => self.listing.release(),
        }
    }

    fn release_in_part(&mut self, part: Part, place: PartPlace)
        ensures { entry_in self.new ≡ entry_shrunk (OfPart part place) (entry_in self.old) }
    {
        match part {
            Part::Main => self.main.release(place),
            Part::Dead => self.dead.release(place),
            Part::Transfer => self.transfer.release(place),
        }
    }

    // `moment` is in ms since 1970.
    pub(crate) fn change(&mut self, moment: u64, change: EntityChange) -> Tally
        requires { IsReady change (entry_in self.old) }
        ensures entry { entry_in self.new ≡ entry_after moment change (entry_in self.old) }
        ensures tally { TellsOfEntity result (entity_in self.old) (entity_in self.new) }
        ensures given { result.given ≡ given_in change }
    {
        match change {
            EntityChange::InPart { part, lock, change } => {
                return self.change_part(part, lock, moment, change);
            }
            EntityChange::NotesId(id) => {
                let window = self.listing.about().description.window;
                self.ids.note(window, id, moment);
            }
            EntityChange::GainsRule(rule) => self.listing.add(rule),
            EntityChange::LosesRule(name) => self.listing.drop_rule(&name),
        }
        NOTHING
    }

    fn change_part(&mut self, part: Part, lock: u64, moment: u64, change: LeafChange) -> Tally
        requires room { HasPartRoom change (part_room part (room_in self.old)) }
        requires fits { (leaf_of part (entity_in self.old)).last + copies_given change ≤ max_number }
        ensures entry { entry_in self.new ≡ entry_after moment (InPart part lock change) (entry_in self.old) }
        ensures tally { TellsOfEntity result (entity_in self.old) (entity_in self.new) }
        ensures given { result.given ≡ copies_given change }
    {
        match part {
            Part::Main => change_part(&mut self.main, lock, moment, change),
            Part::Dead => change_part(&mut self.dead, lock, moment, change),
            Part::Transfer => change_part(&mut self.transfer, lock, moment, change),
        }
    }
}

fn promise_id(ids: &mut Window) -> Result<(), AllocError>
    ensures ids { ids.new.ids ≡ ids.old.ids }
    ensures ok { OnOk result (ids.new.spare ≡ ids.old.spare + 1) }
    ensures err { OnErr result (ids.new.spare ≡ ids.old.spare) }
{
    let count = one_more(ids.spare())?;
    ids.reserve(count)
}
