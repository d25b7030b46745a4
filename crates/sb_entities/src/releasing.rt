// Giving back the slots that were promised for changes.
ghost use Rattle.std.specs.Prelude.{◌≡◌, take};
ghost use Rattle.sb_entities.specs.Places as places;
ghost use Rattle.sb_entities.specs.Released.{stock_grown_by, stock_shrunk, stock_shrunk_at};
ghost use Rattle.sb_entities.specs.Stocks.{Stock};
ghost use Rattle.sb_entities.specs.Stores.{space_in, stock_in};

use crate::place::{Place, place_of};
use crate::space::SpaceStore;
use sb_machine::{Change, Changes};

impl SpaceStore {
    // What was promised for the first `count` of these changes is promised no more. The last goes
    // first.
    pub(crate) fn release_first(&mut self, changes: &Changes, count: usize)
        ensures space { space_in self.new ≡ space_in self.old }
        ensures stock { (k : Stock) → stock_in self.old ≡ stock_grown_by (take count changes.now) k → stock_in self.new ≡ k }
    {
        for index in (0..count).rev() {
            if let Some(change) = changes.get(index) {
                self.release_for(change);
            }
        }
    }

    fn release_for(&mut self, change: &Change)
        ensures space { space_in self.new ≡ space_in self.old }
        ensures stock { stock_in self.new ≡ stock_shrunk_at (places.place_of change.now) (stock_in self.old) }
    {
        if let Some(place) = place_of(change) {
            self.release_at(place);
        }
    }

    fn release_at(&mut self, place: Place)
        ensures space { space_in self.new ≡ space_in self.old }
        ensures stock { stock_in self.new ≡ stock_shrunk place (stock_in self.old) }
    {
        match place {
            Place::Entities => self.entities.release(),
            Place::Transactions => self.txns.release(),
            Place::InEntity(number, place) => self.entities.release_in(number, place),
            Place::InTransaction(number) => self.txns.release_operation(number),
        }
    }
}
