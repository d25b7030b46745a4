// Taking the memory that changes need.
ghost use Rattle.std.specs.Prelude.{◌≡◌, ◌+◌, false, is_some, OnOk, OnErr, Some};
ghost use Rattle.std.specs.Result.{IsOk};
ghost use Rattle.std.specs.List.{list_any};
ghost use Rattle.sb_entities.specs.Places as places;
ghost use Rattle.sb_entities.specs.Stocks.{stock_grown, stock_grown_at, on_txn, txn_grown, IsReached};
ghost use Rattle.sb_entities.specs.Stores.{space_in, stock_in, IsRoomFor};
ghost use Rattle.sb_txn.specs.Txns.{transactions_of};

use crate::place::{Place, place_of};
use crate::slots::one_more;
use crate::space::SpaceStore;
use sb_machine::{Change, Changes};
use sb_txn::Txns;
use std::alloc::AllocError;

impl SpaceStore {
    /// Takes the memory that carrying out these changes needs; where it is wanting, the space
    /// stays, with exactly as many slots as before. It counts as wanting, too, where a change adds to
    /// an entity or a transaction whose number is still to be given. Changes that add nothing take
    /// none.
    pub fn reserve(&mut self, changes: &Changes) -> Result<(), AllocError>
        ensures space { space_in self.new ≡ space_in self.old }
        ensures room { OnOk result (IsRoomFor changes.now self.new) }
        ensures free { list_any (λ c. is_some (places.place_of c)) changes.now ≡ false → IsOk result }
        ensures kept { OnErr result (stock_in self.new ≡ stock_in self.old) }
    {
        for index in 0..changes.len() {
            let Some(change) = changes.get(index) else {
                return Ok(());
            };
            if let Err(wanting) = self.reserve_for(change) {
                self.release_first(changes, index);
                return Err(wanting);
            }
        }
        Ok(())
    }

    fn reserve_for(&mut self, change: &Change) -> Result<(), AllocError>
        ensures space { space_in self.new ≡ space_in self.old }
        ensures ok { OnOk result (stock_in self.new ≡ stock_grown_at (places.place_of change.now) (stock_in self.old)) }
        ensures reached { OnOk result (IsReached (places.place_of change.now) (stock_in self.old)) }
        ensures free { is_some (places.place_of change.now) ≡ false → IsOk result }
        ensures err { OnErr result (stock_in self.new ≡ stock_in self.old) }
    {
        match place_of(change) {
            Some(place) => self.reserve_at(place),
            None => Ok(()),
        }
    }

    fn reserve_at(&mut self, place: Place) -> Result<(), AllocError>
        ensures space { space_in self.new ≡ space_in self.old }
        ensures ok { OnOk result (stock_in self.new ≡ stock_grown place (stock_in self.old)) }
        ensures reached { OnOk result (IsReached (Some place) (stock_in self.old)) }
        ensures err { OnErr result (stock_in self.new ≡ stock_in self.old) }
    {
        match place {
            Place::Entities => self.entities.reserve(),
            Place::Transactions => promise_txn(&mut self.txns),
            Place::InEntity(number, place) => {
                if number > self.entities.last() {
                    return Err(AllocError);
                }
                self.entities.reserve_in(number, place)
            }
            Place::InTransaction(number) => {
                if number > self.last_txn {
                    return Err(AllocError);
                }
                promise_operation(&mut self.txns, number)
            }
        }
    }
}

fn promise_txn(txns: &mut Txns) -> Result<(), AllocError>
    ensures rows { txns.new.rows ≡ txns.old.rows }
    ensures ok { OnOk result (txns.new.spare ≡ txns.old.spare + 1) }
    ensures err { OnErr result (txns.new.spare ≡ txns.old.spare) }
{
    let count = one_more(txns.spare())?;
    txns.reserve(count)
}

fn promise_operation(txns: &mut Txns, number: u64) -> Result<(), AllocError>
    ensures ok { OnOk result (txns.new.rows ≡ on_txn number txn_grown txns.old.rows) }
    ensures transactions { transactions_of txns.new.rows ≡ transactions_of txns.old.rows }
    ensures spare { txns.new.spare ≡ txns.old.spare }
    ensures err { OnErr result (txns.new.rows ≡ txns.old.rows) }
{
    let Some(txn) = txns.get(number) else {
        return Ok(());
    };
    let count = one_more(txn.spare())?;
    txns.reserve_operations(number, count)
}
