// Changes of copies in a slab, which move no other, and of the index by number that leads to them.
ghost use Rattle.std.specs.Prelude.{◌≡◌, ◌≢◌, ℕ, ◌≤◌, ◌+◌, ◌-◌, [], ◌∷◌, ◌++◌, find, length, Some};
ghost use Rattle.slab.specs.Slab.{get, slab_len, HasRoomFor};
ghost use Rattle.sb_index.specs.Rows.{without};
ghost use Rattle.sb_machine.specs.Keyed.{changed};
ghost use Rattle.sb_machine.specs.Leaves.{has_number, is_deferred, prolonged_standing};
ghost use Rattle.sb_machine.specs.declared.state.Standing.TheVariants.{Held};
ghost use Rattle.sb_machine.specs.declared.state.StoredCopy.{StoredCopy as Copy};
ghost use Rattle.sb_copies.specs.Shelf.{copies_in, Leads};

use crate::standings::{is_deferred, prolonged};
use sb_index::Index;
use sb_machine::{Hold, Standing, StoredCopy};
use slab::Slab;

/// Takes the copy of this number out of the slab, and its row out of the index.
pub fn take_row(slots: &mut Slab<StoredCopy>, order: &mut Index, number: u64) -> Option<StoredCopy>
    requires leads { Leads slots.old order.old.rows }
    requires count { slab_len slots.old ≡ length order.old.rows }
    ensures taken { result ≡ find (has_number number) (copies_in slots.old order.old.rows) }
    ensures copies { copies_in slots.new order.new.rows ≡ changed (has_number number) (λ c. []) (copies_in slots.old order.old.rows) }
    ensures rows { order.new.rows ≡ without number order.old.rows }
    ensures spare { order.new.spare ≡ order.old.spare }
    ensures count { slab_len slots.new ≡ length order.new.rows }
    ensures fewer { slab_len slots.new ≤ slab_len slots.old }
    ensures capacity { slots.new.capacity ≡ slots.old.capacity }
{
    order.rises();
    let Some(row) = order.remove(u128::from(number)) else {
        return None;
    };
    slots.try_remove(row.value as usize)
}

fn stand_at(slots: &mut Slab<StoredCopy>, key: usize, count: u32, standing: Standing)
    ensures stands { (c : Copy) → get slots.old key ≡ Some c → get slots.new key ≡ Some (record c { count = count; standing = standing }) }
    ensures others { (other : ℕ) → other ≢ key → get slots.new other ≡ get slots.old other }
    ensures len { slab_len slots.new ≡ slab_len slots.old }
    ensures capacity { slots.new.capacity ≡ slots.old.capacity }
{
    if let Some(copy) = slots.get_mut(key) {
        copy.count = count;
        copy.standing = standing;
    }
}

pub fn stand_row(
    slots: &mut Slab<StoredCopy>,
    order: &Index,
    number: u64,
    count: u32,
    standing: Standing,
)
    requires { Leads slots.old order.now.rows }
    ensures copies { copies_in slots.new order.now.rows ≡ changed (has_number number) (λ c. record c { count = count; standing = standing } ∷ []) (copies_in slots.old order.now.rows) }
    ensures len { slab_len slots.new ≡ slab_len slots.old }
    ensures capacity { slots.new.capacity ≡ slots.old.capacity }
{
    order.rises();
    if let Some(row) = order.get(u128::from(number)) {
        stand_at(slots, row.value as usize, count, standing);
    }
}

fn hold_at(slots: &mut Slab<StoredCopy>, key: usize, lock: u64, hold: Hold)
    ensures stands { (c : Copy) → get slots.old key ≡ Some c → get slots.new key ≡ Some (record c { standing = Held lock hold (is_deferred c.standing) }) }
    ensures others { (other : ℕ) → other ≢ key → get slots.new other ≡ get slots.old other }
    ensures len { slab_len slots.new ≡ slab_len slots.old }
    ensures capacity { slots.new.capacity ≡ slots.old.capacity }
{
    if let Some(copy) = slots.get_mut(key) {
        let deferred = is_deferred(copy.standing);
        copy.standing = Standing::Held {
            lock,
            hold,
            deferred,
        };
    }
}

pub fn hold_row(slots: &mut Slab<StoredCopy>, order: &Index, number: u64, lock: u64, hold: Hold)
    requires { Leads slots.old order.now.rows }
    ensures copies { copies_in slots.new order.now.rows ≡ changed (has_number number) (λ c. record c { standing = Held lock hold (is_deferred c.standing) } ∷ []) (copies_in slots.old order.now.rows) }
    ensures len { slab_len slots.new ≡ slab_len slots.old }
    ensures capacity { slots.new.capacity ≡ slots.old.capacity }
{
    order.rises();
    if let Some(row) = order.get(u128::from(number)) {
        hold_at(slots, row.value as usize, lock, hold);
    }
}

fn prolong_at(slots: &mut Slab<StoredCopy>, key: usize, until: u64)
    ensures stands { (c : Copy) → get slots.old key ≡ Some c → get slots.new key ≡ Some (record c { standing = prolonged_standing until c.standing }) }
    ensures others { (other : ℕ) → other ≢ key → get slots.new other ≡ get slots.old other }
    ensures len { slab_len slots.new ≡ slab_len slots.old }
    ensures capacity { slots.new.capacity ≡ slots.old.capacity }
{
    if let Some(copy) = slots.get_mut(key) {
        copy.standing = prolonged(copy.standing, until);
    }
}

pub fn prolong_row(slots: &mut Slab<StoredCopy>, order: &Index, number: u64, until: u64)
    requires { Leads slots.old order.now.rows }
    ensures copies { copies_in slots.new order.now.rows ≡ changed (has_number number) (λ c. record c { standing = prolonged_standing until c.standing } ∷ []) (copies_in slots.old order.now.rows) }
    ensures len { slab_len slots.new ≡ slab_len slots.old }
    ensures capacity { slots.new.capacity ≡ slots.old.capacity }
{
    order.rises();
    if let Some(row) = order.get(u128::from(number)) {
        prolong_at(slots, row.value as usize, until);
    }
}
