// Rows of copies in an index by the lock under which they are held.
ghost use Rattle.std.specs.Prelude.{◌≡◌, ◌≤◌, ℕ, false, ◌+◌, ◌^◌, ◌&&◌, find, nat_le, IfOk};
ghost use Rattle.std.specs.Option.{option_map};
ghost use Rattle.sb_index.specs.Rows.{Lacks};
ghost use Rattle.sb_machine.specs.Leases as lease;
ghost use Rattle.sb_copies.specs.ByLock as spec;
ghost use Rattle.sb_copies.specs.Grouped.{group_key, is_in_group, with_grouped};
ghost use Rattle.sb_copies.specs.Shelf.{copies_in, AreBelow, AreInOrder, Leads};

use crate::groups::{self, is_within, key_of};
use crate::names;
use crate::places::numbered;
use sb_index::Index;
use sb_machine::{Session, Standing, StoredCopy, Which};
use slab::Slab;
use std::alloc::AllocError;

/// The lock under which a copy that stands so is held.
pub fn lock_of(standing: Standing) -> Option<u64>
    ensures { result ≡ spec.lock_of standing }
{
    match standing {
        Standing::Held { lock, .. } => Some(lock),
        _ => None,
    }
}

/// How many slots for held copies one takes that stands so.
pub fn locks_taken(standing: Standing) -> usize
    ensures { result ≡ spec.locks_taken standing }
{
    match standing {
        Standing::Held { .. } => 1,
        _ => 0,
    }
}

/// Puts the row of a copy there, where it is held.
pub fn put_held(by_lock: &mut Index, copy: &StoredCopy)
    requires room { 1 ≤ by_lock.old.spare }
    requires apart { (h : ℕ) → Lacks (group_key h copy.now.number) by_lock.old.rows }
    ensures rows { by_lock.new.rows ≡ with_grouped (spec.held_lock copy.now) copy.now.number false by_lock.old.rows }
    ensures spare { by_lock.old.spare ≤ by_lock.new.spare + 1 }
{
    groups::put(by_lock, lock_of(copy.standing), copy.number, false);
}

/// Slots for copies, and as many more for held ones; more than a `usize` can count fit in no memory.
pub fn both(copies: usize, held: usize) -> Result<usize, AllocError>
    ensures { IfOk result (λ n. n ≡ copies + held) }
{
    match copies.checked_add(held) {
        Some(sum) => Ok(sum),
        None => Err(AllocError),
    }
}

// ---- the one that is named so

/// The first that is held under the lock of this number and is so named, where that lives at `moment`,
/// in ms since 1970. It looks at no copy but those under this lock.
pub fn leased_of<'a>(
    slots: &'a Slab<StoredCopy>,
    order: &Index,
    by_lock: &Index,
    moment: u64,
    sessions: &[Session],
    lock: u64,
    which: &Which,
) -> Option<&'a StoredCopy>
    requires order { AreInOrder (copies_in slots.now order.now.rows) }
    requires leads { Leads slots.now order.now.rows }
    requires below { AreBelow (2 ^ 64) (copies_in slots.now order.now.rows) }
    requires holds { spec.HoldsLocks by_lock.now.rows (copies_in slots.now order.now.rows) }
    ensures { option_map (λ c. c.now) result ≡ find (λ c. lease.is_living moment sessions.now lock c.standing && lease.is_named which.now c) (copies_in slots.now order.now.rows) }
{
    let mut from = 0;
    'held: while let Some(copy) = held_from(slots, order, by_lock, lock, from) {
        if names::is_leased(copy, moment, sessions, lock, which) {
            return Some(copy);
        }
        let Some(next) = copy.number.checked_add(1) else {
            return None;
        };
        from = next;
    }
    None
}

// The first of those under this lock whose number is at least `from`.
fn held_from<'a>(
    slots: &'a Slab<StoredCopy>,
    order: &Index,
    by_lock: &Index,
    lock: u64,
    from: u64,
) -> Option<&'a StoredCopy>
    requires order { AreInOrder (copies_in slots.now order.now.rows) }
    requires leads { Leads slots.now order.now.rows }
    requires holds { spec.HoldsLocks by_lock.now.rows (copies_in slots.now order.now.rows) }
    ensures { option_map (λ c. c.now) result ≡ find (λ c. nat_le from c.number && is_in_group spec.held_lock lock c) (copies_in slots.now order.now.rows) }
{
    by_lock.rises();
    let Some(row) = by_lock.first_from(key_of(lock, from)) else {
        return None;
    };
    if is_within(row, lock) {
        numbered(slots, order, row.value)
    } else {
        None
    }
}
