// Heads of sessions, in the index by session: the row of a head is due at its own number, and that
// of any other copy at the greatest, which none is.
ghost use Rattle.std.specs.Prelude.{◌≡◌, filter, map, if◌then◌else◌, IfOk};
ghost use Rattle.sb_copies.specs.Dues.{never};
ghost use Rattle.sb_copies.specs.Heads as spec;
ghost use Rattle.sb_copies.specs.Shelf.{copies_in, AreInOrder, Leads};

use crate::groups::key_of;
use crate::numbers;
use crate::places::numbered_all;
use sb_index::{Index, Row};
use sb_machine::StoredCopy;
use slab::Slab;
use std::alloc::{AllocError, Global};

const NEVER: u64 = u64::MAX;

/// The least number that a head has.
#[tactic(auto, using(crate::proofs::Told::least_there, crate::proofs::Told::least_nowhere, crate::proofs::Told::least_in_none))]
pub fn least(by_session: &Index) -> Option<u64>
    ensures { spec.IsLeast result (spec.heads_in by_session.now.rows) }
{
    match by_session.least_due() {
        Some(due) => { if due < NEVER { Some(due) } else { None } }
        None => None,
    }
}

/// The copies that are heads, in order: no other is looked at.
pub fn all<'a>(
    alloc: Global,
    slots: &'a Slab<StoredCopy>,
    order: &Index,
    by_session: &Index,
) -> Result<Vec<&'a StoredCopy>, AllocError>
    requires order { AreInOrder (copies_in slots.now order.now.rows) }
    requires leads { Leads slots.now order.now.rows }
    requires own { spec.AreOwn by_session.now.rows }
    ensures { IfOk result (λ found. map (λ c. c.now) found.items ≡ filter (spec.is_head (spec.heads_in by_session.now.rows)) (copies_in slots.now order.now.rows)) }
{
    let told = all_told(by_session)?;
    let told = numbers::in_order(alloc, &told)?;
    numbered_all(alloc, slots, order, &told)
}

// The numbers that heads have, in no order.
#[tactic(auto, using(crate::proofs::HeadFinds::values_told))]
fn all_told(by_session: &Index) -> Result<Vec<u64>, AllocError>
    requires { spec.AreOwn by_session.now.rows }
    ensures { IfOk result (λ found. found.items ≡ spec.heads_in by_session.now.rows) }
{
    by_session.due_values(NEVER - 1)
}

/// The row of the copy of this number is a head's or not, where the copy is of a session whose id
/// comes to a hash.
pub fn tell(by_session: &mut Index, hash: Option<u64>, number: u64, head: bool)
    ensures rows { by_session.new.rows ≡ spec.with_told hash number head by_session.old.rows }
    ensures spare { by_session.new.spare ≡ by_session.old.spare }
{
    if let Some(hash) = hash {
        tell_at(by_session, key_of(hash, number), head);
    }
}

#[tactic(auto, using(crate::proofs::Told::told_there, crate::proofs::Told::told_nowhere))]
fn tell_at(by_session: &mut Index, key: u128, head: bool)
    ensures rows { by_session.new.rows ≡ map (spec.told_head key head) by_session.old.rows }
    ensures spare { by_session.new.spare ≡ by_session.old.spare }
{
    by_session.rises();
    if let Some(row) = by_session.get(key) {
        by_session.change(key, row.marked, due_of(row, head));
    }
}

fn due_of(row: Row, head: bool) -> u64
    ensures { result ≡ (if head then row.value else never) }
{
    if head { row.value } else { NEVER }
}
