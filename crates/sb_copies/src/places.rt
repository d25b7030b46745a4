// Where copies stand: in a slab, under the keys that the rows of an index by number have as values.
ghost use Rattle.std.specs.Prelude.{◌≡◌, ◌++◌, find, map, nat_le, IfOk};
ghost use Rattle.std.specs.Option.{option_map};
ghost use Rattle.sb_machine.specs.Leaves.{has_number};
ghost use Rattle.sb_copies.specs.Shelf.{copies_in, numbered_at, numbered_in, Leads};

use sb_index::Index;
use sb_machine::StoredCopy;
use slab::Slab;
use std::alloc::{AllocError, Global};

/// The copy of this number.
#[tactic(auto, using(crate::proofs::Finding::numbered_there, crate::proofs::Finding::numbered_none))]
pub fn numbered<'a>(
    slots: &'a Slab<StoredCopy>,
    order: &Index,
    number: u64,
) -> Option<&'a StoredCopy>
    requires { Leads slots.now order.now.rows }
    ensures { option_map (λ c. c.now) result ≡ find (has_number number) (copies_in slots.now order.now.rows) }
{
    match order.get(u128::from(number)) {
        Some(row) => slots.get(row.value as usize),
        None => None,
    }
}

/// The first copy whose number is at least this one.
#[tactic(auto, using(crate::proofs::Finding::from_there, crate::proofs::Finding::from_none))]
pub fn first_from<'a>(
    slots: &'a Slab<StoredCopy>,
    order: &Index,
    number: u128,
) -> Option<&'a StoredCopy>
    requires { Leads slots.now order.now.rows }
    ensures { option_map (λ c. c.now) result ≡ find (λ c. nat_le number c.number) (copies_in slots.now order.now.rows) }
{
    match order.first_from(number) {
        Some(row) => slots.get(row.value as usize),
        None => None,
    }
}

/// The copies of these numbers, in their order.
pub fn numbered_all<'a>(
    alloc: Global,
    slots: &'a Slab<StoredCopy>,
    order: &Index,
    numbers: &[u64],
) -> Result<Vec<&'a StoredCopy>, AllocError>
    requires { Leads slots.now order.now.rows }
    ensures { IfOk result (λ found. map (λ c. c.now) found.items ≡ numbered_in (copies_in slots.now order.now.rows) numbers.now) }
{
    let mut found = Vec::new(alloc);
    for number in numbers {
        found = with_numbered(found, slots, order, *number)?;
    }
    Ok(found)
}

#[tactic(auto, using(crate::proofs::Listing::one_more_listed, crate::proofs::Listing::none_listed))]
fn with_numbered<'a>(
    found: Vec<&'a StoredCopy>,
    slots: &'a Slab<StoredCopy>,
    order: &Index,
    number: u64,
) -> Result<Vec<&'a StoredCopy>, AllocError>
    requires { Leads slots.now order.now.rows }
    ensures { IfOk result (λ v. map (λ c. c.now) v.items ≡ map (λ c. c.now) found.entry.items ++ numbered_at (copies_in slots.now order.now.rows) number) }
{
    let mut found = found;
    if let Some(copy) = numbered(slots, order, number) {
        found.push(copy)?;
    }
    Ok(found)
}
