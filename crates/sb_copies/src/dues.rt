// When copies come due by themselves, in ms since 1970.
ghost use Rattle.std.specs.Prelude.{◌≡◌, ◌++◌, map, find, false, IfOk};
ghost use Rattle.std.specs.Option.{option_map_or};
ghost use Rattle.sb_machine.specs.Leases as lease;
ghost use Rattle.sb_machine.specs.Leaves.{has_number};
ghost use Rattle.sb_copies.specs.Dues as spec;
ghost use Rattle.sb_copies.specs.Shelf.{copies_in, held_at, held_in, Leads, Mirrors};

use crate::places::numbered;
use crate::standings::{is_ready, prolonged};
use sb_index::Index;
use sb_machine::{Hold, Standing, StoredCopy};
use slab::Slab;
use std::alloc::{AllocError, Global};

// The last moment that there is.
const NEVER: u64 = u64::MAX;

/// When a message that was enqueued then has expired, by its time to live in s; none also where
/// that is past 2^64 - 1.
pub fn expiry(enqueued: u64, ttl: Option<u64>) -> Option<u64>
    ensures { result ≡ spec.in_range (spec.expiry enqueued ttl) }
{
    match ttl {
        Some(seconds) => match seconds.checked_mul(1000) {
            Some(life) => enqueued.checked_add(life),
            None => None,
        },
        None => None,
    }
}

/// When a hold ends by itself; one under a session ends with that.
pub fn hold_deadline(hold: Hold) -> Option<u64>
    ensures { result ≡ spec.hold_deadline hold }
{
    match hold {
        Hold::Until(until) => Some(until),
        Hold::Session(_) => None,
    }
}

/// When a copy that stands so comes due, by its expiry, where copies expire or don't.
pub fn standing_due(expires: bool, end: Option<u64>, standing: Standing) -> Option<u64>
    ensures { result ≡ spec.standing_due expires end standing }
{
    match standing {
        Standing::Ready => { if expires { end } else { None } }
        Standing::Deferred => None,
        Standing::Held { hold, .. } => hold_deadline(hold),
        Standing::Scheduled(at) => Some(at),
    }
}

// ---- as moments

/// A deadline as a moment, the last where there is none.
pub fn moment_of(deadline: Option<u64>) -> u64
    ensures { result ≡ spec.moment_of deadline }
{
    match deadline {
        Some(deadline) => deadline,
        None => NEVER,
    }
}

#[tactic(auto, using(crate::proofs::WhenDue::ranged))]
fn due_when(expires: bool, copy: &StoredCopy, standing: Standing) -> u64
    ensures { result ≡ spec.due_when expires copy.now standing }
{
    let end = expiry(copy.enqueued, copy.message.ttl);
    moment_of(standing_due(expires, end, standing))
}

/// When a copy comes due, `u64::MAX` where it never does.
pub fn due_of(expires: bool, copy: &StoredCopy) -> u64
    ensures { result ≡ spec.due_of expires copy.now }
{
    due_when(expires, copy, copy.standing)
}

// ---- of a number

/// When the copy of this number comes due once it stands so.
pub fn due_at(
    expires: bool,
    slots: &Slab<StoredCopy>,
    order: &Index,
    number: u64,
    standing: Standing,
) -> u64
    requires { Leads slots.now order.now.rows }
    ensures { result ≡ spec.due_at expires number standing (copies_in slots.now order.now.rows) }
{
    match numbered(slots, order, number) {
        Some(copy) => due_when(expires, copy, standing),
        None => NEVER,
    }
}

/// When the copy of this number comes due once its lock lives until then.
pub fn due_renewed(
    expires: bool,
    slots: &Slab<StoredCopy>,
    order: &Index,
    number: u64,
    until: u64,
) -> u64
    requires { Leads slots.now order.now.rows }
    ensures { result ≡ spec.due_renewed expires number until (copies_in slots.now order.now.rows) }
{
    match numbered(slots, order, number) {
        Some(copy) => due_when(expires, copy, prolonged(copy.standing, until)),
        None => NEVER,
    }
}

/// Whether the copy of this number may be received.
pub fn is_ready_at(slots: &Slab<StoredCopy>, order: &Index, number: u64) -> bool
    requires { Leads slots.now order.now.rows }
    ensures { result ≡ option_map_or (λ c. lease.is_ready c.standing) (find (has_number number) (copies_in slots.now order.now.rows)) false }
{
    match numbered(slots, order, number) {
        Some(copy) => is_ready(copy.standing),
        None => false,
    }
}

// ---- of all

/// The least moment at which one comes due, by the index that has their rows.
#[tactic(auto, using(crate::proofs::Finding::soonest_some, crate::proofs::Finding::soonest_none))]
pub fn least_due(expires: bool, slots: &Slab<StoredCopy>, order: &Index) -> u64
    requires mirrored { Mirrors expires slots.now order.now.rows }
    ensures { result ≡ spec.least_of expires (copies_in slots.now order.now.rows) }
{
    match order.least_due() {
        Some(due) => due,
        None => NEVER,
    }
}

/// Those that have come due by this moment, in order, by the index that has their rows.
#[tactic(auto, using(crate::proofs::Finding::due_found))]
pub fn due_by<'a>(
    alloc: Global,
    expires: bool,
    slots: &'a Slab<StoredCopy>,
    order: &Index,
    moment: u64,
) -> Result<Vec<&'a StoredCopy>, AllocError>
    requires mirrored { Mirrors expires slots.now order.now.rows }
    ensures { IfOk result (λ found. map (λ c. c.now) found.items ≡ spec.due_by expires moment (copies_in slots.now order.now.rows)) }
{
    let keys = order.due_values(moment)?;
    copies_of(alloc, slots, &keys)
}

// The copies under these keys, in their order.
fn copies_of<'a>(
    alloc: Global,
    slots: &'a Slab<StoredCopy>,
    keys: &[u64],
) -> Result<Vec<&'a StoredCopy>, AllocError>
    ensures { IfOk result (λ found. map (λ c. c.now) found.items ≡ held_in slots.now keys.now) }
{
    let mut found = Vec::new(alloc);
    for key in keys {
        found = with_one(found, slots, *key)?;
    }
    Ok(found)
}

#[tactic(auto, using(crate::proofs::WhenDue::one_more_there, crate::proofs::WhenDue::none_there))]
fn with_one<'a>(
    found: Vec<&'a StoredCopy>,
    slots: &'a Slab<StoredCopy>,
    key: u64,
) -> Result<Vec<&'a StoredCopy>, AllocError>
    ensures { IfOk result (λ v. map (λ c. c.now) v.items ≡ map (λ c. c.now) found.entry.items ++ held_at slots.now key) }
{
    let mut found = found;
    if let Some(copy) = slots.get(key as usize) {
        found.push(copy)?;
    }
    Ok(found)
}
