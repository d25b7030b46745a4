// Rows of copies in an index by the session's lock under which they are held.
ghost use Rattle.std.specs.Prelude.{◌≡◌, ℕ, ◌+◌, ◌≤◌, ◌++◌, false, filter, map, IfOk};
ghost use Rattle.std.specs.List.{flat_map};
ghost use Rattle.sb_index.specs.Rows.{Lacks};
ghost use Rattle.sb_machine.specs.Leases as lease;
ghost use Rattle.sb_copies.specs.Grouped.{group_key, with_grouped};
ghost use Rattle.sb_copies.specs.Shelf.{copies_in, AreInOrder, Leads, Mirrors};
ghost use Rattle.sb_copies.specs.UnderSession as spec;

use crate::places::numbered_all;
use crate::standings::has_ended;
use crate::{dues, groups, numbers};
use sb_index::Index;
use sb_machine::{Hold, Session, Standing, StoredCopy};
use slab::Slab;
use std::alloc::{AllocError, Global};

/// The session's lock as long as which a hold lasts.
pub fn hold_session(hold: Hold) -> Option<u64>
    ensures { result ≡ spec.hold_session hold }
{
    match hold {
        Hold::Until(_) => None,
        Hold::Session(lock) => Some(lock),
    }
}

/// The session's lock under which a copy that stands so is held.
pub fn session_lock_of(standing: Standing) -> Option<u64>
    ensures { result ≡ spec.session_lock_of standing }
{
    match standing {
        Standing::Held { hold, .. } => hold_session(hold),
        _ => None,
    }
}

/// Puts the row of a copy there, where it is held under a session's lock.
pub fn put_under(under: &mut Index, copy: &StoredCopy)
    requires room { 1 ≤ under.old.spare }
    requires apart { (h : ℕ) → Lacks (group_key h copy.now.number) under.old.rows }
    ensures rows { under.new.rows ≡ with_grouped (spec.under_lock copy.now) copy.now.number false under.old.rows }
    ensures spare { under.old.spare ≤ under.new.spare + 1 }
{
    groups::put(under, session_lock_of(copy.standing), copy.number, false);
}

/// Those that are held under a session's lock, in order: no other is looked at.
pub fn held_under<'a>(
    alloc: Global,
    slots: &'a Slab<StoredCopy>,
    order: &Index,
    under: &Index,
    lock: u64,
) -> Result<Vec<&'a StoredCopy>, AllocError>
    requires order { AreInOrder (copies_in slots.now order.now.rows) }
    requires leads { Leads slots.now order.now.rows }
    requires holds { spec.HoldsUnder under.now.rows (copies_in slots.now order.now.rows) }
    ensures { IfOk result (λ found. map (λ c. c.now) found.items ≡ filter (λ c. lease.is_under_session lock c.standing) (copies_in slots.now order.now.rows)) }
{
    let found = groups::with_numbers(Vec::new(alloc), under, lock)?;
    numbered_all(alloc, slots, order, &found)
}

// ---- those whose lock has ended

/// Those under a lock that has ended by `moment`, in ms since 1970, in order: it looks at what has
/// come due by itself, and at what is under the locks of those of the sessions that ended.
pub fn ended<'a>(
    alloc: Global,
    expires: bool,
    slots: &'a Slab<StoredCopy>,
    order: &Index,
    under: &Index,
    moment: u64,
    sessions: &[Session],
) -> Result<Vec<&'a StoredCopy>, AllocError>
    requires order { AreInOrder (copies_in slots.now order.now.rows) }
    requires leads { Leads slots.now order.now.rows }
    requires mirrored { Mirrors expires slots.now order.now.rows }
    requires holds { spec.HoldsUnder under.now.rows (copies_in slots.now order.now.rows) }
    ensures { IfOk result (λ found. map (λ c. c.now) found.items ≡ filter (λ c. lease.has_ended moment sessions.now c.standing) (copies_in slots.now order.now.rows)) }
{
    let due = dues::due_by(alloc, expires, slots, order, moment)?;
    let found = ended_among(alloc, &due, moment, sessions)?;
    let found = with_sessions(found, under, moment, sessions)?;
    let found = numbers::in_order(alloc, &found)?;
    numbered_all(alloc, slots, order, &found)
}

// The numbers of those whose lock has ended.
fn ended_among(
    alloc: Global,
    copies: &[&StoredCopy],
    moment: u64,
    sessions: &[Session],
) -> Result<Vec<u64>, AllocError>
    ensures { IfOk result (λ found. found.items ≡ map (λ c. c.number) (filter (λ c. lease.has_ended moment sessions.now c.standing) (map (λ c. c.now) copies.now))) }
{
    let mut found = Vec::new(alloc);
    for copy in copies {
        if has_ended(copy.standing, moment, sessions) {
            found.push(copy.number)?;
        }
    }
    Ok(found)
}

// And of those under the locks of the sessions that ended.
fn with_sessions(
    found: Vec<u64>,
    under: &Index,
    moment: u64,
    sessions: &[Session],
) -> Result<Vec<u64>, AllocError>
    ensures { IfOk result (λ v. v.items ≡ found.items ++ flat_map (spec.numbers_ended moment under.now.rows) sessions.now) }
{
    let mut found = found;
    for session in sessions {
        found = with_session(found, under, moment, session)?;
    }
    Ok(found)
}

fn with_session(
    found: Vec<u64>,
    under: &Index,
    moment: u64,
    session: &Session,
) -> Result<Vec<u64>, AllocError>
    ensures { IfOk result (λ v. v.items ≡ found.items ++ spec.numbers_ended moment under.now.rows session.now) }
{
    match ended_lock(session, moment) {
        Some(lock) => groups::with_numbers(found, under, lock),
        None => Ok(found),
    }
}

fn ended_lock(session: &Session, moment: u64) -> Option<u64>
    ensures { result ≡ spec.ended_lock moment session.now }
{
    match session.holder {
        Some(holder) => {
            if holder.until <= moment {
                Some(holder.lock)
            } else {
                None
            }
        }
        None => None,
    }
}
