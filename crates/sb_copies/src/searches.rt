// Searches among copies whose numbers rise.
ghost use Rattle.std.specs.Prelude.{◌≡◌, ◌==◌, ◌&&◌, ◌+◌, ◌*◌, ◌^◌, find, filter, length, map, IfOk, None};
ghost use Rattle.std.specs.Option.{option_map};
ghost use Rattle.sb_index.specs.Rows.{is_marked_within};
ghost use Rattle.sb_machine.specs.Claims.{is_of};
ghost use Rattle.sb_machine.specs.Leases as lease;
ghost use Rattle.sb_machine.specs.Leaves.{has_number, is_deferred};
ghost use Rattle.sb_machine.specs.Looks.{is_ready_of};
ghost use Rattle.sb_machine.specs.Messages.{has_text_of};
ghost use Rattle.sb_machine.specs.Receiving.{is_ready_for};
ghost use Rattle.sb_model.specs.declared.message.SystemName.TheVariants.{SessionId};
ghost use Rattle.sb_copies.specs.ByLock.{HoldsLocks};
ghost use Rattle.sb_copies.specs.BySession.{session_hash, HoldsSessions};
ghost use Rattle.sb_copies.specs.Grouped.{span};
ghost use Rattle.sb_copies.specs.Heads.{undue_rows};
ghost use Rattle.sb_copies.specs.Shelf.{copies_in, AreBelow, AreInOrder, Leads, Mirrors};

use crate::groups::{SPAN, with_numbers};
use crate::places::{first_from, numbered, numbered_all};
use crate::sessions::session_hash;
use crate::standings::is_living;
use crate::{locks, names};
use sb_index::{Index, Row};
use sb_machine::{Session, StoredCopy, Which};
use slab::Slab;
use std::alloc::{AllocError, Global};

// Above all numbers.
const BEYOND: u128 = 1 << 64;

/// The first that may be received, by the index that has their rows.
#[tactic(auto, using(crate::proofs::Finding::marked_there, crate::proofs::Finding::marked_nowhere))]
pub fn ready<'a>(
    slots: &'a Slab<StoredCopy>,
    order: &Index,
    expires: bool,
) -> Option<&'a StoredCopy>
    requires mirrored { Mirrors expires slots.now order.now.rows }
    requires below { AreBelow (2 ^ 64) (copies_in slots.now order.now.rows) }
    ensures { option_map (λ c. c.now) result ≡ find (is_ready_for None) (copies_in slots.now order.now.rows) }
{
    order.rises();
    match order.first_marked(0, BEYOND) {
        Some(row) => slots.get(row.value as usize),
        None => None,
    }
}

/// The first of the session of this id that may be received, by the index that has their rows.
///
/// Where another session's id comes to the same hash, and the first is that one's, all are looked at.
pub fn ready_of<'a>(
    slots: &'a Slab<StoredCopy>,
    order: &Index,
    by_session: &Index,
    session: &str,
) -> Option<&'a StoredCopy>
    requires order { AreInOrder (copies_in slots.now order.now.rows) }
    requires leads { Leads slots.now order.now.rows }
    requires holds { HoldsSessions (undue_rows by_session.now.rows) (copies_in slots.now order.now.rows) }
    ensures { option_map (λ c. c.now) result ≡ find (λ c. lease.is_ready c.standing && has_text_of SessionId session.now c.message) (copies_in slots.now order.now.rows) }
{
    let Some(row) = first_under(by_session, session) else {
        return None;
    };
    let Some(copy) = numbered(slots, order, row.value) else {
        return ready_somewhere(slots, order, session);
    };
    if names::is_of(copy, session) {
        Some(copy)
    } else {
        ready_somewhere(slots, order, session)
    }
}

// The first marked row of those whose session's id comes to the same as this one.
fn first_under(by_session: &Index, session: &str) -> Option<Row>
    ensures { result ≡ find (is_marked_within (session_hash session.now * span) (session_hash session.now * span + span)) by_session.now.rows }
{
    let from = u128::from(session_hash(session)) * SPAN;
    by_session.first_marked(from, from + SPAN)
}

// The same by a look at each copy in turn.
fn ready_somewhere<'a>(
    slots: &'a Slab<StoredCopy>,
    order: &Index,
    session: &str,
) -> Option<&'a StoredCopy>
    requires order { AreInOrder (copies_in slots.now order.now.rows) }
    requires leads { Leads slots.now order.now.rows }
    ensures { option_map (λ c. c.now) result ≡ find (λ c. lease.is_ready c.standing && has_text_of SessionId session.now c.message) (copies_in slots.now order.now.rows) }
{
    let mut from = 0;
    while let Some(copy) = first_from(slots, order, from) {
        if names::is_ready_of(copy, session) {
            return Some(copy);
        }
        from = u128::from(copy.number) + 1;
    }
    None
}

/// How many of the session of this id may be received. No copy is looked at but those whose session's
/// id comes to the same hash.
pub fn count_ready(
    alloc: Global,
    slots: &Slab<StoredCopy>,
    order: &Index,
    by_session: &Index,
    session: &str,
) -> Result<u64, AllocError>
    requires order { AreInOrder (copies_in slots.now order.now.rows) }
    requires leads { Leads slots.now order.now.rows }
    requires holds { HoldsSessions (undue_rows by_session.now.rows) (copies_in slots.now order.now.rows) }
    ensures { IfOk result (λ n. n ≡ length (filter (is_ready_of session.now) (copies_in slots.now order.now.rows))) }
{
    let numbers = with_numbers(Vec::new(alloc), by_session, session_hash(session))?;
    let found = numbered_all(alloc, slots, order, &numbers)?;
    Ok(ready_among(&found, session))
}

fn ready_among(copies: &[&StoredCopy], session: &str) -> u64
    ensures { result ≡ length (filter (is_ready_of session.now) (map (λ c. c.now) copies.now)) }
{
    let mut count = 0;
    for copy in copies {
        if names::is_ready_of(copy, session) {
            count += 1;
        }
    }
    count
}

/// The deferred one of this number.
pub fn deferred<'a>(
    slots: &'a Slab<StoredCopy>,
    order: &Index,
    number: u64,
) -> Option<&'a StoredCopy>
    requires order { AreInOrder (copies_in slots.now order.now.rows) }
    requires leads { Leads slots.now order.now.rows }
    ensures { option_map (λ c. c.now) result ≡ find (λ c. is_deferred c.standing && (c.number == number) && is_of None c) (copies_in slots.now order.now.rows) }
{
    let Some(copy) = numbered(slots, order, number) else {
        return None;
    };
    if names::is_deferred_at(copy, number) {
        Some(copy)
    } else {
        None
    }
}

/// The deferred one of this number, of the session of this id.
pub fn deferred_of<'a>(
    slots: &'a Slab<StoredCopy>,
    order: &Index,
    number: u64,
    session: &str,
) -> Option<&'a StoredCopy>
    requires order { AreInOrder (copies_in slots.now order.now.rows) }
    requires leads { Leads slots.now order.now.rows }
    ensures { option_map (λ c. c.now) result ≡ find (λ c. is_deferred c.standing && (c.number == number) && has_text_of SessionId session.now c.message) (copies_in slots.now order.now.rows) }
{
    let Some(copy) = numbered(slots, order, number) else {
        return None;
    };
    if names::is_deferred_of(copy, number, session) {
        Some(copy)
    } else {
        None
    }
}

/// The scheduled one of this number.
pub fn scheduled<'a>(
    slots: &'a Slab<StoredCopy>,
    order: &Index,
    number: u64,
) -> Option<&'a StoredCopy>
    requires order { AreInOrder (copies_in slots.now order.now.rows) }
    requires leads { Leads slots.now order.now.rows }
    ensures { option_map (λ c. c.now) result ≡ find (λ c. lease.is_scheduled c.standing && (c.number == number)) (copies_in slots.now order.now.rows) }
{
    let Some(copy) = numbered(slots, order, number) else {
        return None;
    };
    if names::is_scheduled_at(copy, number) {
        Some(copy)
    } else {
        None
    }
}

/// The one that is named so and is under the lock of this number, which lives at `moment`, in ms
/// since 1970.
pub fn leased<'a>(
    slots: &'a Slab<StoredCopy>,
    order: &Index,
    by_lock: &Index,
    moment: u64,
    sessions: &[Session],
    lock: u64,
    which: &Which,
) -> Option<&'a StoredCopy>
    requires order { AreInOrder (copies_in slots.now order.now.rows) }
    requires leads { Leads slots.now order.now.rows }
    requires below { AreBelow (2 ^ 64) (copies_in slots.now order.now.rows) }
    requires holds { HoldsLocks by_lock.now.rows (copies_in slots.now order.now.rows) }
    ensures { option_map (λ c. c.now) result ≡ find (λ c. lease.is_living moment sessions.now lock c.standing && lease.is_named which.now c) (copies_in slots.now order.now.rows) }
{
    match which {
        Which::Number(number) => leased_at(slots, order, moment, sessions, lock, *number),
        Which::Id(_) => locks::leased_of(slots, order, by_lock, moment, sessions, lock, which),
    }
}

fn leased_at<'a>(
    slots: &'a Slab<StoredCopy>,
    order: &Index,
    moment: u64,
    sessions: &[Session],
    lock: u64,
    number: u64,
) -> Option<&'a StoredCopy>
    requires order { AreInOrder (copies_in slots.now order.now.rows) }
    requires leads { Leads slots.now order.now.rows }
    ensures { option_map (λ c. c.now) result ≡ find (λ c. lease.is_living moment sessions.now lock c.standing && has_number number c) (copies_in slots.now order.now.rows) }
{
    let Some(copy) = numbered(slots, order, number) else {
        return None;
    };
    if is_living(copy.standing, lock, moment, sessions) {
        Some(copy)
    } else {
        None
    }
}
