// Rows of copies in an index by session, under halves of hashes of its ids.
ghost use Rattle.std.specs.Prelude.{◌≡◌, ℕ, ◌+◌, ◌^◌, ◌<◌, ◌≤◌};
ghost use Rattle.sb_index.specs.Rows.{Lacks};
ghost use Rattle.sb_machine.specs.Leases as lease;
ghost use Rattle.sb_copies.specs.BySession as spec;
ghost use Rattle.sb_copies.specs.Grouped.{group_at, group_key, with_grouped};
ghost use Rattle.sb_copies.specs.Shelf.{copies_in, Leads};

use crate::groups;
pub use crate::groups::{mark, take};
use crate::places::numbered;
use crate::standings::is_ready;
use sb_index::{Index, hash_of};
use sb_machine::{StoredCopy, text_of};
use sb_model::SystemName;
use slab::Slab;

/// What the id of a session comes to.
pub fn session_hash(id: &str) -> u64
    ensures hash { result ≡ spec.session_hash id.now }
    ensures half { result < 2 ^ 63 }
{
    hash_of(id.as_bytes()) / 2
}

/// What the id of the session of the copy of this number comes to, where it is of one.
pub fn hash_at(slots: &Slab<StoredCopy>, order: &Index, number: u64) -> Option<u64>
    requires { Leads slots.now order.now.rows }
    ensures { result ≡ group_at spec.session_hash_of number (copies_in slots.now order.now.rows) }
{
    match numbered(slots, order, number) {
        Some(copy) => session_hash_of(copy),
        None => None,
    }
}

fn session_hash_of(copy: &StoredCopy) -> Option<u64>
    ensures { result ≡ spec.session_hash_of copy.now }
{
    match text_of(&copy.message, SystemName::SessionId) {
        Some(id) => Some(session_hash(id.as_str())),
        None => None,
    }
}

/// Puts the row of a copy there, where it is of a session.
pub fn put(by_session: &mut Index, copy: &StoredCopy)
    requires room { 1 ≤ by_session.old.spare }
    requires apart { (h : ℕ) → Lacks (group_key h copy.now.number) by_session.old.rows }
    ensures rows { by_session.new.rows ≡ with_grouped (spec.session_hash_of copy.now) copy.now.number (lease.is_ready copy.now.standing) by_session.old.rows }
    ensures spare { by_session.old.spare ≤ by_session.new.spare + 1 }
{
    let hash = session_hash_of(copy);
    groups::put(by_session, hash, copy.number, is_ready(copy.standing));
}
