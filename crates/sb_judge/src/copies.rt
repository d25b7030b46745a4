// Parts of entities: their copies and their sessions.
ghost use Rattle.std.specs.Prelude.{◌≡◌, ◌+◌, ◌≤◌, ◌&&◌, nat_le, length, bytes_eq, true, Option, Some, None};
ghost use Rattle.std.specs.List.{list_all, list_any, prefix_len, slice_get};
ghost use Rattle.sb_machine.specs.Fields.{is_id as is_short_id};
ghost use Rattle.sb_machine.specs.Leaves as leaves;
ghost use Rattle.sb_machine.specs.Names as names;
ghost use Rattle.sb_machine.specs.Sessions.{max_state, size_of};
ghost use Rattle.sb_judge.specs.Copies as spec;

use crate::messages::is_message;
use crate::sorted::{Numbered, Ordered, are_rising, is_on};
use sb_machine::{Hold, Leaf, Session, Standing, StoredCopy, text_of};
use sb_model::SystemName;
use sb_names::limits::{MAX_COUNT, MAX_NUMBER, MAX_STATE};
use sb_names::{is_id, is_number};

/// How long a lock may live from now on, in ms.
const LONGEST_LOCK: u64 = 300_000;

/// How often a copy may be forwarded.
const MAX_HOPS: u8 = 4;

impl Ordered for Session {
    ghost before = { λ a b. names.is_before a.id b.id };

    fn is_before(&self, other: &Session) -> bool {
        self.id.as_str() < other.id.as_str()
    }
}

impl Numbered for StoredCopy {
    ghost number_of = { λ c. c.number };

    fn number(&self) -> u64 {
        self.number
    }
}

/// Whether this may be a part of an entity at a moment.
#[tactic(auto, unfolding(crate::specs::Copies::leaf_verdict))]
pub(crate) fn is_leaf(moment: u64, leaf: &Leaf) -> bool
    ensures { result ≡ (spec.leaf_verdict moment leaf.now).0 }
{
    let sessions = leaf.sessions.as_slice();
    leaf.last <= MAX_NUMBER
        && are_rising(leaf.copies.as_slice(), leaf.last)
        && are_sessions_in_order(sessions)
        && are_ids_short(sessions)
        && are_sessions(moment, sessions)
        && are_copies(moment, sessions, leaf.copies.as_slice())
}

// ---- locks

/// Whether a lock that ends then is no longer than a lock may be.
pub(crate) fn is_near(moment: u64, end: u64) -> bool
    ensures { result ≡ nat_le end (moment + 300000) }
{
    end.saturating_sub(LONGEST_LOCK) <= moment
}

fn is_held_under(session: &Session, lock: u64) -> bool
    ensures { result ≡ leaves.is_held_under lock session.now }
{
    match session.holder {
        Some(holder) => holder.lock == lock,
        None => false,
    }
}

// How many stand before a session of this id.
fn entry_of(sessions: &[Session], id: &str) -> usize
    requires { (spec.sessions_order sessions.now).0 ≡ true }
    ensures place { result ≡ prefix_len (λ x. names.is_before x.id id.now) sessions.now }
    ensures within { result ≤ length sessions.now }
{
    sessions.partition_point(|x| x.id.as_str() < id)
}

fn is_seat_at(sessions: &[Session], place: usize, lock: u64, id: &str) -> bool
    ensures { result ≡ spec.is_seat_in lock id.now (slice_get sessions.now place) }
{
    match sessions.get(place) {
        Some(session) => is_held_under(session, lock) && id == session.id.as_str(),
        None => false,
    }
}

// Whether the session of this id is there, and is held under this lock.
#[tactic(auto, using(crate::proofs::Placed::seat))]
fn is_seat(sessions: &[Session], lock: u64, id: &str) -> bool
    requires { (spec.sessions_order sessions.now).0 ≡ true }
    ensures { result ≡ list_any (λ x. leaves.is_held_under lock x && bytes_eq id.now x.id) sessions.now }
{
    is_seat_at(sessions, entry_of(sessions, id), lock, id)
}

#[tactic(auto, using(crate::proofs::Placed::no_seat))]
fn is_under(sessions: &[Session], lock: u64, copy: &StoredCopy) -> bool
    requires { (spec.sessions_order sessions.now).0 ≡ true }
    ensures { result ≡ spec.is_under lock copy.now sessions.now }
{
    match text_of(&copy.message, SystemName::SessionId) {
        Some(id) => is_seat(sessions, lock, id.as_str()),
        None => false,
    }
}

#[tactic(auto, unfolding(crate::specs::Copies::hold_verdict))]
fn is_hold(moment: u64, sessions: &[Session], copy: &StoredCopy) -> bool
    requires { (spec.sessions_order sessions.now).0 ≡ true }
    ensures { result ≡ (spec.hold_verdict moment sessions.now copy.now copy.now.standing).0 }
{
    match copy.standing {
        Standing::Held {
            hold: Hold::Until(end),
            ..
        } => is_near(moment, end),
        Standing::Held {
            hold: Hold::Session(lock),
            ..
        } => is_under(sessions, lock, copy),
        Standing::Ready | Standing::Deferred | Standing::Scheduled(_) => true,
    }
}

// ---- copies

#[tactic(auto, unfolding(crate::specs::Copies::copy_verdict))]
fn is_copy(moment: u64, sessions: &[Session], copy: &StoredCopy) -> bool
    requires { (spec.sessions_order sessions.now).0 ≡ true }
    ensures { result ≡ (spec.copy_verdict moment sessions.now copy.now).0 }
{
    copy.enqueued <= moment
        && is_number(copy.enqueued_seq)
        && copy.count <= MAX_COUNT
        && copy.hops <= MAX_HOPS
        && is_hold(moment, sessions, copy)
        && is_message(&copy.message)
        && copy.message.schedule.is_none()
}

fn are_copies(moment: u64, sessions: &[Session], copies: &[StoredCopy]) -> bool
    requires { (spec.sessions_order sessions.now).0 ≡ true }
    ensures { result ≡ list_all (λ c. (spec.copy_verdict moment sessions.now c).0) copies.now }
{
    for copy in copies {
        if !is_copy(moment, sessions, copy) {
            return false;
        }
    }
    true
}

// ---- sessions

#[tactic(auto, using(crate::proofs::InOrder::sessions), unfolding(crate::specs::Copies::sessions_order))]
fn are_sessions_in_order(sessions: &[Session]) -> bool
    ensures { result ≡ (spec.sessions_order sessions.now).0 }
{
    is_on(sessions)
}

fn are_ids_short(sessions: &[Session]) -> bool
    ensures { result ≡ list_all (λ x. is_short_id x.id) sessions.now }
{
    sessions.iter().all(|x| is_id(x.id.as_str()))
}

fn is_state_small(session: &Session) -> bool
    ensures { result ≡ nat_le (size_of session.now.state) max_state }
{
    match &session.state {
        Some(bytes) => bytes.len() <= MAX_STATE,
        None => true,
    }
}

#[tactic(auto, unfolding(crate::specs::Copies::session_verdict))]
fn is_session(moment: u64, session: &Session) -> bool
    ensures { result ≡ (spec.session_verdict moment session.now).0 }
{
    let is_held_well = match session.holder {
        Some(holder) => is_near(moment, holder.until),
        None => true,
    };
    is_state_small(session) && is_held_well
}

fn are_sessions(moment: u64, sessions: &[Session]) -> bool
    ensures { result ≡ list_all (λ x. (spec.session_verdict moment x).0) sessions.now }
{
    sessions.iter().all(|x| is_session(moment, x))
}
