// Heads of sessions: of each session that nobody holds, the first copy that may be received.
ghost use Rattle.std.specs.Prelude.{◌≡◌, ◌≤◌, ◌<◌, ◌-◌, ◌++◌, ◌∷◌, [], IfOk, None};
ghost use Rattle.std.specs.Option.{option_and_then, option_map};
ghost use Rattle.sb_machine.specs.Keyed.{changed};
ghost use Rattle.sb_machine.specs.Leaves.{has_number, is_deferred, is_held_under, opened, remembered};
ghost use Rattle.sb_machine.specs.Sessions.{next_session as next};
ghost use Rattle.sb_machine.specs.declared.state.Leaf.{Leaf};
ghost use Rattle.sb_machine.specs.declared.state.Standing.TheVariants.{Held};
ghost use Rattle.sb_copies.specs.ByLock.{locks_taken};
ghost use Rattle.sb_copies.specs.Dues.{never};
ghost use Rattle.sb_copies.specs.Shelf.{AreBelow, AreInOrder};
ghost use Rattle.sb_sessions.specs.Sessions.{seating};
ghost use Rattle.sb_entities.specs.Heads as spec;

use sb_copies::Shelf;
use sb_machine::{Hold, Standing, StoredCopy, text_of};
use sb_model::{Rows, SystemName, Text};
use sb_sessions::Sessions;
use std::alloc::{AllocError, Global};
use std::collections::VecDeque;

// ---- what is there

/// The id of the session that a copy is of.
pub fn session_of(copy: &StoredCopy) -> Option<&Text>
    ensures { option_map (λ x. x.now) result ≡ spec.session_of copy.now }
{
    text_of(&copy.message, SystemName::SessionId)
}

fn session_at(copies: &Shelf, number: u64) -> Option<&Text>
    ensures { option_map (λ x. x.now) result ≡ spec.session_at number copies.now.copies }
{
    match copies.get(number) {
        Some(copy) => session_of(copy),
        None => None,
    }
}

fn first_of(copies: &Shelf, id: &Text) -> Option<u64>
    ensures { result ≡ spec.first_of id.now copies.now.copies }
{
    match copies.first_ready_of(id.as_str()) {
        Some(copy) => Some(copy.number),
        None => None,
    }
}

fn is_free(sessions: &Sessions, id: &Text) -> bool
    ensures { result ≡ spec.is_free id.now sessions.now.sessions }
{
    match sessions.get(id.as_str()) {
        Some(session) => session.holder.is_none(),
        None => true,
    }
}

#[tactic(auto, using(crate::proofs::Leading::head_free, crate::proofs::Leading::head_held))]
fn head_of(copies: &Shelf, sessions: &Sessions, id: &Text) -> Option<u64>
    ensures { result ≡ spec.head_of id.now copies.now.copies sessions.now.sessions }
{
    if is_free(sessions, id) {
        first_of(copies, id)
    } else {
        None
    }
}

// ---- those of one copy's session

fn first_at(copies: &Shelf, number: u64) -> Option<u64>
    ensures { result ≡ option_and_then (λ id. spec.first_of id copies.now.copies) (spec.session_at number copies.now.copies) }
{
    match session_at(copies, number) {
        Some(id) => first_of(copies, id),
        None => None,
    }
}

fn head_at(copies: &Shelf, sessions: &Sessions, number: u64) -> Option<u64>
    ensures { result ≡ option_and_then (λ id. spec.head_of id copies.now.copies sessions.now.sessions) (spec.session_at number copies.now.copies) }
{
    match session_at(copies, number) {
        Some(id) => head_of(copies, sessions, id),
        None => None,
    }
}

fn forget(copies: &mut Shelf, head: Option<u64>)
    ensures heads { copies.new.heads ≡ spec.left_of head copies.old.heads }
    ensures copies { copies.new.copies ≡ copies.old.copies }
    ensures spare { copies.new.spare ≡ copies.old.spare }
    ensures locks { copies.new.locks ≡ copies.old.locks }
    ensures expires { copies.new.expires ≡ copies.old.expires }
{
    if let Some(number) = head {
        copies.forget_head(number);
    }
}

fn tell(copies: &mut Shelf, head: Option<u64>)
    ensures heads { spec.IsTold head copies.old.copies copies.old.heads copies.new.heads }
    ensures copies { copies.new.copies ≡ copies.old.copies }
    ensures spare { copies.new.spare ≡ copies.old.spare }
    ensures locks { copies.new.locks ≡ copies.old.locks }
    ensures expires { copies.new.expires ≡ copies.old.expires }
{
    if let Some(number) = head {
        copies.tell_head(number);
    }
}

// ---- the next

/// The id of the next session that nobody holds, by the least number that is told.
#[tactic(auto, using(crate::proofs::Next::next_told, crate::proofs::Next::next_none))]
pub fn next_session<'a>(copies: &'a Shelf, sessions: &Sessions) -> Option<&'a Text>
    requires heads { spec.HoldsHeads copies.now.heads copies.now.copies sessions.now.sessions }
    ensures { (leaf : Leaf) → leaf.copies ≡ copies.now.copies → leaf.sessions ≡ sessions.now.sessions → option_map (λ x. x.now) result ≡ next leaf leaf.copies }
{
    copies.rises();
    match copies.least_head() {
        Some(number) => session_at(copies, number),
        None => None,
    }
}

// ---- changes of copies

/// Puts a copy behind all others.
pub fn enter(copies: &mut Shelf, sessions: &Sessions, copy: StoredCopy)
    requires room { 1 ≤ copies.old.spare }
    requires above { AreBelow copy.number copies.old.copies }
    requires usual { copy.number < never }
    requires heads { spec.HoldsHeads copies.old.heads copies.old.copies sessions.now.sessions }
    ensures heads { spec.HoldsHeads copies.new.heads copies.new.copies sessions.now.sessions }
    ensures copies { copies.new.copies ≡ copies.old.copies ++ copy ∷ [] }
    ensures spare { copies.new.spare ≡ copies.old.spare - 1 }
    ensures locks { copies.new.locks ≡ copies.old.locks }
    ensures expires { copies.new.expires ≡ copies.old.expires }
{
    let number = copy.number;
    copies.push(copy);
    copies.rises();
    let head = head_at(copies, sessions, number);
    tell(copies, head);
}

/// Takes out the copy of this number.
pub fn end(copies: &mut Shelf, sessions: &Sessions, number: u64)
    requires below { AreBelow never copies.old.copies }
    requires heads { spec.HoldsHeads copies.old.heads copies.old.copies sessions.now.sessions }
    ensures heads { spec.HoldsHeads copies.new.heads copies.new.copies sessions.now.sessions }
    ensures copies { copies.new.copies ≡ changed (has_number number) (λ c. []) copies.old.copies }
    ensures spare { copies.new.spare ≡ copies.old.spare }
    ensures locks { copies.new.locks ≡ copies.old.locks }
    ensures expires { copies.new.expires ≡ copies.old.expires }
{
    copies.rises();
    let first = first_at(copies, number);
    forget(copies, first);
    let ended = copies.take(number);
    copies.rises();
    let head = head_beside(copies, sessions, &ended);
    tell(copies, head);
}

// The head of the session that a copy was of, which isn't there any more.
fn head_beside(copies: &Shelf, sessions: &Sessions, copy: &Option<StoredCopy>) -> Option<u64>
    ensures { result ≡ option_and_then (λ id. spec.head_of id copies.now.copies sessions.now.sessions) (option_and_then spec.session_of copy.now) }
{
    let Some(copy) = copy else {
        return None;
    };
    match session_of(copy) {
        Some(id) => head_of(copies, sessions, id),
        None => None,
    }
}

/// The copy of this number has this count and stands so.
pub fn stand(copies: &mut Shelf, sessions: &Sessions, number: u64, count: u32, standing: Standing)
    requires below { AreBelow never copies.old.copies }
    requires locks { locks_taken standing ≤ copies.old.locks }
    requires heads { spec.HoldsHeads copies.old.heads copies.old.copies sessions.now.sessions }
    ensures heads { spec.HoldsHeads copies.new.heads copies.new.copies sessions.now.sessions }
    ensures copies { copies.new.copies ≡ changed (has_number number) (λ c. record c { count = count; standing = standing } ∷ []) copies.old.copies }
    ensures spare { copies.new.spare ≡ copies.old.spare }
    ensures locks { copies.new.locks ≡ copies.old.locks - locks_taken standing }
    ensures expires { copies.new.expires ≡ copies.old.expires }
{
    copies.rises();
    let first = first_at(copies, number);
    forget(copies, first);
    copies.stand(number, count, standing);
    copies.rises();
    let head = head_at(copies, sessions, number);
    tell(copies, head);
}

/// The copy of this number is held under the lock of that number.
pub fn hold(copies: &mut Shelf, sessions: &Sessions, number: u64, lock: u64, hold: Hold)
    requires below { AreBelow never copies.old.copies }
    requires locks { 1 ≤ copies.old.locks }
    requires heads { spec.HoldsHeads copies.old.heads copies.old.copies sessions.now.sessions }
    ensures heads { spec.HoldsHeads copies.new.heads copies.new.copies sessions.now.sessions }
    ensures copies { copies.new.copies ≡ changed (has_number number) (λ c. record c { standing = Held lock hold (is_deferred c.standing) } ∷ []) copies.old.copies }
    ensures spare { copies.new.spare ≡ copies.old.spare }
    ensures locks { copies.new.locks ≡ copies.old.locks - 1 }
    ensures expires { copies.new.expires ≡ copies.old.expires }
{
    copies.rises();
    let first = first_at(copies, number);
    forget(copies, first);
    copies.hold(number, lock, hold);
    copies.rises();
    let head = head_at(copies, sessions, number);
    tell(copies, head);
}

// ---- changes of sessions

/// The session of this id, where nobody holds it, is held under the lock of this number until then,
/// in ms since 1970.
pub fn open(copies: &mut Shelf, sessions: &mut Sessions, id: Text, lock: u64, until: u64)
    requires room { 1 ≤ sessions.old.spare }
    requires heads { spec.HoldsHeads copies.old.heads copies.old.copies sessions.old.sessions }
    ensures heads { spec.HoldsHeads copies.new.heads copies.new.copies sessions.new.sessions }
    ensures copies { copies.new.copies ≡ copies.old.copies }
    ensures spare { copies.new.spare ≡ copies.old.spare }
    ensures locks { copies.new.locks ≡ copies.old.locks }
    ensures expires { copies.new.expires ≡ copies.old.expires }
    ensures sessions { sessions.new.sessions ≡ opened lock id until (seating sessions.old.sessions) }
    ensures seats { sessions.new.spare ≡ sessions.old.spare - 1 }
{
    copies.rises();
    let first = first_of(copies, &id);
    forget(copies, first);
    sessions.open(id, lock, until);
}

/// The session that is held under this lock is held no more.
pub fn close(copies: &mut Shelf, sessions: &mut Sessions, lock: u64)
    requires below { AreBelow never copies.old.copies }
    requires heads { spec.HoldsHeads copies.old.heads copies.old.copies sessions.old.sessions }
    ensures heads { spec.HoldsHeads copies.new.heads copies.new.copies sessions.new.sessions }
    ensures copies { copies.new.copies ≡ copies.old.copies }
    ensures spare { copies.new.spare ≡ copies.old.spare }
    ensures locks { copies.new.locks ≡ copies.old.locks }
    ensures expires { copies.new.expires ≡ copies.old.expires }
    ensures sessions { sessions.new.sessions ≡ changed (is_held_under lock) (λ x. remembered (record x { holder = None })) sessions.old.sessions }
    ensures seats { sessions.new.spare ≡ sessions.old.spare }
{
    copies.rises();
    let first = first_held(copies, sessions, lock);
    forget(copies, first);
    sessions.close(lock);
    let head = head_again(copies, sessions, first);
    tell(copies, head);
}

// The first copy of the session that is held under this lock.
fn first_held(copies: &Shelf, sessions: &Sessions, lock: u64) -> Option<u64>
    ensures { result ≡ option_and_then (λ id. spec.first_of id copies.now.copies) (spec.held_id lock sessions.now.sessions) }
{
    match sessions.held_by(lock) {
        Some(session) => first_of(copies, &session.id),
        None => None,
    }
}

// The head of the session that the copy of a number is of.
fn head_again(copies: &Shelf, sessions: &Sessions, first: Option<u64>) -> Option<u64>
    ensures { result ≡ option_and_then (λ n. option_and_then (λ id. spec.head_of id copies.now.copies sessions.now.sessions) (spec.session_at n copies.now.copies)) first }
{
    match first {
        Some(number) => head_at(copies, sessions, number),
        None => None,
    }
}

// ---- all copies at once

/// A shelf that has these copies, beside these sessions. `expires` is whether copies come due there
/// once they have expired.
//
// A slot is promised to one copy at a time: so none is left with nodes that it doesn't need.
#[tactic(auto, using(crate::proofs::Leading::holds_none, crate::proofs::Leading::holds_still, crate::proofs::Fronts::next_below))]
pub fn shelf_of(
    alloc: Global,
    expires: bool,
    copies: Rows<StoredCopy>,
    sessions: &Sessions,
) -> Result<Shelf, AllocError>
    requires order { AreInOrder copies }
    requires below { AreBelow never copies }
    ensures heads { IfOk result (λ s. spec.HoldsHeads s.heads s.copies sessions.now.sessions) }
    ensures copies { IfOk result (λ s. s.copies ≡ copies) }
    ensures expires { IfOk result (λ s. s.expires ≡ expires) }
{
    let mut shelf = Shelf::new(alloc, expires);
    let mut left = VecDeque::from_vec(copies.into_vec());
    while let Some(copy) = left.pop_front() {
        shelf.reserve(1)?;
        enter(&mut shelf, sessions, copy);
    }
    drop(left);
    Ok(shelf)
}
