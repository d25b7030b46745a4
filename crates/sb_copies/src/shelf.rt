// The copies of one part, in the order in which they were put there.
ghost use Rattle.std.specs.Prelude.{◌≡◌, ℕ, ◌==◌, ◌&&◌, ◌||◌, ◌≤◌, ◌<◌, ◌+◌, ◌-◌, ◌^◌, nat_le, max, [], ◌∷◌, ◌++◌, length, filter, find, map, if◌then◌else◌, OnOk, OnErr, IfOk, None, Some};
ghost use Rattle.std.specs.Option.{option_map};
ghost use Rattle.sb_machine.specs.Claims.{is_of};
ghost use Rattle.sb_machine.specs.Keyed.{changed};
ghost use Rattle.sb_machine.specs.Leases.{has_ended, is_ready, is_scheduled, is_living, is_named, is_under_session};
ghost use Rattle.sb_machine.specs.Leaves.{has_number, is_deferred, prolonged_standing};
ghost use Rattle.sb_machine.specs.Looks.{is_ready_of, part_shown};
ghost use Rattle.sb_machine.specs.Messages.{has_text_of};
ghost use Rattle.sb_machine.specs.Receiving.{is_ready_for, peeked};
ghost use Rattle.sb_model.specs.declared.message.SystemName.TheVariants.{SessionId};
ghost use Rattle.sb_machine.specs.declared.state.Standing.TheVariants.{Held};
ghost use Rattle.sb_copies.specs.ByLock.{held_lock, locks_taken};
ghost use Rattle.sb_copies.specs.Dues.{due_by, least_of};
ghost use Rattle.sb_copies.specs.Heads.{except, is_among, is_head, is_of_session, is_usual, IsLeast};
ghost use Rattle.sb_copies.specs.Shelf.{row_in, AreBelow, AreInOrder};
ghost use Rattle.sb_copies.specs.Tally.{standing_at};
ghost use Rattle.sb_copies.specs.UnderSession.{under_lock};

use crate::places::{first_from, numbered};
use crate::standings::is_ready;
use crate::tally::{self, Tally};
use crate::{dues, groups, heads, locks, looks, rows, searches, session_locks, sessions};
use sb_index::{Index, Row};
use sb_machine::{CopyShown, Hold, PartShown, Session, Standing, StoredCopy, Token, Which};
use sb_model::Rows;
use slab::Slab;
use std::alloc::{AllocError, Global};
use std::marker::Model;

/// The copies of one part of an entity.
#[derive(Drop)]
pub struct Shelf {
    alloc: Global,
    // Whether its copies come due once they have expired.
    expires: bool,
    slots: Slab<StoredCopy>,
    // by number, the keys of the slots as values
    order: Index,
    // by session, then number, the numbers as values
    by_session: Index,
    // those that are held, by lock, then number
    by_lock: Index,
    // those that are held under a session's lock, by that, then number
    under: Index,
    // So many nodes of these two are promised for holding; one more stands by for each slot.
    locks: usize,
    // how many stand how
    tally: Tally,
}

impl Model for Shelf {
    ghost use Rattle.std.specs.Prelude.{◌≡◌, ◌+◌, ◌≤◌, ◌^◌, length};
    ghost use Rattle.slab.specs.Slab.{slab_len, HasRoomFor};
    ghost use Rattle.sb_copies.specs.ByLock.{HoldsLocks};
    ghost use Rattle.sb_copies.specs.BySession.{HoldsSessions};
    ghost use Rattle.sb_copies.specs.Heads.{heads_in, undue_rows, AreOwn};
    ghost use Rattle.sb_copies.specs.Shelf.{copies_in, AreBelow, Mirrors, Shelved};
    ghost use Rattle.sb_copies.specs.Tally.{Tallies};
    ghost use Rattle.sb_copies.specs.UnderSession.{HoldsUnder};

    ghost Value = { Shelved };

    ghost view = { λ s. record { copies = copies_in s.slots s.order.rows; spare = s.order.spare; locks = s.locks; expires = s.expires; heads = heads_in s.by_session.rows } };

    // No slot is without a row: so none is lost.
    ghost invariant = { λ s. HasRoomFor s.slots s.order.spare × (slab_len s.slots ≡ length s.order.rows) × Mirrors s.expires s.slots s.order.rows × AreBelow (2 ^ 64) (copies_in s.slots s.order.rows) × (s.order.spare ≤ s.by_session.spare) × HoldsSessions (undue_rows s.by_session.rows) (copies_in s.slots s.order.rows) × (s.locks + s.order.spare ≤ s.by_lock.spare) × HoldsLocks s.by_lock.rows (copies_in s.slots s.order.rows) × AreOwn s.by_session.rows × (s.locks + s.order.spare ≤ s.under.spare) × HoldsUnder s.under.rows (copies_in s.slots s.order.rows) × Tallies s.tally (copies_in s.slots s.order.rows) };
}

impl Shelf {
    /// None yet; takes no memory. `expires` is whether copies come due there once they have expired.
    pub fn new(alloc: Global, expires: bool) -> Shelf
        ensures copies { result.copies ≡ [] }
        ensures spare { result.spare ≡ 0 }
        ensures locks { result.locks ≡ 0 }
        ensures expires { result.expires ≡ expires }
        ensures heads { result.heads ≡ [] }
    {
        Shelf {
            alloc,
            expires,
            slots: Slab::new(alloc),
            order: Index::new(alloc),
            by_session: Index::new(alloc),
            by_lock: Index::new(alloc),
            under: Index::new(alloc),
            locks: 0,
            tally: tally::of_none(),
        }
    }

    // ---- room

    /// How many slots are promised.
    pub fn spare(&self) -> usize
        ensures { result ≡ self.now.spare }
    {
        self.order.spare()
    }

    /// Promises at least so many slots; where memory is wanting, all stays.
    pub fn reserve(&mut self, count: usize) -> Result<(), AllocError>
        ensures copies { self.new.copies ≡ self.old.copies }
        ensures spare { OnOk result (self.new.spare ≡ max self.old.spare count) }
        ensures err { OnErr result (self.new.spare ≡ self.old.spare) }
        ensures locks { self.new.locks ≡ self.old.locks }
        ensures expires { self.new.expires ≡ self.old.expires }
        ensures heads { self.new.heads ≡ self.old.heads }
    {
        self.slots.reserve(count)?;
        self.by_session.reserve(count)?;
        let nodes = locks::both(count, self.locks)?;
        self.by_lock.reserve(nodes)?;
        self.under.reserve(nodes)?;
        self.order.reserve(count)
    }

    /// How many slots for holding are promised.
    pub fn locks(&self) -> usize
        ensures { result ≡ self.now.locks }
    {
        self.locks
    }

    /// Promises at least so many slots for holding; where memory is wanting, all stays.
    pub fn reserve_locks(&mut self, count: usize) -> Result<(), AllocError>
        ensures copies { self.new.copies ≡ self.old.copies }
        ensures spare { self.new.spare ≡ self.old.spare }
        ensures locks { OnOk result (self.new.locks ≡ max self.old.locks count) }
        ensures err { OnErr result (self.new.locks ≡ self.old.locks) }
        ensures expires { self.new.expires ≡ self.old.expires }
        ensures heads { self.new.heads ≡ self.old.heads }
    {
        let nodes = locks::both(count, self.order.spare())?;
        self.by_lock.reserve(nodes)?;
        self.under.reserve(nodes)?;
        self.locks = self.locks.max(count);
        Ok(())
    }

    /// Gives one promised slot back; where none is promised, nothing. One node goes back to the
    /// allocator; the slot of the slab and the nodes by session and by lock stay, and serve the next
    /// promise.
    pub fn release(&mut self)
        ensures copies { self.new.copies ≡ self.old.copies }
        ensures spare { self.new.spare ≡ self.old.spare - 1 }
        ensures locks { self.new.locks ≡ self.old.locks }
        ensures expires { self.new.expires ≡ self.old.expires }
        ensures heads { self.new.heads ≡ self.old.heads }
    {
        self.order.forget();
    }

    /// Gives one slot promised for holding back; where none is promised, nothing. Its nodes stay, and
    /// serve the next promise.
    pub fn release_lock(&mut self)
        ensures copies { self.new.copies ≡ self.old.copies }
        ensures spare { self.new.spare ≡ self.old.spare }
        ensures locks { self.new.locks ≡ self.old.locks - 1 }
        ensures expires { self.new.expires ≡ self.old.expires }
        ensures heads { self.new.heads ≡ self.old.heads }
    {
        self.locks = self.locks.saturating_sub(1);
    }

    // ---- when they come due

    /// Whether its copies come due once they have expired.
    pub fn expires(&self) -> bool
        ensures { result ≡ self.now.expires }
    {
        self.expires
    }

    /// The least moment at which one of them comes due by itself, in ms since 1970; `u64::MAX` where
    /// none ever does.
    pub fn least_due(&self) -> u64
        ensures { result ≡ least_of self.now.expires self.now.copies }
    {
        dues::least_due(self.expires, &self.slots, &self.order)
    }

    /// Those that have come due by `moment`, in ms since 1970, in order: no other is looked at.
    pub fn due_by(&self, moment: u64) -> Result<Vec<&StoredCopy>, AllocError>
        ensures { IfOk result (λ found. map (λ c. c.now) found.items ≡ due_by self.now.expires moment self.now.copies) }
    {
        dues::due_by(self.alloc, self.expires, &self.slots, &self.order, moment)
    }

    // ---- reading

    #[tactic(auto, using(crate::proofs::Finding::size_is))]
    pub fn size(&self) -> usize
        ensures { result ≡ length self.now.copies }
    {
        self.order.len()
    }

    /// All of them, in order.
    #[tactic(auto, using(crate::proofs::Finding::all_found))]
    pub fn all(&self) -> Result<Vec<&StoredCopy>, AllocError>
        ensures { IfOk result (λ found. map (λ c. c.now) found.items ≡ self.now.copies) }
    {
        self.due_by(u64::MAX)
    }

    /// The first whose number is at least this one.
    #[tactic(auto, using(crate::proofs::Finding::leads))]
    pub fn first_from(&self, number: u128) -> Option<&StoredCopy>
        ensures { option_map (λ c. c.now) result ≡ find (λ c. nat_le number c.number) self.now.copies }
    {
        first_from(&self.slots, &self.order, number)
    }

    /// The copy of this number.
    #[tactic(auto, using(crate::proofs::Finding::leads))]
    pub fn get(&self, number: u64) -> Option<&StoredCopy>
        ensures { option_map (λ c. c.now) result ≡ find (has_number number) self.now.copies }
    {
        self.rises();
        numbered(&self.slots, &self.order, number)
    }

    /// The first that may be received.
    pub fn first_ready(&self) -> Option<&StoredCopy>
        ensures { option_map (λ c. c.now) result ≡ find (is_ready_for None) self.now.copies }
    {
        searches::ready(&self.slots, &self.order, self.expires)
    }

    /// The first of the session of this id that may be received.
    #[tactic(auto, using(crate::proofs::Finding::leads))]
    pub fn first_ready_of<'a>(&'a self, session: &str) -> Option<&'a StoredCopy>
        ensures { option_map (λ c. c.now) result ≡ find (λ c. is_ready c.standing && has_text_of SessionId session.now c.message) self.now.copies }
    {
        self.rises();
        searches::ready_of(&self.slots, &self.order, &self.by_session, session)
    }

    /// How many of the session of this id may be received. Only copies under the same hash are looked
    /// at.
    #[tactic(auto, using(crate::proofs::Finding::leads))]
    pub fn ready_of(&self, session: &str) -> Result<u64, AllocError>
        ensures { IfOk result (λ n. n ≡ length (filter (is_ready_of session.now) self.now.copies)) }
    {
        self.rises();
        searches::count_ready(
            self.alloc,
            &self.slots,
            &self.order,
            &self.by_session,
            session,
        )
    }

    /// How many copies stand how, and when the first that may be received was enqueued. No other copy
    /// is looked at.
    pub fn shown(&self) -> PartShown
        ensures { result ≡ part_shown self.now.copies }
    {
        let oldest = match self.first_ready() {
            Some(copy) => Some(copy.enqueued),
            None => None,
        };
        tally::shown(self.tally, oldest)
    }

    /// The least number of a head of a session, of those that were told.
    pub fn least_head(&self) -> Option<u64>
        ensures { IsLeast result self.now.heads }
    {
        heads::least(&self.by_session)
    }

    /// The copies that are heads of sessions, of those that were told, in order. No other is looked at.
    #[tactic(auto, using(crate::proofs::Finding::leads))]
    pub fn heads(&self) -> Result<Vec<&StoredCopy>, AllocError>
        ensures { IfOk result (λ found. map (λ c. c.now) found.items ≡ filter (is_head self.now.heads) self.now.copies) }
    {
        self.rises();
        heads::all(self.alloc, &self.slots, &self.order, &self.by_session)
    }

    /// The deferred one of this number.
    #[tactic(auto, using(crate::proofs::Finding::leads))]
    pub fn deferred(&self, number: u64) -> Option<&StoredCopy>
        ensures { option_map (λ c. c.now) result ≡ find (λ c. is_deferred c.standing && (c.number == number) && is_of None c) self.now.copies }
    {
        self.rises();
        searches::deferred(&self.slots, &self.order, number)
    }

    /// The deferred one of this number, of the session of this id.
    #[tactic(auto, using(crate::proofs::Finding::leads))]
    pub fn deferred_of<'a>(&'a self, number: u64, session: &str) -> Option<&'a StoredCopy>
        ensures { option_map (λ c. c.now) result ≡ find (λ c. is_deferred c.standing && (c.number == number) && has_text_of SessionId session.now c.message) self.now.copies }
    {
        self.rises();
        searches::deferred_of(&self.slots, &self.order, number, session)
    }

    /// The scheduled one of this number.
    #[tactic(auto, using(crate::proofs::Finding::leads))]
    pub fn scheduled(&self, number: u64) -> Option<&StoredCopy>
        ensures { option_map (λ c. c.now) result ≡ find (λ c. is_scheduled c.standing && (c.number == number)) self.now.copies }
    {
        self.rises();
        searches::scheduled(&self.slots, &self.order, number)
    }

    /// The one that is named so and has the token's lock, which lives at `moment`, in ms since
    /// 1970; `salt` is the namespace's, `sessions` those of the part.
    #[tactic(auto, using(crate::proofs::Finding::leads))]
    pub fn leased<'a>(
        &'a self,
        salt: u64,
        moment: u64,
        token: Token,
        which: &Which,
        sessions: &[Session],
    ) -> Option<&'a StoredCopy>
        ensures { option_map (λ c. c.now) result ≡ (if token.salt == salt then find (λ c. is_living moment sessions.now token.lock c.standing && is_named which.now c) self.now.copies else None) }
    {
        self.rises();
        if token.salt == salt {
            searches::leased(
                &self.slots,
                &self.order,
                &self.by_lock,
                moment,
                sessions,
                token.lock,
                which,
            )
        } else {
            None
        }
    }

    /// Those that are held as long as the session's lock of this number, in order: no other is looked
    /// at.
    #[tactic(auto, using(crate::proofs::Finding::leads))]
    pub fn under(&self, lock: u64) -> Result<Vec<&StoredCopy>, AllocError>
        ensures { IfOk result (λ found. map (λ c. c.now) found.items ≡ filter (λ c. is_under_session lock c.standing) self.now.copies) }
    {
        self.rises();
        session_locks::held_under(self.alloc, &self.slots, &self.order, &self.under, lock)
    }

    /// Those under a lock that has ended by `moment`, in ms since 1970, in order: what isn't due and is
    /// under no session's lock that has ended isn't looked at. `sessions` are those of the part.
    #[tactic(auto, using(crate::proofs::Finding::leads))]
    pub fn ended(&self, moment: u64, sessions: &[Session]) -> Result<Vec<&StoredCopy>, AllocError>
        ensures { IfOk result (λ found. map (λ c. c.now) found.items ≡ filter (λ c. has_ended moment sessions.now c.standing) self.now.copies) }
    {
        self.rises();
        session_locks::ended(
            self.alloc,
            self.expires,
            &self.slots,
            &self.order,
            &self.under,
            moment,
            sessions,
        )
    }

    /// Up to `count` copies from the number `start` on, as a look shows them.
    #[tactic(auto, using(crate::proofs::Finding::leads))]
    pub fn peek(&self, start: u64, count: u64) -> Result<Rows<CopyShown>, AllocError>
        ensures { IfOk result (λ seen. seen ≡ peeked start count self.now.copies) }
    {
        self.rises();
        let seen = looks::peek(self.alloc, &self.slots, &self.order, start, count)?;
        Ok(Rows::from_vec(seen))
    }

    // ---- changes

    /// Puts a copy behind all others, in a slot that was promised.
    pub fn push(&mut self, copy: StoredCopy)
        requires room { 1 ≤ self.old.spare }
        requires above { AreBelow copy.number self.old.copies }
        ensures copies { self.new.copies ≡ self.old.copies ++ copy ∷ [] }
        ensures spare { self.new.spare ≡ self.old.spare - 1 }
        ensures locks { self.new.locks ≡ self.old.locks }
        ensures expires { self.new.expires ≡ self.old.expires }
        ensures heads { self.new.heads ≡ self.old.heads }
    {
        self.fits();
        self.tally = tally::with_one(self.tally, copy.standing);
        self.by_session.rises();
        self.by_lock.rises();
        self.under.rises();
        sessions::put(&mut self.by_session, &copy);
        locks::put_held(&mut self.by_lock, &copy);
        session_locks::put_under(&mut self.under, &copy);
        let key = self.slots.vacant_key();
        self.order.insert(row_of(self.expires, &copy, key));
        self.slots.insert_reserved(copy);
    }

    /// Takes out the copy of this number.
    #[tactic(auto, using(crate::proofs::Finding::leads))]
    pub fn take(&mut self, number: u64) -> Option<StoredCopy>
        ensures taken { result ≡ find (has_number number) self.old.copies }
        ensures copies { self.new.copies ≡ changed (has_number number) (λ c. []) self.old.copies }
        ensures spare { self.new.spare ≡ self.old.spare }
        ensures locks { self.new.locks ≡ self.old.locks }
        ensures expires { self.new.expires ≡ self.old.expires }
        ensures heads { self.new.heads ≡ except number self.old.heads }
    {
        self.rises();
        let held = self.lock_at(number);
        let under = self.session_lock_at(number);
        let stood = self.standing_at(number);
        let hash = sessions::hash_at(&self.slots, &self.order, number);
        self.tally = tally::gone(self.tally, stood);
        sessions::take(&mut self.by_session, hash, number);
        groups::regroup(&mut self.by_lock, held, number, None);
        groups::regroup(&mut self.under, under, number, None);
        rows::take_row(&mut self.slots, &mut self.order, number)
    }

    /// The copy of this number has this count and stands so; where it is held then, that takes a slot
    /// for holding.
    #[tactic(auto, using(crate::proofs::Finding::leads))]
    pub fn stand(&mut self, number: u64, count: u32, standing: Standing)
        requires room { locks_taken standing ≤ self.old.locks }
        ensures copies { self.new.copies ≡ changed (has_number number) (λ c. record c { count = count; standing = standing } ∷ []) self.old.copies }
        ensures spare { self.new.spare ≡ self.old.spare }
        ensures locks { self.new.locks ≡ self.old.locks - locks_taken standing }
        ensures expires { self.new.expires ≡ self.old.expires }
        ensures heads { self.new.heads ≡ except number self.old.heads }
    {
        self.rises();
        self.fits();
        self.by_lock.rises();
        self.under.rises();
        let held = self.lock_at(number);
        let under = self.session_lock_at(number);
        let stood = self.standing_at(number);
        let hash = sessions::hash_at(&self.slots, &self.order, number);
        self.tally = tally::moved(self.tally, stood, standing);
        let marked = is_ready(standing);
        let due = dues::due_at(self.expires, &self.slots, &self.order, number, standing);
        sessions::mark(&mut self.by_session, hash, number, marked);
        rows::stand_row(&mut self.slots, &self.order, number, count, standing);
        self.order.change(u128::from(number), marked, due);
        groups::regroup(&mut self.by_lock, held, number, locks::lock_of(standing));
        let under_now = session_locks::session_lock_of(standing);
        groups::regroup(&mut self.under, under, number, under_now);
        self.locks -= locks::locks_taken(standing);
    }

    /// The copy of this number is held under the lock of that number, which takes a slot for holding.
    #[tactic(auto, using(crate::proofs::Finding::leads))]
    pub fn hold(&mut self, number: u64, lock: u64, hold: Hold)
        requires room { 1 ≤ self.old.locks }
        ensures copies { self.new.copies ≡ changed (has_number number) (λ c. record c { standing = Held lock hold (is_deferred c.standing) } ∷ []) self.old.copies }
        ensures spare { self.new.spare ≡ self.old.spare }
        ensures locks { self.new.locks ≡ self.old.locks - 1 }
        ensures expires { self.new.expires ≡ self.old.expires }
        ensures heads { self.new.heads ≡ except number self.old.heads }
    {
        self.rises();
        self.fits();
        self.by_lock.rises();
        self.under.rises();
        let held = self.lock_at(number);
        let under = self.session_lock_at(number);
        let stood = self.standing_at(number);
        let hash = sessions::hash_at(&self.slots, &self.order, number);
        let held_now = Standing::Held {
            lock,
            hold,
            deferred: false,
        };
        self.tally = tally::moved(self.tally, stood, held_now);
        let due = dues::moment_of(dues::hold_deadline(hold));
        sessions::mark(&mut self.by_session, hash, number, false);
        rows::hold_row(&mut self.slots, &self.order, number, lock, hold);
        self.order.change(u128::from(number), false, due);
        groups::regroup(&mut self.by_lock, held, number, Some(lock));
        groups::regroup(
            &mut self.under,
            under,
            number,
            session_locks::hold_session(hold),
        );
        self.locks -= 1;
    }

    /// The lock of the copy of this number lives until then, in ms since 1970.
    #[tactic(auto, using(crate::proofs::Finding::leads))]
    pub fn renew(&mut self, number: u64, until: u64)
        ensures copies { self.new.copies ≡ changed (has_number number) (λ c. record c { standing = prolonged_standing until c.standing } ∷ []) self.old.copies }
        ensures spare { self.new.spare ≡ self.old.spare }
        ensures locks { self.new.locks ≡ self.old.locks }
        ensures expires { self.new.expires ≡ self.old.expires }
        ensures heads { self.new.heads ≡ self.old.heads }
    {
        self.rises();
        self.under.rises();
        let under = self.session_lock_at(number);
        let marked = dues::is_ready_at(&self.slots, &self.order, number);
        let due = dues::due_renewed(self.expires, &self.slots, &self.order, number, until);
        rows::prolong_row(&mut self.slots, &self.order, number, until);
        self.order.change(u128::from(number), marked, due);
        groups::regroup(&mut self.under, under, number, None);
    }

    // ---- heads of sessions

    /// Tells that the copy of this number is the head of its session. That is forgotten once it stands
    /// otherwise; of a copy that is of none, or has the greatest number, it isn't kept.
    #[tactic(auto, using(crate::proofs::Finding::leads))]
    pub fn tell_head(&mut self, number: u64)
        ensures locks { self.new.locks ≡ self.old.locks }
        ensures heads { (n : ℕ) → is_among n self.new.heads ≡ ((n == number && (is_usual number && is_of_session number self.old.copies)) || is_among n self.old.heads) }
        ensures copies { self.new.copies ≡ self.old.copies }
        ensures spare { self.new.spare ≡ self.old.spare }
        ensures expires { self.new.expires ≡ self.old.expires }
    {
        self.rises();
        let hash = sessions::hash_at(&self.slots, &self.order, number);
        heads::tell(&mut self.by_session, hash, number, true);
    }

    /// Tells that the copy of this number is no head.
    #[tactic(auto, using(crate::proofs::Finding::leads))]
    pub fn forget_head(&mut self, number: u64)
        ensures locks { self.new.locks ≡ self.old.locks }
        ensures heads { self.new.heads ≡ except number self.old.heads }
        ensures copies { self.new.copies ≡ self.old.copies }
        ensures spare { self.new.spare ≡ self.old.spare }
        ensures expires { self.new.expires ≡ self.old.expires }
    {
        self.rises();
        let hash = sessions::hash_at(&self.slots, &self.order, number);
        heads::tell(&mut self.by_session, hash, number, false);
    }

    // ---- their order, and their locks

    // Under which lock the copy of this number is held, if any; none where there is no such copy.
    fn lock_at(&self, number: u64) -> Option<Option<u64>>
        ensures { result ≡ option_map held_lock (find (has_number number) self.now.copies) }
    {
        match self.get(number) {
            Some(copy) => Some(locks::lock_of(copy.standing)),
            None => None,
        }
    }

    // How the copy of this number stands.
    fn standing_at(&self, number: u64) -> Option<Standing>
        ensures { result ≡ standing_at number self.now.copies }
    {
        match self.get(number) {
            Some(copy) => Some(copy.standing),
            None => None,
        }
    }

    // The same of a session's lock.
    fn session_lock_at(&self, number: u64) -> Option<Option<u64>>
        ensures { result ≡ option_map under_lock (find (has_number number) self.now.copies) }
    {
        match self.get(number) {
            Some(copy) => Some(session_locks::session_lock_of(copy.standing)),
            None => None,
        }
    }

    // With those that may be put there they are fewer than a `u64` can count: for the proofs of counts.
    #[tactic(auto, using(crate::proofs::Finding::size_is))]
    fn fits(&self)
        ensures { length self.now.copies + self.now.spare < 2 ^ 64 }
    {
        let _ = self.slots.capacity();
    }

    /// Their numbers rise: for the proofs of what looks for one.
    #[tactic(auto, using(crate::proofs::Finding::order_mirrored))]
    pub fn rises(&self)
        ensures { AreInOrder self.now.copies }
    {
        self.order.rises();
    }
}

// The row in the index by number of a copy that stands under this key.
fn row_of(expires: bool, copy: &StoredCopy, key: usize) -> Row
    ensures { result ≡ record (row_in expires copy.now) { value = key } }
{
    Row {
        key: u128::from(copy.number),
        value: key as u64,
        marked: is_ready(copy.standing),
        due: dues::due_of(expires, copy),
    }
}
