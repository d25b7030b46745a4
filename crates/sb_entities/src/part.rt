// One part of an entity: its last number, its copies, its sessions.
ghost use Rattle.std.specs.Prelude.{◌≡◌, ◌+◌, ◌≤◌, OnOk, OnErr};
ghost use Rattle.sb_machine.specs.Changes.{max_number};
ghost use Rattle.sb_machine.specs.Leaves as leaves;
ghost use Rattle.sb_copies.specs.Shelf.{AreBelow};
ghost use Rattle.sb_entities.specs.Heads.{HoldsHeads};

use crate::heads;
use crate::place::PartPlace;
use crate::slots::one_more;
use sb_copies::Shelf;
use sb_machine::{Fresh, Leaf, LeafChange, StoredCopy};
use sb_model::Text;
use sb_sessions::Sessions;
use std::alloc::{AllocError, Global};

/// One of an entity's three queues of copies.
#[derive(Drop)]
pub struct PartStore {
    last: u64,
    copies: Shelf,
    sessions: Sessions,
    // No copy's number is above the last that was given.
    ghost numbered: { AreBelow (last + 1) copies.copies },
    ghost bounded: { last ≤ max_number },
    // Of each session that nobody holds the first copy that may be received is told to be its head,
    // and no other copy is.
    ghost heads: { HoldsHeads copies.heads copies.copies sessions.sessions },
}

impl PartStore {
    ghost use Rattle.std.specs.Prelude.{◌≡◌, ◌+◌, ◌-◌, ◌≤◌, ◌++◌, ◌∷◌, [], map, IfOk, OnOk, OnErr};
    ghost use Rattle.std.specs.Option.{option_map};
    ghost use Rattle.sb_machine.specs.Changes.{max_number};
    ghost use Rattle.sb_machine.specs.Leaves as leaves;
    ghost use Rattle.sb_machine.specs.Namespace.{empty_leaf};
    ghost use Rattle.sb_machine.specs.Sessions.{next_session};
    ghost use Rattle.sb_entities.specs.EntityDues.{leaf_due};
    ghost use Rattle.sb_entities.specs.Expiring.{expires_in};
    ghost use Rattle.sb_entities.specs.Released.{part_shrunk};
    ghost use Rattle.sb_entities.specs.Rooms.{part_grown, part_used, HasPartRoom};
    ghost use Rattle.sb_entities.specs.SessionList.{HasSigns};
    ghost use Rattle.sb_entities.specs.Stores.{leaf_in, part_room_in};
    ghost use Rattle.sb_entities.specs.Whole.{IsOrderedLeaf};

    /// The last number given there.
    pub fn last(&self) -> u64
        ensures { result ≡ (leaf_in self.now).last }
    {
        self.last
    }

    pub fn copies(&self) -> &Shelf
        ensures { result.now.copies ≡ (leaf_in self.now).copies }
    {
        &self.copies
    }

    pub fn sessions(&self) -> &Sessions
        ensures { result.now.sessions ≡ (leaf_in self.now).sessions }
    {
        &self.sessions
    }

    /// The id of the next session that nobody holds: that of the first copy that may be received.
    pub fn next_session(&self) -> Option<&Text>
        ensures { option_map (λ x. x.now) result ≡ next_session (leaf_in self.now) (leaf_in self.now).copies }
    {
        heads::next_session(&self.copies, &self.sessions)
    }

    // ---- within this crate

    // `expires` is whether its copies come due once they have expired: those of a main part alone do.
    #[tactic(auto, using(crate::proofs::Leading::holds_none))]
    pub(crate) fn new(alloc: Global, expires: bool) -> PartStore
        ensures leaf { leaf_in result ≡ empty_leaf }
        ensures room { part_room_in result ≡ record { copies = 0; sessions = 0; locks = 0 } }
        ensures expires { expires_in result ≡ expires }
    {
        PartStore {
            last: 0,
            copies: Shelf::new(alloc, expires),
            sessions: Sessions::new(alloc),
        }
    }

    // As a part stands, with no slots; `expires` as for `new`.
    pub(crate) fn from_leaf(
        alloc: Global,
        expires: bool,
        leaf: Leaf,
    ) -> Result<PartStore, AllocError>
        requires { IsOrderedLeaf leaf }
        ensures leaf { IfOk result (λ p. leaf_in p ≡ leaf) }
        ensures expires { IfOk result (λ p. expires_in p ≡ expires) }
    {
        let Leaf {
            last,
            copies,
            sessions,
        } = leaf;
        let sessions = Sessions::from_rows(sessions);
        let copies = heads::shelf_of(alloc, expires, copies, &sessions)?;
        Ok(PartStore {
            last,
            copies,
            sessions,
        })
    }

    // The heads of its sessions, in order: each copy that is the only sign of one is among them. No
    // other is looked at.
    pub(crate) fn heads(&self) -> Result<Vec<&StoredCopy>, AllocError>
        ensures { IfOk result (λ v. HasSigns (leaf_in self.now) (map (λ c. c.now) v.items)) }
    {
        self.copies.heads()
    }

    // When something of it comes due, in ms since 1970.
    pub(crate) fn due(&self) -> u64
        ensures { result ≡ leaf_due (expires_in self.now) (leaf_in self.now) }
    {
        self.copies.least_due().min(self.sessions.least_end())
    }

    // Promises one slot more; where memory is wanting, all stays.
    #[tactic(auto, using(crate::proofs::Leading::holds_still))]
    pub(crate) fn reserve(&mut self, place: PartPlace) -> Result<(), AllocError>
        ensures leaf { leaf_in self.new ≡ leaf_in self.old }
        ensures ok { OnOk result (part_room_in self.new ≡ part_grown place (part_room_in self.old)) }
        ensures err { OnErr result (part_room_in self.new ≡ part_room_in self.old) }
        ensures expires { expires_in self.new ≡ expires_in self.old }
    {
        match place {
            PartPlace::Copies => promise_copy(&mut self.copies),
            PartPlace::Sessions => promise_session(&mut self.sessions),
            PartPlace::Locks => promise_lock(&mut self.copies),
        }
    }

    // Gives one promised slot back; where none is promised, nothing.
    #[tactic(auto, using(crate::proofs::Leading::holds_still))]
    pub(crate) fn release(&mut self, place: PartPlace)
        ensures leaf { leaf_in self.new ≡ leaf_in self.old }
        ensures room { part_room_in self.new ≡ part_shrunk place (part_room_in self.old) }
        ensures expires { expires_in self.new ≡ expires_in self.old }
    {
        match place {
            PartPlace::Copies => self.copies.release(),
            PartPlace::Sessions => self.sessions.release(),
            PartPlace::Locks => self.copies.release_lock(),
        }
    }

    // `lock` is the next lock number, `moment` in ms since 1970.
    pub(crate) fn change(&mut self, lock: u64, moment: u64, change: LeafChange)
        requires room { HasPartRoom change (part_room_in self.old) }
        requires fits { (leaf_in self.old).last + leaves.copies_given change ≤ max_number }
        ensures leaf { leaf_in self.new ≡ leaves.leaf_after lock moment change (leaf_in self.old) }
        ensures room { part_room_in self.new ≡ part_used change (part_room_in self.old) }
        ensures expires { expires_in self.new ≡ expires_in self.old }
    {
        match change {
            LeafChange::Enters(fresh) => self.enter(moment, fresh),
            LeafChange::Passes(_) => self.last += 1,
            LeafChange::Ends { number, .. } => {
                heads::end(&mut self.copies, &self.sessions, number);
            }
            LeafChange::Holds { number, hold } => {
                heads::hold(&mut self.copies, &self.sessions, number, lock, hold);
            }
            LeafChange::Stands {
                number,
                count,
                standing,
                ..
            } => heads::stand(&mut self.copies, &self.sessions, number, count, standing),
            LeafChange::Renews { number, until } => self.copies.renew(number, until),
            LeafChange::Opens { id, until } => {
                heads::open(&mut self.copies, &mut self.sessions, id, lock, until);
            }
            LeafChange::Closes { lock: held } => {
                heads::close(&mut self.copies, &mut self.sessions, held);
            }
            LeafChange::Prolongs { lock: held, until } => self.sessions.prolong(held, until),
            LeafChange::Writes { lock: held, state } => self.sessions.write(held, state),
        }
    }

    fn enter(&mut self, moment: u64, fresh: Fresh)
        requires room { 1 ≤ (part_room_in self.old).copies }
        requires fits { (leaf_in self.old).last + 1 ≤ max_number }
        ensures leaf { let leaf = leaf_in self.old in leaf_in self.new ≡ record leaf { last = leaf.last + 1; copies = leaf.copies ++ leaves.stored (leaf.last + 1) moment fresh ∷ [] } }
        ensures room { let room = part_room_in self.old in part_room_in self.new ≡ record room { copies = room.copies - 1 } }
        ensures expires { expires_in self.new ≡ expires_in self.old }
    {
        let number = self.last + 1;
        let copy = stored(number, moment, fresh);
        heads::enter(&mut self.copies, &self.sessions, copy);
        self.last = number;
    }
}

// A copy that gets its number at a moment.
fn stored(number: u64, moment: u64, fresh: Fresh) -> StoredCopy
    ensures { result ≡ leaves.stored number moment fresh }
{
    let Fresh {
        seq,
        hops,
        standing,
        message,
    } = fresh;
    StoredCopy {
        number,
        enqueued_seq: seq.unwrap_or(number),
        enqueued: moment,
        count: 0,
        hops,
        standing,
        message,
    }
}

fn promise_copy(copies: &mut Shelf) -> Result<(), AllocError>
    ensures copies { copies.new.copies ≡ copies.old.copies }
    ensures locks { copies.new.locks ≡ copies.old.locks }
    ensures heads { copies.new.heads ≡ copies.old.heads }
    ensures ok { OnOk result (copies.new.spare ≡ copies.old.spare + 1) }
    ensures err { OnErr result (copies.new.spare ≡ copies.old.spare) }
    ensures expires { copies.new.expires ≡ copies.old.expires }
{
    let count = one_more(copies.spare())?;
    copies.reserve(count)
}

fn promise_lock(copies: &mut Shelf) -> Result<(), AllocError>
    ensures copies { copies.new.copies ≡ copies.old.copies }
    ensures spare { copies.new.spare ≡ copies.old.spare }
    ensures heads { copies.new.heads ≡ copies.old.heads }
    ensures ok { OnOk result (copies.new.locks ≡ copies.old.locks + 1) }
    ensures err { OnErr result (copies.new.locks ≡ copies.old.locks) }
    ensures expires { copies.new.expires ≡ copies.old.expires }
{
    let count = one_more(copies.locks())?;
    copies.reserve_locks(count)
}

fn promise_session(sessions: &mut Sessions) -> Result<(), AllocError>
    ensures sessions { sessions.new.sessions ≡ sessions.old.sessions }
    ensures ok { OnOk result (sessions.new.spare ≡ sessions.old.spare + 1) }
    ensures err { OnErr result (sessions.new.spare ≡ sessions.old.spare) }
{
    let count = one_more(sessions.spare())?;
    sessions.reserve(count)
}
