// The sessions of one part, by id.
ghost use Rattle.std.specs.Prelude.{◌≡◌, ◌==◌, ◌≤◌, ◌<◌, ◌-◌, ◌^◌, max, [], ◌∷◌, ◌++◌, length, find, if◌then◌else◌, OnOk, OnErr, None};
ghost use Rattle.std.specs.Option.{option_map};
ghost use Rattle.sb_machine.specs.Keyed.{changed};
ghost use Rattle.sb_machine.specs.Leases.{is_living_holder};
ghost use Rattle.sb_machine.specs.Leaves.{has_id, is_held_under, opened, prolonged_holder, remembered};
ghost use Rattle.sb_sessions.specs.Ends.{least_end};
ghost use Rattle.sb_sessions.specs.Sessions.{seating, AreSorted};

use crate::ends::{NEVER, end_under, least_moved, least_of, least_opened};
use crate::rows;
use sb_machine::{Session, Token};
use sb_model::{Rows, Text};
use std::alloc::{AllocError, Global};
use std::marker::Model;

/// The sessions of one part of an entity.
#[derive(Drop)]
pub struct Sessions {
    sessions: Vec<Session>,
    spare: usize,
    // when the first of their locks ends
    least: u64,
}

impl Model for Sessions {
    ghost use Rattle.std.specs.Prelude.{◌≡◌, ◌+◌, ◌≤◌, vec_len, vec_capacity};
    ghost use Rattle.sb_sessions.specs.Ends.{least_end};
    ghost use Rattle.sb_sessions.specs.Sessions.{AreSorted, Seated};

    ghost Value = { Seated };

    ghost view = { λ s. record { sessions = s.sessions.items; spare = s.spare } };

    ghost invariant = { λ s. (vec_len s.sessions + s.spare ≤ vec_capacity s.sessions) × AreSorted s.sessions.items × (s.least ≡ least_end s.sessions.items) };
}

impl Sessions {
    /// None yet; takes no memory.
    pub fn new(alloc: Global) -> Sessions
        ensures sessions { result.sessions ≡ [] }
        ensures spare { result.spare ≡ 0 }
    {
        Sessions {
            sessions: Vec::new(alloc),
            spare: 0,
            least: NEVER,
        }
    }

    /// These, in rising ids; takes no memory.
    pub fn from_rows(sessions: Rows<Session>) -> Sessions
        requires { AreSorted sessions }
        ensures sessions { result.sessions ≡ sessions }
        ensures spare { result.spare ≡ 0 }
    {
        let sessions = sessions.into_vec();
        let least = least_of(&sessions);
        Sessions {
            sessions,
            spare: 0,
            least,
        }
    }

    // ---- room

    /// How many slots are promised.
    pub fn spare(&self) -> usize
        ensures { result ≡ self.now.spare }
    {
        self.spare
    }

    /// Promises at least so many slots; where memory is wanting, all stays.
    pub fn reserve(&mut self, count: usize) -> Result<(), AllocError>
        ensures sessions { self.new.sessions ≡ self.old.sessions }
        ensures spare { OnOk result (self.new.spare ≡ max self.old.spare count) }
        ensures err { OnErr result (self.new.spare ≡ self.old.spare) }
    {
        self.sessions.reserve(count)?;
        if self.spare < count {
            self.spare = count;
        }
        Ok(())
    }

    /// Gives one promised slot back; where none is promised, nothing. Its memory stays, and serves
    /// the next promise.
    pub fn release(&mut self)
        ensures sessions { self.new.sessions ≡ self.old.sessions }
        ensures spare { self.new.spare ≡ self.old.spare - 1 }
    {
        self.spare = self.spare.saturating_sub(1);
    }

    // ---- reading

    pub fn size(&self) -> usize
        ensures value { result ≡ length self.now.sessions }
        ensures bound { result < 2 ^ 63 }
    {
        self.sessions.len()
    }

    pub fn as_slice(&self) -> &[Session]
        ensures { result.now ≡ self.now.sessions }
    {
        self.sessions.as_slice()
    }

    /// The session of this id.
    pub fn get<'a>(&'a self, id: &str) -> Option<&'a Session>
        ensures { option_map (λ x. x.now) result ≡ find (has_id id.now) self.now.sessions }
    {
        rows::session_of(&self.sessions, id)
    }

    /// The one that is held under the lock of this number.
    pub fn held_by(&self, lock: u64) -> Option<&Session>
        ensures { option_map (λ x. x.now) result ≡ find (is_held_under lock) self.now.sessions }
    {
        rows::held_by(&self.sessions, lock)
    }

    /// The one whose living holder the token is at `moment`, in ms since 1970; `salt` is the
    /// namespace's.
    pub fn held(&self, salt: u64, moment: u64, token: Token) -> Option<&Session>
        ensures { option_map (λ x. x.now) result ≡ (if token.salt == salt then find (is_living_holder moment token.lock) self.now.sessions else None) }
    {
        if token.salt == salt {
            rows::living(&self.sessions, moment, token.lock)
        } else {
            None
        }
    }

    /// The least moment at which the lock of one of them ends, in ms since 1970; `u64::MAX` where
    /// nobody holds one.
    pub fn least_end(&self) -> u64
        ensures { result ≡ least_end self.now.sessions }
    {
        self.least
    }

    /// Their ids rise: for the proofs of what lists them.
    pub fn rises(&self)
        ensures { AreSorted self.now.sessions }
    {
        let _ = &self.sessions;
    }

    // ---- changes

    /// The session of this id, where nobody holds it, is held under the lock of this number until
    /// then, in ms since 1970. A slot that was promised is taken, whether or not one is added.
    pub fn open(&mut self, id: Text, lock: u64, until: u64)
        requires room { 1 ≤ self.old.spare }
        ensures sessions { self.new.sessions ≡ opened lock id until (seating self.old.sessions) }
        ensures spare { self.new.spare ≡ self.old.spare - 1 }
    {
        let held = rows::is_held(&self.sessions, id.as_str());
        rows::open_row(&mut self.sessions, id, lock, until);
        self.least = least_opened(self.least, held, until);
        self.spare -= 1;
    }

    /// The session that is held under this lock is held no more, and forgotten where it has no
    /// state.
    pub fn close(&mut self, lock: u64)
        ensures sessions { self.new.sessions ≡ changed (is_held_under lock) (λ x. remembered (record x { holder = None })) self.old.sessions }
        ensures spare { self.new.spare ≡ self.old.spare }
    {
        let was = end_under(&self.sessions, lock);
        rows::close_row(&mut self.sessions, lock);
        self.least = least_moved(self.least, was, NEVER, &self.sessions);
    }

    /// The lock of a session lives until then, in ms since 1970.
    pub fn prolong(&mut self, lock: u64, until: u64)
        ensures sessions { self.new.sessions ≡ changed (is_held_under lock) (λ x. record x { holder = prolonged_holder until x.holder } ∷ []) self.old.sessions }
        ensures spare { self.new.spare ≡ self.old.spare }
    {
        let was = end_under(&self.sessions, lock);
        rows::prolong_row(&mut self.sessions, lock, until);
        self.least = least_moved(self.least, was, until, &self.sessions);
    }

    /// The session that is held under this lock remembers these bytes, or none.
    pub fn write(&mut self, lock: u64, state: Option<Rows<u8>>)
        ensures sessions { self.new.sessions ≡ changed (is_held_under lock) (λ x. remembered (record x { state = state })) self.old.sessions }
        ensures spare { self.new.spare ≡ self.old.spare }
    {
        rows::write_row(&mut self.sessions, lock, state);
    }
}
