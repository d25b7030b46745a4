// The ids that an entity accepted, with their moments.
ghost use Rattle.std.specs.Prelude.{◌≡◌, ◌-◌, ◌≤◌, ◌++◌, max, [], OnOk, OnErr, IfOk};
ghost use Rattle.sb_machine.specs.Changes as spec;
ghost use Rattle.sb_machine.specs.Each.{IsSorted};
ghost use Rattle.sb_repeats.specs.Windows.{comes_first};

use crate::known::is_known;
use crate::noting::{index_of, note_under};
use sb_index::Index;
use sb_machine::AcceptedId;
use sb_model::{Rows, Text};
use std::alloc::{AllocError, Global};
use std::collections::VecDeque;
use std::marker::Model;

/// The ids that one entity accepted, in order, with a row of an index for the key of each: by a
/// text's number, then its moment.
#[derive(Drop)]
pub struct Window {
    ids: VecDeque<AcceptedId>,
    known: Index,
    spare: usize,
}

impl Model for Window {
    ghost use Rattle.std.specs.Prelude.{◌+◌, ◌≤◌};
    ghost use Rattle.std.specs.VecDeque.{deque_len, deque_capacity};
    ghost use Rattle.sb_repeats.specs.Windows.{AreTold, Remembered};

    ghost Value = { Remembered };

    ghost view = { λ s. record { ids = s.ids.items; spare = s.spare } };

    ghost invariant = { λ s. AreTold s.ids.items s.known.rows × (deque_len s.ids + s.spare ≤ deque_capacity s.ids) × (s.spare ≤ s.known.spare) };
}

impl Window {
    /// None yet; takes no memory.
    pub fn new(alloc: Global) -> Window
        ensures ids { result.ids ≡ [] }
        ensures spare { result.spare ≡ 0 }
    {
        Window {
            ids: VecDeque::new(alloc),
            known: Index::new(alloc),
            spare: 0,
        }
    }

    /// These, in the order of their moments, of one moment in that of the ids.
    pub fn from_rows(alloc: Global, ids: Rows<AcceptedId>) -> Result<Window, AllocError>
        requires { IsSorted comes_first ids }
        ensures ids { IfOk result (λ w. w.ids ≡ ids) }
        ensures spare { IfOk result (λ w. w.spare ≡ 0) }
    {
        let known = index_of(alloc, ids.as_slice())?;
        Ok(Window {
            ids: VecDeque::from_vec(ids.into_vec()),
            known,
            spare: 0,
        })
    }

    /// How many slots are promised.
    pub fn spare(&self) -> usize
        ensures { result ≡ self.now.spare }
    {
        self.spare
    }

    /// Promises at least so many slots; where memory is wanting, all stays.
    pub fn reserve(&mut self, count: usize) -> Result<(), AllocError>
        ensures ids { self.new.ids ≡ self.old.ids }
        ensures spare { OnOk result (self.new.spare ≡ max self.old.spare count) }
        ensures err { OnErr result (self.new.spare ≡ self.old.spare) }
    {
        self.ids.reserve(count)?;
        self.known.reserve(count)?;
        if self.spare < count {
            self.spare = count;
        }
        Ok(())
    }

    /// Gives one promised slot back; where none is promised, nothing. Its memory stays, and serves
    /// the next promise.
    pub fn release(&mut self)
        ensures ids { self.new.ids ≡ self.old.ids }
        ensures spare { self.new.spare ≡ self.old.spare - 1 }
    {
        self.spare = self.spare.saturating_sub(1);
    }

    /// All of them: those of the first slice, and then those of the second.
    pub fn as_slices(&self) -> (&[AcceptedId], &[AcceptedId])
        ensures { result.0.now ++ result.1.now ≡ self.now.ids }
    {
        self.ids.as_slices()
    }

    /// Whether the id was accepted less than so many seconds before `moment`, in ms since 1970.
    pub fn is_known(&self, seconds: u64, id: &str, moment: u64) -> bool
        ensures { result ≡ spec.is_known seconds id.now moment self.now.ids }
    {
        is_known(&self.ids, &self.known, seconds, id, moment)
    }

    /// Notes an id that was accepted at `moment`, in ms since 1970, under a window in seconds, and
    /// forgets those past it; one that is known stays as it is. A slot that was promised is taken,
    /// whether or not one is noted.
    pub fn note(&mut self, window: Option<u64>, id: Text, moment: u64)
        requires room { 1 ≤ self.old.spare }
        ensures ids { self.new.ids ≡ spec.noted window id moment self.old.ids }
        ensures spare { self.new.spare ≡ self.old.spare - 1 }
    {
        note_under(&mut self.ids, &mut self.known, window, id, moment);
        self.spare -= 1;
    }
}
