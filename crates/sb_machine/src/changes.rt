// Changes in order; the first takes no memory.
ghost use Rattle.std.specs.Prelude.{◌≡◌, ◌<◌, ◌+◌, ◌^◌, ◌==◌, [], ◌∷◌, ◌++◌, length, Some, OnOk, OnErr, option_map, option_to_list, None};
ghost use Rattle.std.specs.Result.{IsOk};
ghost use Rattle.std.specs.List.{slice_get};

use crate::Change;
use std::alloc::{AllocError, Global};
use std::collections::VecDeque;
use std::marker::Model;
use std::mem;

/// A list of changes. One needs no memory.
#[derive(Drop)]
pub struct Changes {
    first: Option<Change>,
    more: VecDeque<Change>,
}

impl Model for Changes {
    ghost use Rattle.std.specs.Prelude.{List, option_to_list, ◌++◌, [], ◌≡◌, None};
    ghost use Rattle.sb_machine.specs.declared.change.Change.{Change as One};

    ghost Value = { List One };

    ghost view = { λ c. option_to_list c.first ++ c.more.items };

    ghost invariant = { λ c. c.first ≡ None → c.more.items ≡ [] };
}

impl Changes {
    /// None yet; takes no memory.
    pub fn new(alloc: Global) -> Self
        ensures { result ≡ [] }
    {
        Changes {
            first: None,
            more: VecDeque::new(alloc),
        }
    }

    pub fn is_empty(&self) -> bool
        ensures { result ≡ (length self.now == 0) }
    {
        self.first.is_none()
    }

    pub fn len(&self) -> usize
        ensures { result ≡ length self.now }
    {
        match self.first {
            Some(_) => self.more.len() + 1,
            None => 0,
        }
    }

    /// The change at a place, from 0.
    pub fn get(&self, index: usize) -> Option<&Change>
        ensures { option_map (λ c. c.now) result ≡ slice_get self.now index }
    {
        if index == 0 {
            return self.first.as_ref();
        }
        self.more.get(index - 1)
    }

    /// Adds one at the end, the first without memory; where memory is wanting, all stays.
    pub fn push(&mut self, change: Change) -> Result<(), AllocError>
        ensures ok { OnOk result (self.new ≡ self.old ++ change ∷ []) }
        ensures err { OnErr result (self.new ≡ self.old) }
        ensures free { self.old ≡ [] → IsOk result }
    {
        if self.first.is_none() {
            drop(mem::replace(&mut self.first, Some(change)));
            return Ok(());
        }
        match self.more.push_back(change) {
            Ok(()) => Ok(()),
            Err(failed) => {
                drop(failed);
                Err(AllocError)
            }
        }
    }

    /// Adds these at the end, to none without memory; where memory is wanting, all stays.
    pub fn append(&mut self, others: Changes) -> Result<(), AllocError>
        ensures ok { OnOk result (self.new ≡ self.old ++ others) }
        ensures err { OnErr result (self.new ≡ self.old) }
        ensures free { self.old ≡ [] → IsOk result }
    {
        if self.first.is_none() {
            drop(mem::replace(self, others));
            return Ok(());
        }
        let Changes { first, mut more } = others;
        let Some(change) = first else {
            return Ok(());
        };
        more.push_front(change)?;
        self.more.append(&mut more)?;
        Ok(())
    }

    /// Takes the first out; takes no memory.
    pub fn take_first(&mut self) -> Option<Change>
        ensures some { self.old ≡ option_to_list result ++ self.new }
        ensures none { result ≡ None → self.old ≡ [] }
    {
        let next = self.more.pop_front();
        mem::replace(&mut self.first, next)
    }

    /// The first and the others.
    pub fn parts(&self) -> (Option<&Change>, &VecDeque<Change>)
        ensures { self.now ≡ option_to_list (option_map (λ c. c.now) result.0) ++ result.1.now.items }
    {
        (self.first.as_ref(), &self.more)
    }
}
