// An index: a tree in order, and the nodes that are promised to it.
ghost use Rattle.std.specs.Prelude.{◌≡◌, ◌≤◌, ◌-◌, [], find, length, max, IfOk, OnOk, OnErr, vec_len};
ghost use Rattle.sb_index.specs.Rows.{changed, due_values, is_at, is_due_from, is_from, is_marked_within, least_due, with_row, without, AreRising, Lacks};
ghost use Rattle.sb_index.specs.Wanted.{before};

use crate::changing::{put, taken, told};
use crate::collecting::put_due_in;
use crate::row::Row;
use crate::searching::{first_from_in, get_in};
use crate::tree::Tree;
use crate::turning::bare;
use crate::wanted::Wanted;
use std::alloc::{AllocError, Global};
use std::marker::Model;

// What stands in a node that is promised.
const NO_ROW: Row = Row {
    key: 0,
    value: 0,
    marked: false,
    due: 0,
};

/// Rows in rising keys, none of which is there twice.
#[derive(Drop)]
pub struct Index {
    alloc: Global,
    root: Option<Box<Tree>>,
    nodes: Vec<Box<Tree>>,
    len: usize,
}

impl Model for Index {
    ghost use Rattle.std.specs.Prelude.{◌≡◌, ◌+◌, ◌<◌, ◌^◌, length, vec_len};
    ghost use Rattle.sb_index.specs.Rows.{AreRising, Indexed};
    ghost use Rattle.sb_index.specs.Sides.{values};

    ghost Value = { Indexed };

    ghost view = { λ s. record { rows = values s.root; spare = vec_len s.nodes } };

    ghost invariant = { λ s. AreRising (values s.root) × (s.len ≡ length (values s.root)) × (s.len + vec_len s.nodes < 2 ^ 64) };
}

impl Index {
    /// None yet; takes no memory.
    pub fn new(alloc: Global) -> Index
        ensures rows { result.rows ≡ [] }
        ensures spare { result.spare ≡ 0 }
    {
        Index {
            alloc,
            root: None,
            nodes: Vec::new(alloc),
            len: 0,
        }
    }

    /// Its keys rise: for the proofs of who has one.
    pub fn rises(&self)
        ensures { AreRising self.now.rows }
    {
        let _ = &self.root;
    }

    /// How many nodes are promised.
    pub fn spare(&self) -> usize
        ensures { result ≡ self.now.spare }
    {
        self.nodes.len()
    }

    /// Promises at least so many nodes; where memory is wanting, all stays.
    pub fn reserve(&mut self, count: usize) -> Result<(), AllocError>
        ensures rows { self.new.rows ≡ self.old.rows }
        ensures spare { OnOk result (self.new.spare ≡ max self.old.spare count) }
        ensures err { OnErr result (self.new.spare ≡ self.old.spare) }
    {
        if count > usize::MAX - self.len {
            return Err(AllocError);
        }
        promise(self.alloc, &mut self.nodes, count)
    }

    /// Gives one promised node back to the allocator; where none is promised, nothing.
    pub fn forget(&mut self)
        ensures rows { self.new.rows ≡ self.old.rows }
        ensures spare { self.new.spare ≡ self.old.spare - 1 }
    {
        drop(self.nodes.pop());
    }

    pub fn len(&self) -> usize
        ensures { result ≡ length self.now.rows }
    {
        self.len
    }

    /// The row of this key.
    pub fn get(&self, key: u128) -> Option<Row>
        ensures { result ≡ find (is_at key) self.now.rows }
    {
        get_in(&self.root, key)
    }

    /// The first row whose key is at least this one.
    pub fn first_from(&self, key: u128) -> Option<Row>
        ensures { result ≡ find (is_from key) self.now.rows }
    {
        first_from_in(&self.root, Wanted::Any, key)
    }

    /// The first marked row whose key is one of `from..below`.
    #[tactic(auto, using(crate::proofs::Finds::within_before))]
    pub fn first_marked(&self, from: u128, below: u128) -> Option<Row>
        ensures { result ≡ find (is_marked_within from below) self.now.rows }
    {
        if_before(first_from_in(&self.root, Wanted::Marked, from), below)
    }

    /// The first row that is due at this moment, of those whose key is at least `from`.
    pub fn first_due(&self, from: u128, moment: u64) -> Option<Row>
        ensures { result ≡ find (is_due_from from moment) self.now.rows }
    {
        first_from_in(&self.root, Wanted::Due(moment), from)
    }

    /// The values of the rows that are due at this moment, in rising keys. It costs what is found
    /// times the logarithm of what is there.
    pub fn due_values(&self, moment: u64) -> Result<Vec<u64>, AllocError>
        ensures { IfOk result (λ found. found.items ≡ due_values moment self.now.rows) }
    {
        let mut found = Vec::new(self.alloc);
        put_due_in(&self.root, moment, &mut found)?;
        Ok(found)
    }

    /// The least moment at which a row is due, `u64::MAX` where none of them ever is; none where
    /// there are no rows.
    pub fn least_due(&self) -> Option<u64>
        ensures { result ≡ least_due self.now.rows }
    {
        match &self.root {
            None => None,
            Some(tree) => Some(tree.least),
        }
    }

    /// Puts a row in its place, in a node that was promised.
    #[tactic(auto, using(crate::proofs::Order::rising_with, crate::proofs::Order::length_with))]
    pub fn insert(&mut self, row: Row)
        requires room { 1 ≤ self.old.spare }
        requires apart { Lacks row.key self.old.rows }
        ensures rows { self.new.rows ≡ with_row row self.old.rows }
        ensures spare { self.new.spare ≡ self.old.spare - 1 }
    {
        let Some(node) = self.nodes.pop() else {
            unreachable!()
        };
        let root = self.root.take();
        self.root = Some(put(root, row, node));
        self.len += 1;
    }

    /// Takes the row of this key out, where there is one.
    #[tactic(auto, using(crate::proofs::Order::rising_without, crate::proofs::Order::length_without, crate::proofs::Order::without_none))]
    pub fn remove(&mut self, key: u128) -> Option<Row>
        ensures removed { result ≡ find (is_at key) self.old.rows }
        ensures rows { self.new.rows ≡ without key self.old.rows }
        ensures spare { self.new.spare ≡ self.old.spare }
    {
        let found = get_in(&self.root, key);
        if found.is_some() {
            let root = self.root.take();
            self.root = taken(root, key);
            self.len -= 1;
        }
        found
    }

    /// Marks the row of this key or not, and has it due at another moment; where there is none, all
    /// stays.
    #[tactic(auto, using(crate::proofs::Order::rising_changed, crate::proofs::Order::length_changed))]
    pub fn change(&mut self, key: u128, marked: bool, due: u64)
        ensures rows { self.new.rows ≡ changed key marked due self.old.rows }
        ensures spare { self.new.spare ≡ self.old.spare }
    {
        let root = self.root.take();
        self.root = told(root, key, marked, due);
    }
}

// What was found, where its key is below this one.
fn if_before(found: Option<Row>, below: u128) -> Option<Row>
    ensures { result ≡ before below found }
{
    match found {
        None => None,
        Some(row) => { if row.key < below { Some(row) } else { None } }
    }
}

fn promise(alloc: Global, nodes: &mut Vec<Box<Tree>>, count: usize) -> Result<(), AllocError>
    ensures ok { OnOk result (vec_len nodes.new ≡ max (vec_len nodes.old) count) }
    ensures err { OnErr result (vec_len nodes.new ≡ vec_len nodes.old) }
{
    if count <= nodes.len() {
        return Ok(());
    }
    let there = nodes.len();
    let made = promise_more(alloc, nodes, count);
    if made.is_err() {
        nodes.truncate(there);
    }
    made
}

fn promise_more(alloc: Global, nodes: &mut Vec<Box<Tree>>, count: usize) -> Result<(), AllocError>
    requires { vec_len nodes.old ≤ count }
    ensures ok { OnOk result (vec_len nodes.new ≡ count) }
    ensures err { OnErr result (vec_len nodes.old ≤ vec_len nodes.new) }
{
    let there = nodes.len();
    for _ in there..count {
        let node = Box::new(alloc, bare(NO_ROW))?;
        nodes.push(node)?;
    }
    Ok(())
}
