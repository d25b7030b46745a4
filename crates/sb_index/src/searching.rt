// Searches down a tree.
ghost use Rattle.std.specs.Prelude.{◌≡◌, find};
ghost use Rattle.sb_index.specs.Rows.{is_at, AreRising};
ghost use Rattle.sb_index.specs.Sides.{values};
ghost use Rattle.sb_index.specs.Wanted.{fits, fits_from};

use crate::row::Row;
use crate::tree::Tree;
use crate::wanted::{Wanted, is_wanted};

/// The row of this key.
#[cycle(get)]
pub(crate) fn get_in(side: &Option<Box<Tree>>, key: u128) -> Option<Row>
    requires { AreRising (values side.now) }
    ensures { result ≡ find (is_at key) (values side.now) }
{
    match side {
        None => None,
        Some(tree) => tree.get(key),
    }
}

/// The first one that is wanted, where there is one: by what each side tells of itself.
#[cycle(first)]
pub(crate) fn first_in(side: &Option<Box<Tree>>, wanted: Wanted) -> Option<Row>
    ensures { result ≡ find (fits wanted) (values side.now) }
{
    match side {
        None => None,
        Some(tree) => tree.first(wanted),
    }
}

/// The first one that is wanted of those whose key is at least `from`.
#[cycle(first_from)]
pub(crate) fn first_from_in(side: &Option<Box<Tree>>, wanted: Wanted, from: u128) -> Option<Row>
    requires { AreRising (values side.now) }
    ensures { result ≡ find (fits_from wanted from) (values side.now) }
{
    match side {
        None => None,
        Some(tree) => tree.first_from(wanted, from),
    }
}

impl Tree {
    #[cycle(get)]
    #[tactic(auto, using(crate::proofs::Finds::at_left, crate::proofs::Finds::at_right, crate::proofs::Finds::at_here, crate::proofs::Order::rising_front, crate::proofs::Order::rising_back))]
    fn get(&self, key: u128) -> Option<Row>
        requires { AreRising self.now }
        ensures { result ≡ find (is_at key) self.now }
    {
        if key < self.row.key {
            return get_in(&self.left, key);
        }
        if self.row.key < key {
            return get_in(&self.right, key);
        }
        Some(self.row)
    }

    #[cycle(first)]
    #[tactic(auto, using(crate::proofs::Finds::find_none, crate::proofs::Finds::find_front, crate::proofs::Finds::find_here, crate::proofs::Finds::find_behind))]
    fn first(&self, wanted: Wanted) -> Option<Row>
        ensures { result ≡ find (fits wanted) self.now }
    {
        if !self.has(wanted) {
            return None;
        }
        if let Some(found) = first_in(&self.left, wanted) {
            return Some(found);
        }
        if is_wanted(wanted, self.row) {
            return Some(self.row);
        }
        first_in(&self.right, wanted)
    }

    // Below the first key that is at least `from`, one side alone is gone down.
    #[cycle(first_from)]
    #[tactic(auto, using(crate::proofs::Finds::from_none, crate::proofs::Finds::from_right, crate::proofs::Finds::find_front, crate::proofs::Finds::from_here, crate::proofs::Finds::from_behind, crate::proofs::Order::rising_front, crate::proofs::Order::rising_back))]
    fn first_from(&self, wanted: Wanted, from: u128) -> Option<Row>
        requires { AreRising self.now }
        ensures { result ≡ find (fits_from wanted from) self.now }
    {
        if !self.has(wanted) {
            return None;
        }
        if self.row.key < from {
            return first_from_in(&self.right, wanted, from);
        }
        if let Some(found) = first_from_in(&self.left, wanted, from) {
            return Some(found);
        }
        if is_wanted(wanted, self.row) {
            return Some(self.row);
        }
        first_in(&self.right, wanted)
    }
}
