// A balanced tree of rows, which tells of itself what searches ask.
ghost use Rattle.std.specs.Prelude.{◌≡◌, ◌∷◌, ◌++◌, Some, min, map};
ghost use Rattle.std.specs.List.{list_any, fold};
ghost use Rattle.sb_index.specs.Rows.{is_marked, least_due};
ghost use Rattle.sb_index.specs.Sides.{values};
ghost use Rattle.sb_index.specs.Wanted.{fits};

use crate::row::Row;
use crate::wanted::Wanted;
use std::marker::Model;

/// A row between those before it and those behind it; of all these, whether one is marked, the
/// least moment at which one is due, and how many levels there are.
#[derive(Drop)]
pub(crate) struct Tree {
    pub(crate) left: Option<Box<Tree>>,
    pub(crate) row: Row,
    pub(crate) right: Option<Box<Tree>>,
    pub(crate) any: bool,
    pub(crate) least: u64,
    pub(crate) height: u8,
}

impl Model for Tree {
    ghost use Rattle.std.specs.Prelude.{◌≡◌, List, ◌∷◌, ◌++◌, Some, length};
    ghost use Rattle.std.specs.List.{list_any};
    ghost use Rattle.sb_index.specs.declared.row.Row.{Row as One};
    ghost use Rattle.sb_index.specs.Rows.{is_marked, least_due};
    ghost use Rattle.sb_index.specs.Sides.{values};

    ghost Value = { List One };

    ghost view = { λ a. values a.left ++ a.row ∷ values a.right };

    ghost invariant = { λ a. (a.any ≡ list_any is_marked (values a.left ++ a.row ∷ values a.right)) × (least_due (values a.left ++ a.row ∷ values a.right) ≡ Some a.least) };

    ghost size = { length };

    ghost use Rattle.std.proofs.Common.{arith, length-append};

    ghost size_decreases = { λ a h. Prim.grind (arith, length-append) };
}

impl Tree {
    // Whether one of its rows is wanted.
    #[tactic(auto, using(crate::proofs::Finds::any_there, crate::proofs::Least::any_due))]
    pub(crate) fn has(&self, wanted: Wanted) -> bool
        ensures { result ≡ list_any (fits wanted) self.now }
    {
        match wanted {
            Wanted::Any => true,
            Wanted::Marked => self.any,
            Wanted::Due(moment) => self.least <= moment,
        }
    }
}

// Whether a row or one beside it is marked.
pub(crate) fn any_between(left: &Option<Box<Tree>>, row: Row, right: &Option<Box<Tree>>) -> bool
    ensures { result ≡ list_any is_marked (values left.now ++ row ∷ values right.now) }
{
    any_in(left) || row.marked || any_in(right)
}

// The least moment at which a row or one beside it is due.
#[tactic(auto, using(crate::proofs::Least::least_between))]
pub(crate) fn least_between(left: &Option<Box<Tree>>, row: Row, right: &Option<Box<Tree>>) -> u64
    ensures { least_due (values left.now ++ row ∷ values right.now) ≡ Some result }
{
    least_with(right, least_with(left, row.due))
}

pub(crate) fn height_of(side: &Option<Box<Tree>>) -> u8 {
    match side {
        None => 0,
        Some(tree) => tree.height,
    }
}

fn any_in(side: &Option<Box<Tree>>) -> bool
    ensures { result ≡ list_any is_marked (values side.now) }
{
    match side {
        None => false,
        Some(tree) => tree.any,
    }
}

// The least of a moment and of those at which its rows are due.
fn least_with(side: &Option<Box<Tree>>, due: u64) -> u64
    ensures { result ≡ fold min due (map (λ x. x.due) (values side.now)) }
{
    match side {
        None => due,
        Some(tree) => least_of(tree, due),
    }
}

#[tactic(auto, using(crate::proofs::Least::least_started))]
fn least_of(tree: &Tree, due: u64) -> u64
    ensures { result ≡ fold min due (map (λ x. x.due) tree.now) }
{
    due.min(tree.least)
}
