// A row put in its place, taken out, or told otherwise.
ghost use Rattle.std.specs.Prelude.{◌≡◌, ◌∷◌, ◌++◌};
ghost use Rattle.sb_index.specs.Rows.{changed, with_row, without, AreRising};
ghost use Rattle.sb_index.specs.Sides.{values};

use crate::row::Row;
use crate::tree::Tree;
use crate::turning::{balanced, bare, put_together};
use std::mem;

/// With one row more, in a node that was promised.
#[tactic(auto, using(crate::proofs::Order::row_left, crate::proofs::Order::row_right, crate::proofs::Order::rising_front, crate::proofs::Order::rising_back))]
pub(crate) fn put(side: Option<Box<Tree>>, row: Row, promised: Box<Tree>) -> Box<Tree>
    requires { AreRising (values side) }
    ensures { result.value ≡ with_row row (values side) }
{
    let Some(tree) = side else {
        return put_together(promised, None, row, None);
    };
    let mut node = tree;
    let held = node.row;
    let Tree {
        left,
        row: top,
        right,
        ..
    } = mem::replace(&mut *node, bare(held));
    if top.key < row.key {
        let right = put(right, row, promised);
        return balanced(put_together(node, left, top, Some(right)));
    }
    let left = put(left, row, promised);
    balanced(put_together(node, Some(left), top, right))
}

/// Without the row of this key, whose node goes.
#[tactic(auto, using(crate::proofs::Order::without_left, crate::proofs::Order::without_right, crate::proofs::Order::without_here, crate::proofs::Order::rising_front, crate::proofs::Order::rising_back))]
pub(crate) fn taken(side: Option<Box<Tree>>, key: u128) -> Option<Box<Tree>>
    requires { AreRising (values side) }
    ensures { values result ≡ without key (values side) }
{
    let Some(tree) = side else {
        return None;
    };
    let mut node = tree;
    let held = node.row;
    let Tree {
        left,
        row,
        right,
        ..
    } = mem::replace(&mut *node, bare(held));
    if key < row.key {
        let left = taken(left, key);
        return Some(balanced(put_together(node, left, row, right)));
    }
    if row.key < key {
        let right = taken(right, key);
        return Some(balanced(put_together(node, left, row, right)));
    }
    drop(node);
    joined(left, right)
}

/// With the row of this key marked or not, and due at another moment.
#[tactic(auto, using(crate::proofs::Order::changed_left, crate::proofs::Order::changed_right, crate::proofs::Order::changed_here, crate::proofs::Order::rising_front, crate::proofs::Order::rising_back))]
pub(crate) fn told(side: Option<Box<Tree>>, key: u128, marked: bool, due: u64) -> Option<Box<Tree>>
    requires { AreRising (values side) }
    ensures { values result ≡ changed key marked due (values side) }
{
    let Some(tree) = side else {
        return None;
    };
    let mut node = tree;
    let held = node.row;
    let Tree {
        left,
        row,
        right,
        ..
    } = mem::replace(&mut *node, bare(held));
    if key < row.key {
        let left = told(left, key, marked, due);
        return Some(put_together(node, left, row, right));
    }
    if row.key < key {
        let right = told(right, key, marked, due);
        return Some(put_together(node, left, row, right));
    }
    let row = Row { marked, due, ..row };
    Some(put_together(node, left, row, right))
}

// One side behind the other, with no row between them.
fn joined(left: Option<Box<Tree>>, right: Option<Box<Tree>>) -> Option<Box<Tree>>
    ensures { values result ≡ values left ++ values right }
{
    let Some(tree) = right else {
        return left;
    };
    let (first, rest, node) = first_taken(tree);
    Some(balanced(put_together(node, left, first, rest)))
}

// The first row, the rows behind it, and the node that had it.
fn first_taken(tree: Box<Tree>) -> (Row, Option<Box<Tree>>, Box<Tree>)
    ensures { tree.value ≡ result.0 ∷ values result.1 }
{
    let mut node = tree;
    let held = node.row;
    let Tree {
        left,
        row,
        right,
        ..
    } = mem::replace(&mut *node, bare(held));
    let Some(before) = left else {
        return (row, right, node);
    };
    let (first, rest, freed) = first_taken(before);
    let tree = balanced(put_together(node, rest, row, right));
    (first, Some(tree), freed)
}
