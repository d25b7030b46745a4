// Trees put together of their parts, and turned where one side is too high.
ghost use Rattle.std.specs.Prelude.{◌≡◌, [], ◌∷◌, ◌++◌};
ghost use Rattle.sb_index.specs.Sides.{values};

use crate::row::Row;
use crate::tree::{Tree, any_between, height_of, least_between};
use std::mem;

/// What a tree was made of, and its node, to be used again.
pub(crate) struct Parts {
    pub(crate) left: Option<Box<Tree>>,
    pub(crate) row: Row,
    pub(crate) right: Option<Box<Tree>>,
    pub(crate) node: Box<Tree>,
}

/// A row alone.
pub(crate) fn bare(row: Row) -> Tree
    ensures { result ≡ row ∷ [] }
{
    made(None, row, None)
}

/// A row between two sides; what it tells of itself is worked out here and nowhere else.
pub(crate) fn made(left: Option<Box<Tree>>, row: Row, right: Option<Box<Tree>>) -> Tree
    ensures { result ≡ values left ++ row ∷ values right }
{
    let any = any_between(&left, row, &right);
    let least = least_between(&left, row, &right);
    let height = height_of(&left).max(height_of(&right)).saturating_add(1);
    Tree {
        left,
        row,
        right,
        any,
        least,
        height,
    }
}

/// The same in a node that is there already.
pub(crate) fn put_together(
    node: Box<Tree>,
    left: Option<Box<Tree>>,
    row: Row,
    right: Option<Box<Tree>>,
) -> Box<Tree>
    ensures { result.value ≡ values left ++ row ∷ values right }
{
    let mut node = node;
    *node = made(left, row, right);
    node
}

/// Turned where one side is two levels higher than the other.
pub(crate) fn balanced(tree: Box<Tree>) -> Box<Tree>
    ensures { result.value ≡ tree.value }
{
    let before = height_of(&tree.left);
    let behind = height_of(&tree.right);
    if before > behind.saturating_add(1) {
        return turned_right(left_straight(tree));
    }
    if behind > before.saturating_add(1) {
        return turned_left(right_straight(tree));
    }
    tree
}

/// The parts of a tree.
pub(crate) fn taken_apart(tree: Box<Tree>) -> Parts
    ensures { tree.value ≡ values result.left ++ result.row ∷ values result.right }
{
    let mut tree = tree;
    let held = tree.row;
    let Tree {
        left,
        row,
        right,
        ..
    } = mem::replace(&mut *tree, bare(held));
    Parts {
        left,
        row,
        right,
        node: tree,
    }
}

// The top of the left side comes to the top.
fn turned_right(tree: Box<Tree>) -> Box<Tree>
    ensures { result.value ≡ tree.value }
{
    let Parts {
        left,
        row,
        right,
        node,
    } = taken_apart(tree);
    let Some(top) = left else {
        return put_together(node, None, row, right);
    };
    let Parts {
        left: first,
        row: middle,
        right: second,
        node: top,
    } = taken_apart(top);
    let behind = put_together(node, second, row, right);
    put_together(top, first, middle, Some(behind))
}

// The top of the right side comes to the top.
fn turned_left(tree: Box<Tree>) -> Box<Tree>
    ensures { result.value ≡ tree.value }
{
    let Parts {
        left,
        row,
        right,
        node,
    } = taken_apart(tree);
    let Some(top) = right else {
        return put_together(node, left, row, None);
    };
    let Parts {
        left: second,
        row: middle,
        right: last,
        node: top,
    } = taken_apart(top);
    let before = put_together(node, left, row, second);
    put_together(top, Some(before), middle, last)
}

// Its left side turned first, where that side's own right side is the higher one.
fn left_straight(tree: Box<Tree>) -> Box<Tree>
    ensures { result.value ≡ tree.value }
{
    let Parts {
        left,
        row,
        right,
        node,
    } = taken_apart(tree);
    let Some(top) = left else {
        return put_together(node, None, row, right);
    };
    if height_of(&top.right) > height_of(&top.left) {
        return put_together(node, Some(turned_left(top)), row, right);
    }
    put_together(node, Some(top), row, right)
}

// Its right side likewise.
fn right_straight(tree: Box<Tree>) -> Box<Tree>
    ensures { result.value ≡ tree.value }
{
    let Parts {
        left,
        row,
        right,
        node,
    } = taken_apart(tree);
    let Some(top) = right else {
        return put_together(node, left, row, None);
    };
    if height_of(&top.left) > height_of(&top.right) {
        return put_together(node, left, row, Some(turned_right(top)));
    }
    put_together(node, left, row, Some(top))
}
