// The last test of all: the numbers that changes give.
ghost use Rattle.std.specs.Prelude.{◌≡◌, ◌≤◌, ◌<◌, ◌+◌, ◌^◌, nat_le, sum_by, ℕ};
ghost use Rattle.sb_entities.specs.Stores.{space_in};
ghost use Rattle.sb_machine.specs.Changes as machine;
ghost use Rattle.sb_machine.specs.Namespace as namespace;
ghost use Rattle.sb_engine.specs.Numbers as numbers;

use sb_entities::SpaceStore;
use sb_machine::{Change, Changes, LeafChange};
use sb_names::limits::MAX_NUMBER;
use std::collections::VecDeque;

/// What is numbered.
#[derive(Clone, Copy, PartialEq, Eq)]
pub enum Numbered {
    Copies,
    Entities,
    Locks,
    Transactions,
}

// ---- numbers given

fn copies_in(change: &Change) -> u64
    ensures { result ≡ machine.numbers_in change.now }
{
    match change {
        Change::InLeaf {
            change: LeafChange::Enters(_) | LeafChange::Passes(_),
            ..
        } => 1,
        _ => 0,
    }
}

fn entities_in(change: &Change) -> u64
    ensures { result ≡ numbers.entities_in change.now }
{
    match change {
        Change::Makes { .. } => 1,
        _ => 0,
    }
}

fn locks_in(change: &Change) -> u64
    ensures { result ≡ numbers.locks_in change.now }
{
    match change {
        Change::InLeaf {
            change: LeafChange::Holds { .. } | LeafChange::Opens { .. },
            ..
        } => 1,
        _ => 0,
    }
}

fn transactions_in(change: &Change) -> u64
    ensures { result ≡ numbers.transactions_in change.now }
{
    match change {
        Change::Begins { .. } => 1,
        _ => 0,
    }
}

fn given_in(what: Numbered, change: &Change) -> u64
    ensures count { result ≡ numbers.given_in what change.now }
    ensures one { result ≤ 1 }
{
    match what {
        Numbered::Copies => copies_in(change),
        Numbered::Entities => entities_in(change),
        Numbered::Locks => locks_in(change),
        Numbered::Transactions => transactions_in(change),
    }
}

fn given_by_all(what: Numbered, changes: &VecDeque<Change>) -> u64
    ensures count { result ≡ sum_by (numbers.given_in what) changes.now.items }
    ensures few { result < 2 ^ 63 }
{
    let mut given = 0_u64;
    for place in 0..changes.len() {
        given += given_in(what, &changes[place]);
    }
    given
}

// How many numbers of this kind these changes give.
fn given(what: Numbered, changes: &Changes) -> u64
    ensures { result ≡ sum_by (numbers.given_in what) changes.now }
{
    let (first, more) = changes.parts();
    let one = match first {
        Some(change) => given_in(what, change),
        None => 0,
    };
    one + given_by_all(what, more)
}

// ---- the test

// Whether so many numbers may be given behind the last.
fn fits(last: u64, given: u64) -> bool
    ensures { result ≡ nat_le (last + given) machine.max_number }
{
    match last.checked_add(given) {
        Some(number) => number <= MAX_NUMBER,
        None => false,
    }
}

fn copies_fit(space: &SpaceStore, changes: &Changes) -> bool
    ensures { result ≡ nat_le (namespace.made (space_in space.now) + machine.numbers_given changes.now) machine.max_number }
{
    fits(space.made(), given(Numbered::Copies, changes))
}

fn entities_fit(space: &SpaceStore, changes: &Changes) -> bool
    ensures { (t : ℕ) → result ≡ nat_le (machine.after_all t changes.now (space_in space.now)).last_entity machine.max_number }
{
    fits(space.last_entity(), given(Numbered::Entities, changes))
}

fn locks_fit(space: &SpaceStore, changes: &Changes) -> bool
    ensures { (t : ℕ) → result ≡ nat_le (machine.after_all t changes.now (space_in space.now)).last_lock machine.max_number }
{
    fits(space.last_lock(), given(Numbered::Locks, changes))
}

fn transactions_fit(space: &SpaceStore, changes: &Changes) -> bool
    ensures { (t : ℕ) → result ≡ nat_le (machine.after_all t changes.now (space_in space.now)).last_txn machine.max_number }
{
    fits(space.last_txn(), given(Numbered::Transactions, changes))
}

/// Whether no number that these changes give passes the greatest.
pub fn is_numbered(space: &SpaceStore, changes: &Changes) -> bool
    ensures { (t : ℕ) → result ≡ machine.is_numbered t changes.now (space_in space.now) }
{
    copies_fit(space, changes)
        && entities_fit(space, changes)
        && locks_fit(space, changes)
        && transactions_fit(space, changes)
}
