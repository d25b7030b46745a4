//! What a seat knows, and the rule of the table. No value of these types is made but of `Held` and
//! `Key`.
//!
//! Word 0 is the number of entries, word 1 the next ticket and word 2 the ticket that has the
//! turn, each modulo 2^64. The one slot has the value, and the calls that were posted.
ghost use Rattle.std.specs.Prelude.{List};

use crate::{Origin, Post, Served};
use sb_machine::{Call, Entry, State};
use std::collections::LinkedList;
use std::marker::PhantomData;
use std::snapshot::Snapshot;

pub enum Stage {
    /// It has no number, and makes no calls.
    Note,
    Idle,
    /// It waits with this ticket.
    Waits(u64),
    /// It has the turn, and the value is at home.
    Turn(u64),
    /// It has the turn and the value, which stands for this history, with these posts.
    Out(u64, LinkedList<Entry>, LinkedList<Post>),
    /// It was joined into another.
    Spent,
}

/// A call that a seat has posted and not yet collected, and the reading of the clock.
pub struct Ask {
    pub reading: u64,
    pub call: Call,
}

/// A seat that was joined into another, and what it had seen.
pub struct Claim {
    pub seat: u64,
    pub seen: LinkedList<Entry>,
}

pub struct View {
    /// Its number, and how many numbers behind it no seat has yet.
    pub seat: u64,
    pub spare: u64,
    /// How many passes the desk has. The numbers of their seats are below it.
    pub passes: u64,
    /// The state and the origin of the value as the desk was made.
    pub start: State,
    pub origin: Origin,
    /// The entries from the desk's first on that were seen.
    pub seen: LinkedList<Entry>,
    /// How many of the desk's passes it stands for.
    pub parts: u64,
    pub post: Option<Ask>,
    pub stage: Stage,
    /// Two lists of which the one that is seen is the longer.
    pub one: LinkedList<Entry>,
    pub other: LinkedList<Entry>,
    pub claims: LinkedList<Claim>,
}

/// What the slot has.
#[derive(Drop)]
pub struct Held<V> {
    pub value: V,
    /// The calls that were posted and not yet collected: first those with an answer, then those that wait.
    pub posts: Vec<Post>,
    /// How many have an answer.
    pub answered: usize,
}

/// The value as the table is made, and how many passes there are.
#[derive(Drop)]
pub struct Key<V> {
    pub value: Snapshot<V>,
    pub passes: u64,
}

pub struct Turns<V> {
    value: PhantomData<V>,
}

impl<V: Served> atomic_table::TableRule<Option<Held<V>>, View, Key<V>> for Turns<V> {
    ghost use Rattle.sb_desk.specs.Groups.{posts_in, IsArranged};
    ghost use Rattle.sb_desk.specs.Rule.{Kept, opening_view};

    ghost holds = { λ key. Kept (λ x. V.stands x.value) (λ x. V.origin x.value) posts_in IsArranged (V.state key.value.value) (V.origin key.value.value) key.passes };

    ghost first = { λ key. opening_view (V.state key.value.value) (V.origin key.value.value) key.passes };
}
