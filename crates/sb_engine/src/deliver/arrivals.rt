// For which entities changes bring something to receive. No clause says anything of it: it tells who waits
// when to look again.
use sb_entities::SpaceStore;
use sb_machine::{Change, Changes, LeafChange, LeafKey, Part, Path};
use std::marker::Model;
use std::mem;

// The first value and the factor of the hash FNV-1a of 64 bits.
const FIRST: u64 = 0xcbf2_9ce4_8422_2325;

const FACTOR: u64 = 0x0000_0100_0000_01b3;

// The last bytes reach the upper bits of the hash by this factor, an odd one near 2^64 / 1.618.
const MIXES: u64 = 0x9e37_79b9_7f4a_7c15;

/// The marks of parts that are noted. Clauses see nothing of them.
#[derive(Drop)]
pub(crate) struct Marks {
    bits: u64,
}

impl Model for Marks {
    ghost use Rattle.std.specs.Prelude.{⊤};

    ghost Value = { ⊤ };

    ghost view = { λ _. tt };
}

impl Marks {
    pub(crate) fn new() -> Marks {
        Marks { bits: 0 }
    }

    /// Notes those of the parts in which these changes bring something to receive, or make a session
    /// free.
    pub(crate) fn note(&mut self, space: &SpaceStore, changes: &Changes) {
        for place in 0..changes.len() {
            let Some(change) = changes.get(place) else {
                return;
            };
            self.bits |= marks_by(space, change);
        }
    }

    /// Those that were noted since they were taken last.
    pub(crate) fn take(&mut self) -> u64 {
        mem::replace(&mut self.bits, 0)
    }
}

/// The mark of a part of an entity: three of 64 bits, some of which may be one, by a hash of its path. Of
/// some 10,000 others one has no bit besides.
pub fn mark_of(path: &Path) -> u64 {
    mark_in(path, path.part)
}

// The mark of this part of the entity of a path.
fn mark_in(path: &Path, part: Part) -> u64 {
    let mut hash = hashed(FIRST, path.name.as_bytes());
    if let Some(subscription) = &path.subscription {
        hash = hashed(hash, subscription.as_bytes());
    }
    hash = hashed(hash, &[number_of(part)]);
    let mixed = (hash ^ (hash >> 32)).wrapping_mul(MIXES);
    bit_of(mixed >> 58) | bit_of(mixed >> 52) | bit_of(mixed >> 46)
}

// A byte that stands in no name.
fn number_of(part: Part) -> u8 {
    match part {
        Part::Main => 0,
        Part::Dead => 1,
        Part::Transfer => 2,
    }
}

fn bit_of(number: u64) -> u64 {
    1 << (number % 64)
}

fn hashed(hash: u64, bytes: &[u8]) -> u64 {
    let mut hash = hash;
    for byte in bytes {
        hash = (hash ^ u64::from(*byte)).wrapping_mul(FACTOR);
    }
    hash
}

// The marks of the parts in which a receive may be answered otherwise behind this change. Where a copy enters
// whose time comes later, who waits is to know of that moment.
fn marks_by(space: &SpaceStore, change: &Change) -> u64 {
    match change {
        Change::InLeaf { key, change } => mark_by(space, *key, change),
        Change::Removes { entity } => marks_within(space, *entity),
        Change::Notes { .. }
        | Change::Makes { .. }
        | Change::AddsRule { .. }
        | Change::DropsRule { .. }
        | Change::Begins { .. }
        | Change::Queues { .. }
        | Change::Drops { .. } => 0,
    }
}

fn mark_by(space: &SpaceStore, key: LeafKey, change: &LeafChange) -> u64 {
    match change {
        LeafChange::Enters(_) | LeafChange::Stands { .. } | LeafChange::Closes { .. } => {
            mark_at(space, key)
        }
        LeafChange::Passes(_)
        | LeafChange::Ends { .. }
        | LeafChange::Holds { .. }
        | LeafChange::Renews { .. }
        | LeafChange::Opens { .. }
        | LeafChange::Prolongs { .. }
        | LeafChange::Writes { .. } => 0,
    }
}

// The mark of a part, or none where there is no such entity.
fn mark_at(space: &SpaceStore, key: LeafKey) -> u64 {
    match space.entity(key.entity) {
        Some(entity) => mark_in(&entity.about().path, key.part),
        None => 0,
    }
}

// The marks of all parts of an entity, for whoever waits there.
fn marks_within(space: &SpaceStore, entity: u64) -> u64 {
    let mut marks = 0;
    for part in [Part::Main, Part::Dead, Part::Transfer] {
        marks |= mark_at(space, LeafKey { entity, part });
    }
    marks
}
