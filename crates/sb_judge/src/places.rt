// Entities by their addresses: that no two are at one address, and that topics are there.
ghost use Rattle.std.specs.Prelude.{◌≡◌, ◌==◌, ◌+◌, ℕ, find, true, Option, Some, None, option_map, if◌then◌else◌, OnOk, IfOk};
ghost use Rattle.std.specs.BTreeMap.{get};
ghost use Rattle.std.specs.List.{list_all, slice_get};
ghost use Rattle.std.specs.Ordering.{nat_cmp};
ghost use Rattle.sb_machine.specs.Each.{is_topic_at};
ghost use Rattle.sb_machine.specs.Names as names;
ghost use Rattle.sb_machine.specs.Rows as rows;
ghost use Rattle.sb_judge.specs.Entities.{topic_verdict, AreNumbered};
ghost use Rattle.sb_judge.specs.Decided.{paths_verdict};
ghost use Rattle.sb_judge.specs.Orders.{tested};
ghost use Rattle.sb_judge.specs.Places as spec;
ghost use Rattle.sb_judge.specs.Places.{Tells};

use sb_index::hash_of;
use sb_machine::{Entity, EntityKind, Path, Space};
use sb_model::Name;
use std::alloc::{AllocError, Global};
use std::collections::BTreeMap;

/// Of each hash that an address comes to, the place of the first such entity.
pub(crate) fn places_of(
    alloc: Global,
    entities: &[Entity],
) -> Result<BTreeMap<u64, u64>, AllocError>
    ensures { IfOk result (λ places. Tells places entities.now) }
{
    let mut places = BTreeMap::new(alloc);
    let mut place = 0;
    for entity in entities {
        put_place(&mut places, path_hash(&entity.about.path), place)?;
        place += 1;
    }
    Ok(places)
}

/// Whether no two entities have one address.
#[tactic(auto, using(crate::proofs::Addressed::all_first))]
pub(crate) fn are_apart(entities: &[Entity], places: &BTreeMap<u64, u64>) -> bool
    requires numbered { AreNumbered entities.now }
    requires told { Tells places.now entities.now }
    ensures { result ≡ (paths_verdict entities.now).0 }
{
    are_first(entities, places)
}

/// Whether each subscription's topic is there.
pub(crate) fn have_topics(space: &Space, places: &BTreeMap<u64, u64>) -> bool
    requires { Tells places.now space.now.entities }
    ensures { result ≡ list_all (λ e. (topic_verdict space.now e).0) space.now.entities }
{
    for entity in space.entities.as_slice() {
        if !has_topic(space, places, entity) {
            return false;
        }
    }
    true
}

// ---- places

fn path_hash(path: &Path) -> u64
    ensures { result ≡ spec.path_hash path.now.name path.now.subscription }
{
    name_hash(path.name.as_str(), &path.subscription)
}

fn name_hash(name: &str, own: &Option<Name>) -> u64
    ensures { result ≡ spec.path_hash name.now own.now }
{
    let hash = hash_of(name.as_bytes());
    match own {
        Some(own) => hash / 2 + hash_of(own.as_bytes()) / 4,
        None => hash,
    }
}

fn put_place(places: &mut BTreeMap<u64, u64>, hash: u64, place: u64) -> Result<(), AllocError>
    ensures { OnOk result ((k : ℕ) → get nat_cmp places.new k ≡ spec.first_of (get nat_cmp places.old k) (if hash == k then Some place else None)) }
{
    if places.get(&hash).is_none() {
        places.insert(hash, place)?;
    }
    Ok(())
}

// ---- finding

fn is_same_option(a: &Option<Name>, b: &Option<Name>) -> bool
    ensures { result ≡ names.is_same_option a.now b.now }
{
    match (a, b) {
        (None, None) => true,
        (Some(a), Some(b)) => a.as_str() == b.as_str(),
        _ => false,
    }
}

fn is_named(entity: &Entity, name: &str, own: &Option<Name>) -> bool
    ensures { result ≡ spec.is_named name.now own.now entity.now }
{
    let path = &entity.about.path;
    path.name.as_str() == name && is_same_option(&path.subscription, own)
}

fn place_of(places: &BTreeMap<u64, u64>, hash: u64) -> Option<usize>
    ensures { result ≡ get nat_cmp places.now hash }
{
    match places.get(&hash) {
        Some(place) => Some(*place as usize),
        None => None,
    }
}

fn named_at<'a>(
    entities: &'a [Entity],
    place: usize,
    name: &str,
    own: &Option<Name>,
) -> Option<&'a Entity>
    ensures { option_map (λ e. e.now) result ≡ tested (spec.is_named name.now own.now) (slice_get entities.now place) }
{
    match entities.get(place) {
        Some(entity) => {
            if is_named(entity, name, own) {
                Some(entity)
            } else {
                None
            }
        }
        None => None,
    }
}

fn somewhere<'a>(entities: &'a [Entity], name: &str, own: &Option<Name>) -> Option<&'a Entity>
    ensures { option_map (λ e. e.now) result ≡ find (spec.is_named name.now own.now) entities.now }
{
    for entity in entities {
        if is_named(entity, name, own) {
            return Some(entity);
        }
    }
    None
}

// The first of this address. Where the first of its hash has another, all are looked at.
#[tactic(auto, using(crate::proofs::Addressed::found_there, crate::proofs::Addressed::found_nowhere))]
fn named<'a>(
    entities: &'a [Entity],
    places: &BTreeMap<u64, u64>,
    name: &str,
    own: &Option<Name>,
) -> Option<&'a Entity>
    requires { Tells places.now entities.now }
    ensures { option_map (λ e. e.now) result ≡ find (spec.is_named name.now own.now) entities.now }
{
    let Some(place) = place_of(places, name_hash(name, own)) else {
        return None;
    };
    match named_at(entities, place, name, own) {
        Some(entity) => Some(entity),
        None => somewhere(entities, name, own),
    }
}

// ---- addresses

fn is_first(entities: &[Entity], places: &BTreeMap<u64, u64>, entity: &Entity) -> bool
    requires { Tells places.now entities.now }
    ensures { result ≡ spec.is_first entities.now entity.now }
{
    let path = &entity.about.path;
    match named(entities, places, path.name.as_str(), &path.subscription) {
        Some(first) => first.about.number == entity.about.number,
        None => false,
    }
}

fn are_first(entities: &[Entity], places: &BTreeMap<u64, u64>) -> bool
    requires { Tells places.now entities.now }
    ensures { result ≡ list_all (spec.is_first entities.now) entities.now }
{
    for entity in entities {
        if !is_first(entities, places, entity) {
            return false;
        }
    }
    true
}

// ---- topics

fn is_topic(kind: EntityKind) -> bool
    ensures { result ≡ rows.is_topic kind }
{
    match kind {
        EntityKind::Topic => true,
        EntityKind::Queue | EntityKind::Subscription => false,
    }
}

fn is_topic_named(entities: &[Entity], places: &BTreeMap<u64, u64>, name: &str) -> bool
    requires { Tells places.now entities.now }
    ensures { result ≡ is_topic_at (find (spec.is_named name.now None) entities.now) }
{
    match named(entities, places, name, &None) {
        Some(entity) => is_topic(entity.about.kind),
        None => false,
    }
}

#[tactic(auto, unfolding(crate::specs::Entities::topic_verdict))]
fn has_topic(space: &Space, places: &BTreeMap<u64, u64>, entity: &Entity) -> bool
    requires { Tells places.now space.now.entities }
    ensures { result ≡ (topic_verdict space.now entity.now).0 }
{
    let path = &entity.about.path;
    match &path.subscription {
        Some(_) => is_topic_named(space.entities.as_slice(), places, path.name.as_str()),
        None => true,
    }
}
