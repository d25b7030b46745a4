// Finding an entity by its address or its name.
ghost use Rattle.std.specs.Prelude.{◌≡◌, ◌≤◌, find, length, map, if◌then◌else◌, IfOk};
ghost use Rattle.std.specs.List.{prefix_len};
ghost use Rattle.std.specs.Option.{option_map};
ghost use Rattle.sb_machine.specs.Names as names;
ghost use Rattle.sb_machine.specs.Visits as visits;
ghost use Rattle.sb_machine.specs.Each.{IsSorted};
ghost use Rattle.sb_entities.specs.ByHash.{hash_of_path, hash_of_topic, HoldsBy};
ghost use Rattle.sb_entities.specs.Names.{AreByName};
ghost use Rattle.sb_entities.specs.Stores.{entities_in, entity_in};
ghost use Rattle.sb_entities.specs.Tables.{is_earlier};

use crate::entity::EntityStore;
use crate::hashes::{first_from, key_of, name_hash, path_hash};
use sb_index::Index;
use sb_machine::{Listed, Path};
use sb_model::Name;
use std::alloc::{AllocError, Global};

fn is_same_option(a: &Option<Name>, b: &Option<Name>) -> bool
    ensures { result ≡ names.is_same_option a.now b.now }
{
    match (a, b) {
        (None, None) => true,
        (Some(a), Some(b)) => a.as_str() == b.as_str(),
        _ => false,
    }
}

fn is_same_entity(a: &Path, b: &Path) -> bool
    ensures { result ≡ names.is_same_entity a.now b.now }
{
    a.name.as_str() == b.name.as_str() && is_same_option(&a.subscription, &b.subscription)
}

/// The entity that an address names, by the index that has the rows by address.
///
/// Where another's address comes to the same hash, and the first is that one, all are looked at.
pub fn entity_at<'a>(rows: &'a [EntityStore], paths: &Index, path: &Path) -> Option<&'a EntityStore>
    requires order { IsSorted is_earlier rows.now }
    requires holds { HoldsBy hash_of_path paths.now.rows (entities_in rows.now) }
    ensures { option_map (λ e. entity_in e.now) result ≡ find (λ e. names.is_same_entity e.about.path path.now) (entities_in rows.now) }
{
    let hash = path_hash(path);
    let Some(entity) = first_from(rows, paths, hash, key_of(hash, 0)) else {
        return None;
    };
    if is_same_entity(&entity.about().path, path) {
        Some(entity)
    } else {
        entity_somewhere(rows, path)
    }
}

fn entity_somewhere<'a>(rows: &'a [EntityStore], path: &Path) -> Option<&'a EntityStore>
    ensures { option_map (λ e. entity_in e.now) result ≡ find (λ e. names.is_same_entity e.about.path path.now) (entities_in rows.now) }
{
    for entity in rows {
        if is_same_entity(&entity.about().path, path) {
            return Some(entity);
        }
    }
    None
}

// ---- by name

fn is_named(entity: &Listed, name: &str) -> bool
    ensures { result ≡ visits.is_named name.now entity.now }
{
    entity.path.subscription.is_none() && entity.path.name.as_str() == name
}

/// What is listed of the queue or topic of this name, by the index that has the rows by address.
pub fn destination<'a>(rows: &'a [EntityStore], paths: &Index, name: &str) -> Option<&'a Listed>
    requires order { IsSorted is_earlier rows.now }
    requires holds { HoldsBy hash_of_path paths.now.rows (entities_in rows.now) }
    ensures { option_map (λ e. e.now) result ≡ visits.destination (map (λ e. e.about) (entities_in rows.now)) name.now }
{
    let hash = name_hash(name);
    let Some(entity) = first_from(rows, paths, hash, key_of(hash, 0)) else {
        return None;
    };
    if is_named(entity.about(), name) {
        Some(entity.about())
    } else {
        destination_somewhere(rows, name)
    }
}

fn destination_somewhere<'a>(rows: &'a [EntityStore], name: &str) -> Option<&'a Listed>
    ensures { option_map (λ e. e.now) result ≡ visits.destination (map (λ e. e.about) (entities_in rows.now)) name.now }
{
    for entity in rows {
        if is_named(entity.about(), name) {
            return Some(entity.about());
        }
    }
    None
}

fn is_under(entity: &Listed, topic: &str) -> bool
    ensures { result ≡ visits.is_under topic.now entity.now }
{
    entity.path.subscription.is_some() && entity.path.name.as_str() == topic
}

fn own_name(entity: &Listed) -> &str
    ensures { result.now ≡ visits.own_name entity.now }
{
    match &entity.path.subscription {
        Some(name) => name.as_str(),
        None => "",
    }
}

fn before_name(found: &[&Listed], name: &str) -> usize
    requires { AreByName (map (λ e. e.now) found.now) }
    ensures value { result ≡ prefix_len (λ q. names.is_before (visits.own_name q.now) name.now) found.now }
    ensures within { result ≤ length found.now }
{
    found.partition_point(|q| own_name(q) < name)
}

// How many of them stand before this one by name.
fn place_by_name(found: &[&Listed], entity: &Listed) -> usize
    requires { AreByName (map (λ e. e.now) found.now) }
    ensures value { result ≡ prefix_len (λ q. names.is_before (visits.own_name q.now) (visits.own_name entity.now)) found.now }
    ensures within { result ≤ length found.now }
{
    before_name(found, own_name(entity))
}

fn with_next<'a>(found: Vec<&'a Listed>, entity: &'a Listed) -> Result<Vec<&'a Listed>, AllocError>
    requires { AreByName (map (λ e. e.now) found.items) }
    ensures found { IfOk result (λ v. map (λ e. e.now) v.items ≡ visits.with_next (map (λ e. e.now) found.entry.items) entity.now) }
    ensures order { IfOk result (λ v. AreByName (map (λ e. e.now) v.items)) }
{
    let place = place_by_name(&found, entity);
    let mut found = found;
    found.insert(place, entity)?;
    Ok(found)
}

// With this one, where it is under the topic.
fn with_if_under<'a>(
    found: Vec<&'a Listed>,
    entity: &'a Listed,
    topic: &str,
) -> Result<Vec<&'a Listed>, AllocError>
    requires { AreByName (map (λ e. e.now) found.items) }
    ensures found { IfOk result (λ v. map (λ e. e.now) v.items ≡ (if visits.is_under topic.now entity.now then visits.with_next (map (λ e. e.now) found.entry.items) entity.now else map (λ e. e.now) found.entry.items)) }
    ensures order { IfOk result (λ v. AreByName (map (λ e. e.now) v.items)) }
{
    if is_under(entity, topic) {
        with_next(found, entity)
    } else {
        Ok(found)
    }
}

/// What is listed of a topic's subscriptions, in order of name, by the index that has their rows by
/// topic: what is under another hash isn't looked at.
pub fn subscriptions_of<'a>(
    alloc: Global,
    rows: &'a [EntityStore],
    topics: &Index,
    topic: &str,
) -> Result<Vec<&'a Listed>, AllocError>
    requires order { IsSorted is_earlier rows.now }
    requires holds { HoldsBy hash_of_topic topics.now.rows (entities_in rows.now) }
    ensures { IfOk result (λ v. map (λ e. e.now) v.items ≡ visits.subscriptions_of (map (λ e. e.about) (entities_in rows.now)) topic.now) }
{
    let hash = name_hash(topic);
    let mut found = Vec::new(alloc);
    let mut from = key_of(hash, 0);
    'walk: while let Some(entity) = first_from(rows, topics, hash, from) {
        found = with_if_under(found, entity.about(), topic)?;
        from = key_of(hash, entity.about().number) + 1;
    }
    Ok(found)
}
