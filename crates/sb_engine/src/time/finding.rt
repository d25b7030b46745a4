// The copies that the sweeps of a tick look for, where they stand.
ghost use Rattle.std.specs.Prelude.{◌≡◌, [], ◌++◌, map, filter, true, IfOk};
ghost use Rattle.std.specs.List.{flat_map};
ghost use Rattle.sb_machine.specs.declared.call.Part.TheVariants.{Main as MainPart};
ghost use Rattle.sb_entities.specs.Stores.{entity_in, space_in};
ghost use Rattle.sb_engine.specs.Sweeps as spec;
ghost use Rattle.sb_engine.specs.declared.time.finding.Search.TheVariants.{Ended};

use crate::deliver::release::is_expired;
use crate::time::due::any_session;
use sb_copies::{Shelf, has_come, has_ended, is_ready};
use sb_entities::{EntityStore, SpaceStore};
use sb_machine::{Part, Session, StoredCopy};
use std::alloc::{AllocError, Global};

/// What a sweep looks for.
#[derive(Clone, Copy)]
pub enum Search {
    /// Copies under a lock that has ended.
    Ended,
    /// Copies that may be received and have expired.
    Expired,
    /// Scheduled copies whose moment has come.
    Come,
}

/// A copy where it was found.
#[derive(Clone, Copy)]
pub struct Found<'a> {
    pub entity: &'a EntityStore,
    pub part: Part,
    pub copy: &'a StoredCopy,
}

fn is_looked_for(search: Search, moment: u64, sessions: &[Session], copy: &StoredCopy) -> bool
    ensures { result ≡ spec.is_looked_for search moment sessions.now copy.now }
{
    match search {
        Search::Ended => has_ended(copy.standing, moment, sessions),
        Search::Expired => is_ready(copy.standing) && is_expired(copy, moment),
        Search::Come => has_come(copy.standing, moment),
    }
}

fn with_each<'a>(
    found: Vec<Found<'a>>,
    search: Search,
    moment: u64,
    entity: &'a EntityStore,
    part: Part,
    sessions: &[Session],
    copies: &[&'a StoredCopy],
) -> Result<Vec<Found<'a>>, AllocError>
    ensures { IfOk result (λ v. spec.items_in v.items ≡ spec.items_in found.entry.items ++ map (spec.item (entity_in entity.now) part) (filter (spec.is_looked_for search moment sessions.now) (map (λ c. c.now) copies.now))) }
{
    let mut found = found;
    for copy in copies {
        let copy = *copy;
        if is_looked_for(search, moment, sessions, copy) {
            found.push(Found { entity, part, copy })?;
        }
    }
    Ok(found)
}

// Whether the copies that are looked for are among those that come due by themselves.
fn is_told(search: Search, moment: u64, sessions: &[Session], copies: &Shelf) -> bool
    ensures { result ≡ spec.is_told search moment sessions.now copies.now.expires }
{
    match search {
        Search::Ended => !any_session(sessions, moment),
        Search::Expired => copies.expires(),
        Search::Come => true,
    }
}

// Looks at what has come due alone.
fn with_due<'a>(
    found: Vec<Found<'a>>,
    search: Search,
    moment: u64,
    entity: &'a EntityStore,
    part: Part,
    sessions: &[Session],
    copies: &'a Shelf,
) -> Result<Vec<Found<'a>>, AllocError>
    requires told { spec.is_told search moment sessions.now copies.now.expires ≡ true }
    ensures { IfOk result (λ v. spec.items_in v.items ≡ spec.items_in found.entry.items ++ map (spec.item (entity_in entity.now) part) (filter (spec.is_looked_for search moment sessions.now) copies.now.copies)) }
{
    let due = copies.due_by(moment)?;
    with_each(found, search, moment, entity, part, sessions, &due)
}

fn with_these<'a>(
    found: Vec<Found<'a>>,
    entity: &'a EntityStore,
    part: Part,
    copies: &[&'a StoredCopy],
) -> Result<Vec<Found<'a>>, AllocError>
    ensures { IfOk result (λ v. spec.items_in v.items ≡ spec.items_in found.entry.items ++ map (spec.item (entity_in entity.now) part) (map (λ c. c.now) copies.now)) }
{
    let mut found = found;
    for copy in copies {
        let copy = *copy;
        found.push(Found { entity, part, copy })?;
    }
    Ok(found)
}

// Looks at what has come due, and at what is under the locks of sessions that ended.
fn with_ended<'a>(
    found: Vec<Found<'a>>,
    moment: u64,
    entity: &'a EntityStore,
    part: Part,
    sessions: &[Session],
    copies: &'a Shelf,
) -> Result<Vec<Found<'a>>, AllocError>
    ensures { IfOk result (λ v. spec.items_in v.items ≡ spec.items_in found.entry.items ++ map (spec.item (entity_in entity.now) part) (filter (spec.is_looked_for Ended moment sessions.now) copies.now.copies)) }
{
    let ended = copies.ended(moment, sessions)?;
    with_these(found, entity, part, &ended)
}

// Looks at each copy.
fn with_all<'a>(
    found: Vec<Found<'a>>,
    search: Search,
    moment: u64,
    entity: &'a EntityStore,
    part: Part,
    sessions: &[Session],
    copies: &'a Shelf,
) -> Result<Vec<Found<'a>>, AllocError>
    ensures { IfOk result (λ v. spec.items_in v.items ≡ spec.items_in found.entry.items ++ map (spec.item (entity_in entity.now) part) (filter (spec.is_looked_for search moment sessions.now) copies.now.copies)) }
{
    let all = copies.all()?;
    with_each(found, search, moment, entity, part, sessions, &all)
}

// Where more is looked for than what has come due.
fn with_more<'a>(
    found: Vec<Found<'a>>,
    search: Search,
    moment: u64,
    entity: &'a EntityStore,
    part: Part,
    sessions: &[Session],
    copies: &'a Shelf,
) -> Result<Vec<Found<'a>>, AllocError>
    ensures { IfOk result (λ v. spec.items_in v.items ≡ spec.items_in found.entry.items ++ map (spec.item (entity_in entity.now) part) (filter (spec.is_looked_for search moment sessions.now) copies.now.copies)) }
{
    match search {
        Search::Ended => with_ended(found, moment, entity, part, sessions, copies),
        Search::Expired | Search::Come => {
            with_all(found, search, moment, entity, part, sessions, copies)
        }
    }
}

fn with_part<'a>(
    found: Vec<Found<'a>>,
    search: Search,
    moment: u64,
    entity: &'a EntityStore,
    part: Part,
) -> Result<Vec<Found<'a>>, AllocError>
    ensures { IfOk result (λ v. spec.items_in v.items ≡ spec.items_in found.entry.items ++ spec.found_in search moment (entity_in entity.now) part) }
{
    let store = entity.part(part);
    let sessions = store.sessions().as_slice();
    let copies = store.copies();
    if is_told(search, moment, sessions, copies) {
        return with_due(found, search, moment, entity, part, sessions, copies);
    }
    with_more(found, search, moment, entity, part, sessions, copies)
}

fn with_entity<'a>(
    found: Vec<Found<'a>>,
    search: Search,
    moment: u64,
    entity: &'a EntityStore,
) -> Result<Vec<Found<'a>>, AllocError>
    ensures { IfOk result (λ v. spec.items_in v.items ≡ spec.items_in found.entry.items ++ spec.found_of search moment (entity_in entity.now)) }
{
    let found = with_part(found, search, moment, entity, Part::Main)?;
    let found = with_part(found, search, moment, entity, Part::Dead)?;
    with_part(found, search, moment, entity, Part::Transfer)
}

fn find_in_parts<'a>(
    alloc: Global,
    entities: &[&'a EntityStore],
    search: Search,
    moment: u64,
) -> Result<Vec<Found<'a>>, AllocError>
    ensures { IfOk result (λ v. spec.items_in v.items ≡ flat_map (spec.found_of search moment) (map (λ e. entity_in e.now) entities.now)) }
{
    let mut found = Vec::new(alloc);
    for entity in entities {
        found = with_entity(found, search, moment, *entity)?;
    }
    Ok(found)
}

fn find_in_mains<'a>(
    alloc: Global,
    entities: &[&'a EntityStore],
    search: Search,
    moment: u64,
) -> Result<Vec<Found<'a>>, AllocError>
    ensures { IfOk result (λ v. spec.items_in v.items ≡ flat_map (λ e. spec.found_in search moment e MainPart) (map (λ e. entity_in e.now) entities.now)) }
{
    let mut found = Vec::new(alloc);
    for entity in entities {
        found = with_part(found, search, moment, *entity, Part::Main)?;
    }
    Ok(found)
}

// What has expired in a part that isn't a main one doesn't come due, and is looked for in each entity.
fn reach(search: Search, moment: u64) -> u64
    ensures { result ≡ spec.reach search moment }
{
    match search {
        Search::Ended | Search::Come => moment,
        Search::Expired => u64::MAX,
    }
}

/// What is found in all parts, by entity, then part, then number.
pub fn find_all<'a>(
    alloc: Global,
    space: &'a SpaceStore,
    search: Search,
    moment: u64,
) -> Result<Vec<Found<'a>>, AllocError>
    ensures { IfOk result (λ v. spec.items_in v.items ≡ flat_map (spec.found_of search moment) (space_in space.now).entities) }
{
    let due = space.due_by(reach(search, moment))?;
    find_in_parts(alloc, &due, search, moment)
}

/// What is found in main parts alone, by entity, then number.
pub fn find_main<'a>(
    alloc: Global,
    space: &'a SpaceStore,
    search: Search,
    moment: u64,
) -> Result<Vec<Found<'a>>, AllocError>
    ensures { IfOk result (λ v. spec.items_in v.items ≡ flat_map (λ e. spec.found_in search moment e MainPart) (space_in space.now).entities) }
{
    let due = space.due_by(moment)?;
    find_in_mains(alloc, &due, search, moment)
}
