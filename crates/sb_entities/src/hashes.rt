// Rows of entities in an index, under hashes of their addresses or of their topics' names.
ghost use Rattle.std.specs.Prelude.{◌≡◌, ℕ, ◌+◌, ◌*◌, ◌^◌, ◌<◌, ◌≤◌, ◌&&◌, find, Option};
ghost use Rattle.std.specs.Option.{option_map};
ghost use Rattle.sb_index.specs.Rows.{is_below, is_from, Lacks};
ghost use Rattle.sb_machine.specs.Each.{IsSorted};
ghost use Rattle.sb_machine.specs.declared.state.Entity.{Entity};
ghost use Rattle.sb_entities.specs.ByHash as spec;
ghost use Rattle.sb_entities.specs.ByHash.{HoldsBy};
ghost use Rattle.sb_entities.specs.Stores.{entities_in, entity_in};
ghost use Rattle.sb_entities.specs.Tables.{is_earlier};

use crate::entity::EntityStore;
use crate::rows::numbered;
use sb_index::{Index, Row, hash_of};
use sb_machine::Path;

// How many keys a hash has.
const SPAN: u128 = 1 << 64;

// ---- what an address comes to

/// What a name comes to.
pub fn name_hash(name: &str) -> u64
    ensures hash { result ≡ spec.name_hash name.now }
    ensures half { result < 2 ^ 63 }
{
    hash_of(name.as_bytes()) / 2
}

/// What an address comes to.
pub fn path_hash(path: &Path) -> u64
    ensures hash { result ≡ spec.path_hash path.now }
    ensures half { result < 2 ^ 63 }
{
    let hash = name_hash(path.name.as_str());
    match &path.subscription {
        Some(own) => hash / 2 + name_hash(own.as_str()) / 4,
        None => hash,
    }
}

/// What the name of the topic comes to that the address of a subscription is under.
pub fn topic_hash(path: &Path) -> Option<u64>
    ensures { result ≡ spec.topic_hash path.now }
{
    match &path.subscription {
        Some(_) => Some(name_hash(path.name.as_str())),
        None => None,
    }
}

/// What the address of the entity of this number comes to.
pub fn path_hash_at(rows: &[EntityStore], number: u64) -> Option<u64>
    requires { IsSorted is_earlier rows.now }
    ensures { result ≡ spec.hash_at spec.hash_of_path number (entities_in rows.now) }
{
    match numbered(rows, number) {
        Some(entity) => Some(path_hash(&entity.about().path)),
        None => None,
    }
}

/// What its topic's name comes to, where it is a subscription.
pub fn topic_hash_at(rows: &[EntityStore], number: u64) -> Option<u64>
    requires { IsSorted is_earlier rows.now }
    ensures { result ≡ spec.hash_at spec.hash_of_topic number (entities_in rows.now) }
{
    match numbered(rows, number) {
        Some(entity) => topic_hash(&entity.about().path),
        None => None,
    }
}

// ---- rows

/// The key under a hash of the entity of this number.
pub fn key_of(hash: u64, number: u64) -> u128
    ensures { result ≡ spec.entity_key hash number }
{
    u128::from(hash) * SPAN + u128::from(number)
}

fn row_of(hash: u64, number: u64) -> Row
    ensures { result ≡ spec.hash_row hash number }
{
    Row {
        key: key_of(hash, number),
        value: number,
        marked: false,
        due: u64::MAX,
    }
}

// The first row whose key is one of `from..below`.
fn first_within(index: &Index, from: u128, below: u128) -> Option<Row>
    ensures { result ≡ find (λ x. is_from from x && is_below below x) index.now.rows }
{
    index.rises();
    match index.first_from(from) {
        Some(row) if row.key < below => Some(row),
        _ => None,
    }
}

/// The first entity that comes to a hash and whose key under it is at least `from`, by the index
/// that has the rows of those that come to one.
pub fn first_from<'a>(
    rows: &'a [EntityStore],
    index: &Index,
    hash: u64,
    from: u128,
) -> Option<&'a EntityStore>
    requires order { IsSorted is_earlier rows.now }
    requires half { hash < 2 ^ 63 }
    requires within { hash * spec.span ≤ from }
    ensures { (f : Entity → Option ℕ) → HoldsBy f index.now.rows (entities_in rows.now) → option_map (λ e. entity_in e.now) result ≡ find (λ e. spec.is_left hash from e && spec.is_hashed_to f hash e) (entities_in rows.now) }
{
    match first_within(index, from, key_of(hash, 0) + SPAN) {
        Some(row) => numbered(rows, row.value),
        None => None,
    }
}

// ---- changes

/// Puts the row of the entity of this number there, where it comes to a hash.
pub fn put(index: &mut Index, hash: Option<u64>, number: u64)
    requires room { 1 ≤ index.old.spare }
    requires apart { (h : ℕ) → Lacks (spec.entity_key h number) index.old.rows }
    ensures rows { index.new.rows ≡ spec.with_entity hash number index.old.rows }
    ensures spare { index.old.spare ≤ index.new.spare + 1 }
{
    if let Some(hash) = hash {
        index.insert(row_of(hash, number));
    }
}

/// Takes the row of the entity of this number out, where it comes to a hash.
pub fn take(index: &mut Index, hash: Option<u64>, number: u64)
    ensures rows { index.new.rows ≡ spec.without_entity hash number index.old.rows }
    ensures spare { index.new.spare ≡ index.old.spare }
{
    if let Some(hash) = hash {
        let _ = index.remove(key_of(hash, number));
    }
}
