// Entities as rows: where one stands, and what changes there.
ghost use Rattle.std.specs.Prelude.{◌≡◌, ◌≤◌, ◌<◌, nat_lt, not, filter, find, length, position, slice_set, sum_by, IfSome, OnOk, OnErr, vec_len, vec_capacity};
ghost use Rattle.std.specs.List.{prefix_len, slice_get};
ghost use Rattle.std.specs.Option.{option_map};
ghost use Rattle.sb_machine.specs.Changes.{max_number};
ghost use Rattle.sb_machine.specs.Each.{IsSorted};
ghost use Rattle.sb_machine.specs.Namespace.{is_entity, live_in, made_in};
ghost use Rattle.sb_entities.specs.Released.{entry_shrunk};
ghost use Rattle.sb_entities.specs.Stocks.{has_number, entry_after, entry_grown, given_in, on_entry, IsReady, IsReadyAt};
ghost use Rattle.sb_entities.specs.Stores.{entity_in, entry_in, entries_in, entities_in};
ghost use Rattle.sb_entities.specs.Tables.{is_earlier};
ghost use Rattle.sb_entities.specs.Tallies.{TellsOfAll};

use crate::change::EntityChange;
use crate::entity::EntityStore;
use crate::place::EntityPlace;
use crate::tally::{NOTHING, Tally};
use std::alloc::AllocError;

// How many have lower numbers.
fn entry_of(rows: &[EntityStore], number: u64) -> usize
    requires { IsSorted is_earlier rows.now }
    ensures place { result ≡ prefix_len (λ e. nat_lt (entity_in e).about.number number) rows.now }
    ensures within { result ≤ length rows.now }
{
    rows.partition_point(|e| e.about().number < number)
}

fn place_of(rows: &[EntityStore], number: u64) -> Option<usize>
    requires { IsSorted is_earlier rows.now }
    ensures { result ≡ position (λ e. has_number number (entry_in e)) rows.now }
{
    let place = entry_of(rows, number);
    match rows.get(place) {
        Some(entity) if entity.about().number == number => Some(place),
        _ => None,
    }
}

/// The entity of this number.
pub fn numbered(rows: &[EntityStore], number: u64) -> Option<&EntityStore>
    requires { IsSorted is_earlier rows.now }
    ensures { option_map (λ e. entity_in e.now) result ≡ find (is_entity number) (entities_in rows.now) }
{
    match place_of(rows, number) {
        Some(place) => Some(&rows[place]),
        None => None,
    }
}

/// The sum of the copy numbers given in the parts of the entities of this number.
pub fn numbers_in(rows: &[EntityStore], number: u64) -> u64
    requires { sum_by made_in (entities_in rows.now) ≤ max_number }
    ensures { result ≡ sum_by (λ x. made_in x.entity) (filter (has_number number) (entries_in rows.now)) }
{
    let mut all = 0;
    for entity in rows {
        if entity.about().number == number {
            all += entity.numbers();
        }
    }
    all
}

/// The copies that live in the parts of the entities of this number.
pub fn copies_in(rows: &[EntityStore], number: u64) -> u64
    requires { sum_by live_in (entities_in rows.now) ≤ max_number }
    ensures { result ≡ sum_by (λ x. live_in x.entity) (filter (has_number number) (entries_in rows.now)) }
{
    let mut all = 0;
    for entity in rows {
        if entity.about().number == number {
            all += entity.copies();
        }
    }
    all
}

// ---- promising a slot

fn reserve_at(rows: &mut Vec<EntityStore>, at: usize, place: EntityPlace) -> Result<(), AllocError>
    requires { at < length rows.old.items }
    ensures ok { OnOk result (IfSome (slice_get (entries_in rows.old.items) at) (λ x. entries_in rows.new.items ≡ slice_set (entries_in rows.old.items) at (entry_grown place x))) }
    ensures err { OnErr result (entries_in rows.new.items ≡ entries_in rows.old.items) }
    ensures len { vec_len rows.new ≡ vec_len rows.old }
    ensures capacity { vec_capacity rows.new ≡ vec_capacity rows.old }
{
    let entity = &mut rows[at];
    entity.reserve(place)
}

pub fn reserve_row(
    rows: &mut Vec<EntityStore>,
    number: u64,
    place: EntityPlace,
) -> Result<(), AllocError>
    requires { IsSorted is_earlier rows.old.items }
    ensures ok { OnOk result (entries_in rows.new.items ≡ on_entry number (entry_grown place) (entries_in rows.old.items)) }
    ensures err { OnErr result (entries_in rows.new.items ≡ entries_in rows.old.items) }
    ensures entities { entities_in rows.new.items ≡ entities_in rows.old.items }
    ensures len { vec_len rows.new ≡ vec_len rows.old }
    ensures capacity { vec_capacity rows.new ≡ vec_capacity rows.old }
{
    match place_of(rows, number) {
        Some(at) => reserve_at(rows, at, place),
        None => Ok(()),
    }
}

// ---- giving a slot back

fn release_at(rows: &mut Vec<EntityStore>, at: usize, place: EntityPlace)
    requires { at < length rows.old.items }
    ensures rows { IfSome (slice_get (entries_in rows.old.items) at) (λ x. entries_in rows.new.items ≡ slice_set (entries_in rows.old.items) at (entry_shrunk place x)) }
    ensures len { vec_len rows.new ≡ vec_len rows.old }
    ensures capacity { vec_capacity rows.new ≡ vec_capacity rows.old }
{
    let entity = &mut rows[at];
    entity.release(place);
}

pub fn release_row(rows: &mut Vec<EntityStore>, number: u64, place: EntityPlace)
    requires { IsSorted is_earlier rows.old.items }
    ensures rows { entries_in rows.new.items ≡ on_entry number (entry_shrunk place) (entries_in rows.old.items) }
    ensures entities { entities_in rows.new.items ≡ entities_in rows.old.items }
    ensures len { vec_len rows.new ≡ vec_len rows.old }
    ensures capacity { vec_capacity rows.new ≡ vec_capacity rows.old }
{
    if let Some(at) = place_of(rows, number) {
        release_at(rows, at, place);
    }
}

// ---- changing

fn change_at(rows: &mut Vec<EntityStore>, at: usize, moment: u64, change: EntityChange) -> Tally
    requires within { at < length rows.old.items }
    requires ready { IfSome (slice_get (entries_in rows.old.items) at) (IsReady change) }
    ensures rows { IfSome (slice_get (entries_in rows.old.items) at) (λ x. entries_in rows.new.items ≡ slice_set (entries_in rows.old.items) at (entry_after moment change x)) }
    ensures tally { TellsOfAll result (entities_in rows.old.items) (entities_in rows.new.items) }
    ensures given { result.given ≤ given_in change }
    ensures len { vec_len rows.new ≡ vec_len rows.old }
    ensures capacity { vec_capacity rows.new ≡ vec_capacity rows.old }
{
    let entity = &mut rows[at];
    entity.change(moment, change)
}

pub fn change_row(
    rows: &mut Vec<EntityStore>,
    number: u64,
    moment: u64,
    change: EntityChange,
) -> Tally
    requires order { IsSorted is_earlier rows.old.items }
    requires ready { IsReadyAt number change (entries_in rows.old.items) }
    ensures rows { entries_in rows.new.items ≡ on_entry number (entry_after moment change) (entries_in rows.old.items) }
    ensures tally { TellsOfAll result (entities_in rows.old.items) (entities_in rows.new.items) }
    ensures given { result.given ≤ given_in change }
    ensures len { vec_len rows.new ≡ vec_len rows.old }
    ensures capacity { vec_capacity rows.new ≡ vec_capacity rows.old }
{
    match place_of(rows, number) {
        Some(at) => change_at(rows, at, moment, change),
        None => {
            drop(change);
            NOTHING
        }
    }
}

pub fn remove_rows(rows: &mut Vec<EntityStore>, number: u64)
    ensures rows { entries_in rows.new.items ≡ filter (λ x. not (has_number number x)) (entries_in rows.old.items) }
    ensures len { vec_len rows.new ≤ vec_len rows.old }
    ensures capacity { vec_capacity rows.new ≡ vec_capacity rows.old }
{
    rows.retain(|e| e.about().number != number);
}
