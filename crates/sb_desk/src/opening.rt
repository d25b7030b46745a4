//! A table for a value, and its passes.
ghost use Rattle.std.specs.Prelude.{◌≡◌, ◌<◌, ◌≤◌, ◌^◌, List, [], ◌∷◌, ◌++◌, Option, Some, None, length, map, vec_capacity, IfOk, IfErr};
ghost use Rattle.sb_machine.specs.Consistent.{IsConsistent};
ghost use Rattle.sb_machine.specs.declared.state.State.{State};
ghost use Rattle.sb_desk.specs.declared.report.Origin.{Origin};
ghost use Rattle.sb_desk.specs.declared.view.Stage.TheVariants.{Idle};
ghost use Rattle.sb_desk.specs.Desks.{below};
ghost use Rattle.sb_desk.specs.Lists.{Each};
ghost use Rattle.sb_desk.specs.Rule.{opening_view};
ghost use Rattle.sb_desk.specs.Steps.{IsSized, less_one, one_more};

use crate::plays::More;
use crate::turns::{Place, Top, Whole};
use crate::view::{Held, Key};
use crate::{Pass, Post, Served};
use atomic_table::{Refused, Table};
use std::alloc::{AllocFailed, Global};
use std::snapshot::Snapshot;

/// A table with this value and no posts in its slot, and the seat that stands for all passes; or the value
/// back, where there is no memory.
pub(crate) fn open_table<V: Served>(
    alloc: Global,
    value: V,
    posts: Vec<Post>,
    passes: usize,
) -> Result<(Whole<V>, Place<V>), V>
    requires few { (0 < passes) × (passes ≤ 2 ^ 63) }
    requires stands { V.stands value (V.state value) [] }
    requires posts { (posts.items ≡ []) × (passes ≤ vec_capacity posts) }
    ensures ok { IfOk result (λ r. IsSized r.0.shared.table_id × (r.0.shared.key.passes ≡ passes) × (r.0.shared.key.value.value ≡ value) × (r.1.table_id ≡ r.0.shared.table_id) × (r.1.me ≡ (opening_view (V.state value) (V.origin value) passes, []))) }
    ensures err { IfErr result (λ v. v ≡ value) }
{
    let key = Key {
        value: Snapshot::of(&value),
        passes: passes as u64,
    };
    let held = Held {
        value,
        posts,
        answered: 0,
    };
    match one_slot(alloc, held) {
        Ok(slots) => match Table::new(alloc, &[0, 0, 0], slots, &key) {
            Ok(opened) => Ok(opened),
            Err(Refused { slots }) => Err(value_in(only_one(slots))),
        },
        Err(held) => Err(value_in(held)),
    }
}

// The value out of what lies in the slot.
fn value_in<V: Served>(held: Held<V>) -> V
    ensures { result ≡ held.value }
{
    let Held {
        value,
        posts,
        answered: _,
    } = held;
    drop(posts);
    value
}

// The value in a list of one, or back, where there is no memory.
fn one_slot<V>(alloc: Global, value: V) -> Result<Vec<Option<V>>, V>
    ensures ok { IfOk result (λ v. v.items ≡ Some value ∷ []) }
    ensures err { IfErr result (λ v. v ≡ value) }
{
    let Ok(mut slots) = Vec::with_capacity(alloc, 1) else {
        return Err(value);
    };
    if let Err(failed) = slots.push(Some(value)) {
        let AllocFailed { value } = failed;
        slots.destroy_empty();
        return Err(value.unwrap());
    }
    Ok(slots)
}

// The value out of such a list.
fn only_one<V>(slots: Vec<Option<V>>) -> V
    requires { (v : V) × (slots.items ≡ Some v ∷ []) }
    ensures { slots.items ≡ Some result ∷ [] }
{
    let mut slots = slots;
    let slot = slots.pop().unwrap();
    slots.destroy_empty();
    slot.unwrap()
}

/// The passes of a table that is new, from the one of the greatest number to the one of number 0.
pub(crate) fn deal_out<V: Served>(
    top: &Top<V>,
    place: Place<V>,
    room: Vec<Pass>,
    passes: usize,
) -> Vec<Pass>
    requires table { (place.table_id ≡ top.now.table_id) × IsSized top.now.table_id × (0 < passes) }
    requires place { (start : State) × (origin : Origin) × (place.me ≡ (opening_view start origin passes, [])) × (passes ≤ 2 ^ 63) × IsConsistent start }
    requires room { (room.items ≡ []) × (passes ≤ vec_capacity room) }
    ensures all { length result.items ≡ passes }
    ensures each { Each (λ p. (p.desk ≡ top.now.table_id) × (p.start ≡ place.me.0.start) × (p.origin ≡ place.me.0.origin) × (p.passes ≡ place.me.0.passes) × (p.seen ≡ [])) result.items }
    ensures seats { map (λ p. p.seat) result.items ≡ below passes }
{
    let mut place = place;
    let mut dealt = room;
    for number in 1..passes {
        let more = deal(top, &mut place);
        add(
            &mut dealt,
            Pass {
                badge: more.into_badge(),
                seat: (passes - number) as u64,
            },
        );
    }
    add(
        &mut dealt,
        Pass {
            badge: place.into_badge(),
            seat: 0,
        },
    );
    dealt
}

// One more pass in a list that has room for it.
fn add(passes: &mut Vec<Pass>, pass: Pass)
    requires room { length passes.old.items < vec_capacity passes.old }
    ensures items { passes.new.items ≡ passes.old.items ++ pass ∷ [] }
    ensures room { vec_capacity passes.old ≤ vec_capacity passes.new }
{
    drop(passes.push(pass));
}

// One more seat, with one part of those that this seat has, and the last number.
fn deal<V: Served>(top: &Top<V>, place: &mut Place<V>) -> Place<V>
    requires table { (place.old.table_id ≡ top.now.table_id) × IsSized top.now.table_id }
    requires idle { (place.old.me.0.stage ≡ Idle) × (place.old.me.0.post ≡ None) × (1 < place.old.me.0.parts) × (0 < place.old.me.0.spare) }
    ensures less { (place.new.table_id ≡ place.old.table_id) × (place.new.id ≡ place.old.id) × (place.new.me ≡ (less_one place.old.me.0, place.old.me.1)) }
    ensures more { (result.table_id ≡ place.old.table_id) × (result.me ≡ (one_more place.old.me.0, [])) }
{
    top.split_seat::<More>(place)
}
