// An id noted in its place, and those that are past their window forgotten.
ghost use Rattle.std.specs.Prelude.{◌≡◌, ℕ, ◌+◌, ◌≤◌, ◌<◌, ◌^◌, ◌==◌, ◌||◌, drop, filter, length, IfOk, IsTrue, Some};
ghost use Rattle.std.specs.List.{list_any};
ghost use Rattle.std.specs.VecDeque.{deque_len, deque_capacity};
ghost use Rattle.sb_index.specs.Rows.{is_at};
ghost use Rattle.sb_machine.specs.Changes as spec;
ghost use Rattle.sb_machine.specs.Each.{IsSorted};
ghost use Rattle.sb_machine.specs.Keyed.{with_sorted};
ghost use Rattle.sb_repeats.specs.Windows as windows;

use crate::known::{is_known, is_recent_at, key_of, place_of};
use sb_index::{Index, Row};
use sb_machine::AcceptedId;
use sb_model::Text;
use std::alloc::{AllocError, Global};
use std::collections::VecDeque;

/// Notes an id under a window, or none where there is no window.
pub(crate) fn note_under(
    ids: &mut VecDeque<AcceptedId>,
    known: &mut Index,
    window: Option<u64>,
    id: Text,
    moment: u64,
)
    requires told { windows.AreTold ids.old.items known.old.rows }
    requires room { deque_len ids.old < deque_capacity ids.old }
    requires nodes { 1 ≤ known.old.spare }
    ensures ids { ids.new.items ≡ spec.noted window id moment ids.old.items }
    ensures told { windows.AreTold ids.new.items known.new.rows }
    ensures len { deque_len ids.new ≤ deque_len ids.old + 1 }
    ensures capacity { deque_capacity ids.old ≤ deque_capacity ids.new }
    ensures nodes { known.old.spare ≤ known.new.spare + 1 }
{
    if let Some(seconds) = window {
        note_within(ids, known, seconds, id, moment);
    }
}

fn note_within(
    ids: &mut VecDeque<AcceptedId>,
    known: &mut Index,
    seconds: u64,
    id: Text,
    moment: u64,
)
    requires told { windows.AreTold ids.old.items known.old.rows }
    requires room { deque_len ids.old < deque_capacity ids.old }
    requires nodes { 1 ≤ known.old.spare }
    ensures ids { ids.new.items ≡ spec.noted (Some seconds) id moment ids.old.items }
    ensures told { windows.AreTold ids.new.items known.new.rows }
    ensures len { deque_len ids.new ≤ deque_len ids.old + 1 }
    ensures capacity { deque_capacity ids.old ≤ deque_capacity ids.new }
    ensures nodes { known.old.spare ≤ known.new.spare + 1 }
{
    if is_known(ids, known, seconds, id.as_str(), moment) {
        return;
    }
    forget(ids, known, seconds, moment);
    tell(known, key_of(id.as_str(), moment));
    insert_id(ids, id, moment);
}

fn insert_id(ids: &mut VecDeque<AcceptedId>, id: Text, moment: u64)
    requires order { IsSorted windows.comes_first ids.old.items }
    requires room { deque_len ids.old < deque_capacity ids.old }
    ensures ids { ids.new.items ≡ with_sorted (spec.is_earlier moment id) (record { moment = moment; id = id }) ids.old.items }
    ensures len { deque_len ids.new ≡ deque_len ids.old + 1 }
    ensures capacity { deque_capacity ids.old ≤ deque_capacity ids.new }
{
    let place = place_of(ids, moment, id.as_str());
    let _ = ids.insert(place, AcceptedId { moment, id });
}

// Puts the row of a key in, where none is there.
#[tactic(auto, using(crate::proofs::Keys::any_none, crate::proofs::Keys::told_again))]
fn tell(known: &mut Index, key: u128)
    requires nodes { 1 ≤ known.old.spare }
    ensures told { (k : ℕ) → list_any (is_at k) known.new.rows ≡ (k == key || list_any (is_at k) known.old.rows) }
    ensures nodes { known.old.spare ≤ known.new.spare + 1 }
{
    let None = known.get(key) else {
        return;
    };
    known.insert(Row {
        key,
        value: 0,
        marked: false,
        due: u64::MAX,
    });
}

// ---- those that are there already

/// An index with the rows of these.
pub(crate) fn index_of(alloc: Global, ids: &[AcceptedId]) -> Result<Index, AllocError>
    ensures tells { IfOk result (λ k. windows.Tells k.rows ids.now) }
    ensures moments { IfOk result (λ k. windows.AreMoments ids.now) }
{
    let mut known = Index::new(alloc);
    known.reserve(ids.len())?;
    tell_each(&mut known, ids);
    Ok(known)
}

#[tactic(auto, using(crate::proofs::Keys::told_one))]
fn tell_each(known: &mut Index, ids: &[AcceptedId])
    requires nodes { length ids.now ≤ known.old.spare }
    ensures told { (k : ℕ) → list_any (is_at k) known.new.rows ≡ (list_any (windows.has_key k) ids.now || list_any (is_at k) known.old.rows) }
    ensures moments { windows.AreMoments ids.now }
{
    for accepted in ids {
        tell_one(known, accepted);
    }
}

fn tell_one(known: &mut Index, accepted: &AcceptedId)
    requires nodes { 1 ≤ known.old.spare }
    ensures told { (k : ℕ) → list_any (is_at k) known.new.rows ≡ (windows.has_key k accepted.now || list_any (is_at k) known.old.rows) }
    ensures moment { accepted.now.moment < 2 ^ 64 }
    ensures nodes { known.old.spare ≤ known.new.spare + 1 }
{
    tell(known, key_of(accepted.id.as_str(), accepted.moment));
}

// ---- what is past

// The list goes by moment, so those past their window are at its front; ids of one key have one
// moment, so all of them go.
fn forget(ids: &mut VecDeque<AcceptedId>, known: &mut Index, seconds: u64, moment: u64)
    requires told { windows.AreTold ids.old.items known.old.rows }
    ensures ids { ids.new.items ≡ filter (spec.is_recent seconds moment) ids.old.items }
    ensures told { windows.AreTold ids.new.items known.new.rows }
    ensures len { deque_len ids.new ≤ deque_len ids.old }
    ensures capacity { deque_capacity ids.new ≡ deque_capacity ids.old }
    ensures nodes { known.new.spare ≡ known.old.spare }
{
    'past: while is_front_past(ids, seconds, moment) {
        forget_front(ids, known);
    }
}

fn is_front_past(ids: &VecDeque<AcceptedId>, seconds: u64, moment: u64) -> bool
    ensures is { result ≡ windows.is_first_past seconds moment ids.now.items }
    ensures there { IsTrue result → 1 ≤ deque_len ids.now }
{
    match ids.front() {
        Some(first) => !is_recent_at(first.moment, seconds, moment),
        None => false,
    }
}

fn forget_front(ids: &mut VecDeque<AcceptedId>, known: &mut Index)
    requires there { 1 ≤ deque_len ids.old }
    ensures ids { ids.new.items ≡ drop 1 ids.old.items }
    ensures rows { known.new.rows ≡ windows.without_first ids.old.items known.old.rows }
    ensures len { deque_len ids.new + 1 ≡ deque_len ids.old }
    ensures capacity { deque_capacity ids.new ≡ deque_capacity ids.old }
    ensures nodes { known.new.spare ≡ known.old.spare }
{
    let Some(first) = ids.pop_front() else {
        return;
    };
    known.remove(key_of(first.id.as_str(), first.moment));
}
