// What the rows and the ids of a window tell of an id.
ghost use Rattle.std.specs.Prelude.{◌≡◌, ◌+◌, ◌*◌, ◌-◌, ◌≤◌, find, nat_lt, Option, Some, None};
ghost use Rattle.std.specs.List.{list_any, prefix_len, slice_get};
ghost use Rattle.std.specs.VecDeque.{deque_len};
ghost use Rattle.sb_index.specs.Hashes.{hash};
ghost use Rattle.sb_index.specs.Rows.{is_from, AreRising};
ghost use Rattle.sb_machine.specs.Changes as spec;
ghost use Rattle.sb_machine.specs.Each.{IsSorted};
ghost use Rattle.sb_repeats.specs.Windows as windows;

use sb_index::{Index, hash_of};
use sb_machine::AcceptedId;
use std::collections::VecDeque;

// The keys of one number: a moment has 64 bits.
const SPAN: u128 = 18_446_744_073_709_551_616;

/// Whether what was accepted at `at` was so less than so many seconds before `moment`.
pub(crate) fn is_recent_at(at: u64, seconds: u64, moment: u64) -> bool
    ensures { result ≡ nat_lt moment (at + 1000 * seconds) }
{
    u128::from(moment) < u128::from(at) + 1000 * u128::from(seconds)
}

/// The key of an id that was accepted at a moment.
pub(crate) fn key_of(id: &str, moment: u64) -> u128
    ensures { result ≡ windows.key_at (hash id.now) moment }
{
    u128::from(hash_of(id.as_bytes())) * SPAN + u128::from(moment)
}

fn is_earlier(accepted: &AcceptedId, moment: u64, id: &str) -> bool
    ensures { result ≡ spec.is_earlier moment id.now accepted.now }
{
    accepted.moment < moment || (accepted.moment == moment && accepted.id.as_str() < id)
}

/// How many stand before what is accepted at this moment under this id.
pub(crate) fn place_of(ids: &VecDeque<AcceptedId>, moment: u64, id: &str) -> usize
    requires order { IsSorted windows.comes_first ids.now.items }
    ensures place { result ≡ prefix_len (spec.is_earlier moment id.now) ids.now.items }
    ensures within { result ≤ deque_len ids.now }
{
    ids.partition_point(|a| is_earlier(a, moment, id))
}

fn is_one(accepted: &AcceptedId, moment: u64, id: &str) -> bool
    ensures { result ≡ windows.is_one moment id.now accepted.now }
{
    accepted.moment == moment && accepted.id.as_str() == id
}

fn is_one_at(ids: &VecDeque<AcceptedId>, place: usize, moment: u64, id: &str) -> bool
    ensures { result ≡ windows.is_one_in moment id.now (slice_get ids.now.items place) }
{
    match ids.get(place) {
        Some(accepted) => is_one(accepted, moment, id),
        None => false,
    }
}

// Whether this id was accepted at this moment.
#[tactic(auto, using(crate::proofs::Ids::stands_at))]
fn stands(ids: &VecDeque<AcceptedId>, moment: u64, id: &str) -> bool
    requires order { IsSorted windows.comes_first ids.now.items }
    ensures { result ≡ list_any (windows.is_one moment id.now) ids.now.items }
{
    is_one_at(ids, place_of(ids, moment, id), moment, id)
}

fn is_known_at(ids: &VecDeque<AcceptedId>, seconds: u64, id: &str, moment: u64, at: u64) -> bool
    requires order { IsSorted windows.comes_first ids.now.items }
    ensures { result ≡ windows.is_known_at seconds id.now moment at ids.now.items }
{
    is_recent_at(at, seconds, moment) && stands(ids, at, id)
}

// The least moment from `from` on at which an id of this number was accepted.
#[tactic(auto, using(crate::proofs::Keys::found_from))]
fn next_moment(known: &Index, number: u64, from: u64) -> Option<u64>
    ensures { result ≡ windows.moment_in number (find (is_from (windows.key_at number from)) known.now.rows) }
{
    let first = u128::from(number) * SPAN;
    match known.first_from(first + u128::from(from)) {
        None => None,
        Some(row) => {
            let past = row.key - first;
            if past < SPAN { Some(past as u64) } else { None }
        }
    }
}

// The first moment that a window of so many seconds may reach to.
fn first_recent(seconds: u64, moment: u64) -> u64
    ensures { result ≡ moment - 1000 * seconds }
{
    moment.saturating_sub(seconds.saturating_mul(1000))
}

/// Whether the id was accepted less than so many seconds before `moment`. Where the rows tell of no
/// id of its number, nothing is looked at but the rows.
pub(crate) fn is_known(
    ids: &VecDeque<AcceptedId>,
    known: &Index,
    seconds: u64,
    id: &str,
    moment: u64,
) -> bool
    requires told { windows.AreTold ids.now.items known.now.rows }
    ensures { result ≡ spec.is_known seconds id.now moment ids.now.items }
{
    known.rises();
    is_known_by(ids, known, seconds, id, moment)
}

fn is_known_by(
    ids: &VecDeque<AcceptedId>,
    known: &Index,
    seconds: u64,
    id: &str,
    moment: u64,
) -> bool
    requires rising { AreRising known.now.rows }
    requires told { windows.AreTold ids.now.items known.now.rows }
    ensures { result ≡ spec.is_known seconds id.now moment ids.now.items }
{
    let number = hash_of(id.as_bytes());
    let mut from = first_recent(seconds, moment);
    'rows: while let Some(at) = next_moment(known, number, from) {
        if is_known_at(ids, seconds, id, moment, at) {
            return true;
        }
        if at == u64::MAX {
            return false;
        }
        from = at + 1;
    }
    false
}
