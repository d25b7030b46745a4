// Ids that an entity accepted under a window.
ghost use Rattle.std.specs.Prelude.{◌≡◌, ◌+◌, ◌*◌, nat_lt, nat_le, true};
ghost use Rattle.std.specs.List.{list_all};
ghost use Rattle.sb_machine.specs.Changes as changes;
ghost use Rattle.sb_machine.specs.Fields.{is_id as is_short_id};
ghost use Rattle.sb_judge.specs.Entities as spec;

use crate::sorted::{Ordered, is_on};
use sb_machine::AcceptedId;
use sb_names::is_id;

impl Ordered for AcceptedId {
    ghost before = { λ a b. changes.is_earlier b.moment b.id a };

    fn is_before(&self, other: &AcceptedId) -> bool {
        self.moment < other.moment
            || (self.moment == other.moment && self.id.as_str() < other.id.as_str())
    }
}

/// Whether these may be the ids that were accepted up to a moment under a window, in s.
pub(crate) fn are_ids(moment: u64, window: Option<u64>, ids: &[AcceptedId]) -> bool
    ensures { result ≡ (spec.ids_verdict moment window ids.now).0 }
{
    match window {
        Some(window) => are_within(moment, window, ids),
        None => ids.is_empty(),
    }
}

#[tactic(auto, unfolding(crate::specs::Entities::window_verdict))]
fn are_within(moment: u64, window: u64, ids: &[AcceptedId]) -> bool
    ensures { result ≡ (spec.window_verdict moment window ids.now).0 }
{
    are_in_order(ids) && are_past(moment, ids) && are_near(window, ids)
}

/// Whether no id is longer than it may be.
pub(crate) fn are_ids_short(ids: &[AcceptedId]) -> bool
    ensures { result ≡ list_all (λ a. is_short_id a.id) ids.now }
{
    ids.iter().all(|a| is_id(a.id.as_str()))
}

#[tactic(auto, using(crate::proofs::InOrder::ids), unfolding(crate::specs::Entities::ids_order))]
fn are_in_order(ids: &[AcceptedId]) -> bool
    ensures { result ≡ (spec.ids_order ids.now).0 }
{
    is_on(ids)
}

fn are_past(moment: u64, ids: &[AcceptedId]) -> bool
    ensures { result ≡ list_all (λ a. nat_le a.moment moment) ids.now }
{
    ids.iter().all(|a| a.moment <= moment)
}

fn is_near(window: u64, first: u64, accepted: &AcceptedId) -> bool
    ensures { result ≡ nat_lt accepted.now.moment (first + 1000 * window) }
{
    u128::from(accepted.moment) < u128::from(first) + 1000 * u128::from(window)
}

fn are_near_to(window: u64, first: u64, ids: &[AcceptedId]) -> bool
    ensures { result ≡ list_all (λ a. nat_lt a.moment (first + 1000 * window)) ids.now }
{
    ids.iter().all(|a| is_near(window, first, a))
}

fn are_near_first(window: u64, ids: &[AcceptedId]) -> bool
    ensures { result ≡ spec.are_near_first window ids.now }
{
    match ids {
        [] => true,
        [first, rest @ ..] => are_near_to(window, first.moment, rest),
    }
}

// The first is the earliest, so all are near where they are near to it.
#[tactic(auto, using(crate::proofs::Near::all_near))]
fn are_near(window: u64, ids: &[AcceptedId]) -> bool
    requires { (spec.ids_order ids.now).0 ≡ true }
    ensures { result ≡ (spec.ids_near window ids.now).0 }
{
    are_near_first(window, ids)
}
