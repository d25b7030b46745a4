// Looking at copies, which leaves them as they are.
ghost use Rattle.std.specs.Prelude.{◌≡◌, IfOk};
ghost use Rattle.sb_machine.specs.Receiving as spec;
ghost use Rattle.sb_copies.specs.Shelf.{copies_in, AreInOrder, Leads};

use crate::places::first_from;
use sb_index::Index;
use sb_machine::{CopyShown, CopyState, Showing, Standing, StoredCopy};
use slab::Slab;
use std::alloc::{AllocError, Global};

fn seen_as(standing: Standing) -> CopyState
    ensures { result ≡ spec.seen_as standing }
{
    match standing {
        Standing::Ready => CopyState::Ready,
        Standing::Deferred => CopyState::Deferred,
        Standing::Held { .. } => CopyState::Held,
        Standing::Scheduled(at) => CopyState::Scheduled(at),
    }
}

fn browsed(copy: &StoredCopy) -> Result<CopyShown, AllocError>
    ensures { IfOk result (λ c. c ≡ spec.browsed copy.now) }
{
    Ok(CopyShown {
        number: copy.number,
        enqueued_seq: copy.enqueued_seq,
        enqueued: copy.enqueued,
        delivery: u64::from(copy.count),
        message: copy.message.clone()?,
        showing: Showing::Browsed(seen_as(copy.standing)),
    })
}

/// Up to `count` copies from the number `start` on, each found by the index.
pub fn peek(
    alloc: Global,
    slots: &Slab<StoredCopy>,
    order: &Index,
    start: u64,
    count: u64,
) -> Result<Vec<CopyShown>, AllocError>
    requires order { AreInOrder (copies_in slots.now order.now.rows) }
    requires leads { Leads slots.now order.now.rows }
    ensures { IfOk result (λ v. v.items ≡ spec.peeked start count (copies_in slots.now order.now.rows)) }
{
    let mut seen = Vec::new(alloc);
    let mut from = u128::from(start);
    for _ in 0..count {
        let Some(copy) = first_from(slots, order, from) else {
            return Ok(seen);
        };
        seen.push(browsed(copy)?)?;
        from = u128::from(copy.number) + 1;
    }
    Ok(seen)
}
