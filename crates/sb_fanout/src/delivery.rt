// A delivery's changes, behind those of the plan that it belongs to.
ghost use Rattle.std.specs.Prelude.{◌≡◌, OnOk, None};
ghost use Rattle.sb_machine.specs.Visits as visits;
ghost use Rattle.sb_fanout.specs.Deliveries.{IsDelivered, IsCarried};
ghost use Rattle.sb_fanout.specs.Lasts.{given_in};
ghost use Rattle.sb_fanout.specs.Tallies.{told};

use crate::Lasts;
use crate::course::{bury_in, enter, transfer};
use crate::tally::{Course, Tally};
use sb_machine::{Changes, Directory, Listed};
use sb_model::Message;
use std::alloc::{AllocError, Global};
use std::mem;

/// A tally that goes on behind these.
fn begun(alloc: Global, lasts: &mut Lasts, changes: &mut Changes, seq: Option<u64>) -> Tally
    ensures { told result ≡ record { given = given_in lasts.old; seq = seq; changes = changes.old } }
{
    Tally {
        lasts: mem::replace(lasts, Lasts::new(alloc)),
        seq,
        changes: mem::replace(changes, Changes::new(alloc)),
    }
}

/// What came of a tally goes back.
fn ended(lasts: &mut Lasts, changes: &mut Changes, tally: Tally)
    ensures lasts { given_in lasts.new ≡ given_in tally.lasts }
    ensures changes { changes.new ≡ tally.changes }
{
    *lasts = tally.lasts;
    drop(mem::replace(changes, tally.changes));
}

/// A message enters an entity: in a topic it enters each subscription as the rules there select
/// it, what is forwarded goes on, at most four times, and what can't be taken or forwarded is
/// dead-lettered or stays in the transfer part. Where memory is wanting, the plan is lost.
pub fn deliver<N: Directory>(
    alloc: Global,
    directory: &N,
    lasts: &mut Lasts,
    changes: &mut Changes,
    target: &Listed,
    message: Message,
) -> Result<(), AllocError>
    ensures { OnOk result (IsDelivered (N.listed directory.now) (N.last_of directory.now) (given_in lasts.old) target.now (visits.visits (N.listed directory.now) 0 target.now message) (given_in lasts.new) changes.old changes.new) }
{
    let course = Course { alloc, directory };
    let tally = begun(alloc, lasts, changes, None);
    let tally = enter(&course, tally, 0, target, message)?;
    ended(lasts, changes, tally);
    Ok(())
}

/// A message is handed on from an entity to the queue or topic of a name, as one that is
/// forwarded for the first time. Where memory is wanting, the plan is lost.
pub fn hand_on<N: Directory>(
    alloc: Global,
    directory: &N,
    lasts: &mut Lasts,
    changes: &mut Changes,
    from: &Listed,
    to: &str,
    message: Message,
) -> Result<(), AllocError>
    ensures { OnOk result (IsDelivered (N.listed directory.now) (N.last_of directory.now) (given_in lasts.old) from.now (visits.passage (N.listed directory.now) 0 from.now message to.now) (given_in lasts.new) changes.old changes.new) }
{
    let course = Course { alloc, directory };
    let tally = begun(alloc, lasts, changes, None);
    let tally = transfer(&course, tally, 0, from, message, to)?;
    ended(lasts, changes, tally);
    Ok(())
}

/// A dead letter whose number in the main part has ended goes where the entity's dead letters go.
/// Where memory is wanting, the plan is lost.
pub fn bury<N: Directory>(
    alloc: Global,
    directory: &N,
    lasts: &mut Lasts,
    changes: &mut Changes,
    entity: &Listed,
    enqueued_seq: u64,
    hops: u8,
    message: Message,
) -> Result<(), AllocError>
    ensures { OnOk result (IsCarried (N.listed directory.now) (N.last_of directory.now) (given_in lasts.old) enqueued_seq (visits.burial (N.listed directory.now) hops entity.now message) (given_in lasts.new) changes.old changes.new) }
{
    let course = Course { alloc, directory };
    let tally = begun(alloc, lasts, changes, Some(enqueued_seq));
    let tally = bury_in(&course, tally, hops, entity, message)?;
    ended(lasts, changes, tally);
    Ok(())
}
